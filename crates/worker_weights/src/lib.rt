//! How many messages of one service a worker takes before it goes on to the next, by the worker's weight.
#![tactic(auto)]

ghost use Rattle.std.specs.Prelude.{◌≡◌, ◌≤ℤ◌, pos, negsuc};
ghost use Rattle.worker_weights.specs.Weights.{weight_of, batch_of};

/// The weight of the worker with this index, from 0.
pub fn weight(index: u32) -> i32
    ensures { result ≡ weight_of index }
{
    match index {
        0..=3 => -1,
        4..=7 => 0,
        8..=15 => 1,
        16..=23 => 2,
        24..=31 => 3,
        _ => 0,
    }
}

/// How many messages a worker of this weight takes from a service, where so many are left after the first.
pub fn batch(weight: i32, remaining: u64) -> u64
    requires low { negsuc 0 ≤ℤ weight }
    requires high { weight ≤ℤ pos 3 }
    ensures { result ≡ batch_of weight remaining }
{
    match weight {
        0 => remaining.max(1),
        1 => (remaining >> 1).max(1),
        2 => (remaining >> 2).max(1),
        3 => (remaining >> 3).max(1),
        _ => 1,
    }
}

#[cfg(test)]
mod tests;
