//! A jump names a label while a function is being written, and a place when it is done.

ghost use Rattle.std.specs.Prelude.{◌≡◌, map};
ghost use Rattle.lua_compile.specs.Writer.{place, placed};

use lua_code::{Function, Op};

fn place(labels: &[u32], label: u32) -> u32
    ensures { result ≡ place labels.now label }
{
    match labels.get(label as usize) {
        Some(place) => *place,
        None => 0,
    }
}

fn placed(labels: &[u32], op: Op) -> Op
    ensures { result ≡ placed labels.now op }
{
    match op {
        Op::Jump { at } => Op::Jump {
            at: place(labels, at),
        },
        Op::Loop { pay, at } => Op::Loop {
            pay,
            at: place(labels, at),
        },
        Op::Test { from, at } => Op::Test {
            from,
            at: place(labels, at),
        },
        Op::TestNot { from, at } => Op::TestNot {
            from,
            at: place(labels, at),
        },
        Op::UnlessLess {
            left,
            right,
            pay,
            at,
        } => Op::UnlessLess {
            left,
            right,
            pay,
            at: place(labels, at),
        },
        Op::UnlessLessEqual {
            left,
            right,
            pay,
            at,
        } => Op::UnlessLessEqual {
            left,
            right,
            pay,
            at: place(labels, at),
        },
        Op::UnlessEqual {
            left,
            right,
            pay,
            at,
        } => Op::UnlessEqual {
            left,
            right,
            pay,
            at: place(labels, at),
        },
        Op::UnlessNotEqual {
            left,
            right,
            pay,
            at,
        } => Op::UnlessNotEqual {
            left,
            right,
            pay,
            at: place(labels, at),
        },
        Op::UnlessLessInt {
            left,
            value,
            pay,
            at,
        } => Op::UnlessLessInt {
            left,
            value,
            pay,
            at: place(labels, at),
        },
        Op::UnlessLessEqualInt {
            left,
            value,
            pay,
            at,
        } => Op::UnlessLessEqualInt {
            left,
            value,
            pay,
            at: place(labels, at),
        },
        Op::UnlessGreaterInt {
            left,
            value,
            pay,
            at,
        } => Op::UnlessGreaterInt {
            left,
            value,
            pay,
            at: place(labels, at),
        },
        Op::UnlessGreaterEqualInt {
            left,
            value,
            pay,
            at,
        } => Op::UnlessGreaterEqualInt {
            left,
            value,
            pay,
            at: place(labels, at),
        },
        Op::UnlessEqualInt {
            left,
            value,
            pay,
            at,
        } => Op::UnlessEqualInt {
            left,
            value,
            pay,
            at: place(labels, at),
        },
        Op::UnlessNotEqualInt {
            left,
            value,
            pay,
            at,
        } => Op::UnlessNotEqualInt {
            left,
            value,
            pay,
            at: place(labels, at),
        },
        Op::ForPrep { pay, base, at } => Op::ForPrep {
            pay,
            base,
            at: place(labels, at),
        },
        Op::ForLoop { pay, base, at } => Op::ForLoop {
            pay,
            base,
            at: place(labels, at),
        },
        Op::ForEach { pay, base, at } => Op::ForEach {
            pay,
            base,
            at: place(labels, at),
        },
        _ => op,
    }
}

/// Every label becomes its place.
pub fn place_all(function: &mut Function, labels: &[u32])
    ensures { function.new ≡ record function.old { ops = map (placed labels.now) function.old.ops } }
{
    for at in 0..function.ops().len() {
        let op = placed(labels, function.ops()[at]);
        function.set_op(at, op);
    }
}
