ghost use Rattle.std.specs.Prelude.{◌≡◌, ◌≤◌, ◌<◌, ◌+◌, ◌++◌, map, length, OnOk, IfOk, vec_len, vec_capacity};
ghost use Rattle.stamp_order.specs.Merged.{AddsMerged, count, key, entries_of};

use message::{Entry, Record};
use sk_types::{Handle, Journal, NoMemory, Stamp};
use std::alloc::Global;
use std::marker::Model;

/// Room for a merge, made before the run whose records are merged. Contracts see for how many entries.
#[derive(Drop)]
pub struct MergeRoom {
    keys: Vec<(Stamp, Handle)>,
}

impl Model for MergeRoom {
    ghost use Rattle.std.specs.Prelude.{ℕ, vec_capacity};

    ghost Value = { ℕ };

    ghost view = { λ r. vec_capacity r.keys };
}

impl MergeRoom {
    /// Room for at least so many entries.
    pub fn new(alloc: Global, entries: usize) -> Result<MergeRoom, NoMemory>
        ensures { IfOk result (λ r. entries ≤ r) }
    {
        let mut keys = Vec::new(alloc);
        keys.reserve(entries)?;
        Ok(MergeRoom { keys })
    }
}

/// Adds the keys of these entries.
fn add_keys(entries: &[Entry], keys: &mut Vec<(Stamp, Handle)>)
    requires { vec_len keys.old + length entries.now ≤ vec_capacity keys.old }
    ensures keys { keys.new.items ≡ keys.old.items ++ map key entries.now }
    ensures room { vec_capacity keys.new ≡ vec_capacity keys.old }
{
    for entry in entries {
        keys.push_reserved((entry.stamp, entry.agent));
    }
}

/// Adds the keys of the entries of all records.
#[tactic(auto, using(crate::proofs::Gathered::counted, crate::proofs::Gathered::keys_grown, crate::proofs::Gathered::fits))]
fn add_all_keys(records: &[Record], keys: &mut Vec<(Stamp, Handle)>)
    requires { vec_len keys.old + count records.now ≤ vec_capacity keys.old }
    ensures keys { keys.new.items ≡ keys.old.items ++ map key (entries_of records.now) }
    ensures room { vec_capacity keys.new ≡ vec_capacity keys.old }
{
    for record in records {
        add_keys(record.as_slice(), keys);
    }
}

/// Adds the agents of the keys to the journal.
fn add_agents(keys: &[(Stamp, Handle)], out: &mut Journal)
    requires { length keys.now ≤ out.old.room }
    ensures agents { out.new.agents ≡ out.old.agents ++ map (λ k. k.1) keys.now }
    ensures room { out.new.room + length keys.now ≡ out.old.room }
{
    for key in keys {
        out.add(key.1);
    }
}

/// Adds the agents of all entries of the records to the journal, ordered by stamp, then agent. It takes no memory.
pub fn merge(records: &[Record], room: &mut MergeRoom, out: &mut Journal)
    requires fits { count records.now ≤ room.old }
    requires place { count records.now ≤ out.old.room }
    ensures merged { AddsMerged records.now out.old.agents out.new.agents }
    ensures room { out.new.room + count records.now ≡ out.old.room }
    ensures kept { room.new ≡ room.old }
{
    room.keys.clear();
    add_all_keys(records, &mut room.keys);
    room.keys.sort_unstable();
    add_agents(room.keys.as_slice(), out);
}
