//! Small records and their merge.
ghost use Rattle.std.specs.Prelude.{◌≡◌, ◌≤◌, length, IfOk};
ghost use Rattle.stamp_order.specs.Merged.{count};

use crate::{Entry, Journal, MergeRoom, Record, What, merge};
use message::Place;
use sk_types::{Handle, NoMemory, Stamp};
use std::alloc::Global;
use std::test::Fail;

/// The record of an agent that asked for the time at these stamps.
fn record(alloc: Global, agent: u32, stamps: &[u64]) -> Result<Record, NoMemory>
    ensures { IfOk result (λ r. length r.entries ≡ length stamps.now) }
{
    let mut record = Record::new(alloc);
    for stamp in stamps {
        record.reserve(1)?;
        record.add(Entry {
            stamp: Stamp(*stamp),
            agent: Handle(agent),
            place: Place::Clock,
            what: What::Now(0),
        });
    }
    Ok(record)
}

/// The journal of the merge of these records alone.
fn merged(alloc: Global, records: &[Record], entries: usize) -> Result<Journal, NoMemory>
    requires { count records.now ≤ entries }
{
    let mut room = MergeRoom::new(alloc, entries)?;
    let mut journal = Journal::new(alloc);
    journal.reserve(entries)?;
    merge(records, &mut room, &mut journal);
    Ok(journal)
}

#[test]
#[tactic(auto, using(crate::proofs::Gathered::count_three))]
fn by_stamp_then_agent(rt: HostRuntime) -> Result<(), Fail> {
    let alloc = rt.alloc();
    let one = record(alloc, 1, &[1, 4, 7])?;
    let two = record(alloc, 2, &[1, 2, 7])?;
    let three = record(alloc, 3, &[3, 4])?;
    let journal = merged(alloc, &[one, two, three], 8)?;
    let by_hand = [1, 2, 2, 3, 1, 3, 1, 2].map(Handle);
    assert!(rt; journal.as_slice() == by_hand.as_slice());
    Ok(())
}

#[test]
#[tactic(auto, using(crate::proofs::Gathered::count_three))]
fn the_order_of_the_records_is_none(rt: HostRuntime) -> Result<(), Fail> {
    let alloc = rt.alloc();
    let one = record(alloc, 9, &[3])?;
    let two = record(alloc, 5, &[])?;
    let three = record(alloc, 4, &[2, 3])?;
    let journal = merged(alloc, &[one, two, three], 3)?;
    let by_hand = [4, 4, 9].map(Handle);
    assert!(rt; journal.as_slice() == by_hand.as_slice());
    Ok(())
}

#[test]
#[tactic(auto, using(crate::proofs::Gathered::count_one))]
fn a_merge_goes_after_what_is_there(rt: HostRuntime) -> Result<(), Fail> {
    let alloc = rt.alloc();
    let mut room = MergeRoom::new(alloc, 2)?;
    let mut journal = Journal::new(alloc);
    journal.reserve(4)?;
    let first = record(alloc, 7, &[5, 6])?;
    merge(&[first], &mut room, &mut journal);
    let second = record(alloc, 8, &[1])?;
    merge(&[second], &mut room, &mut journal);
    let by_hand = [7, 7, 8].map(Handle);
    assert!(rt; journal.as_slice() == by_hand.as_slice());
    Ok(())
}
