//! The order of a run's events: each agent and each place keeps a record of its own, and their stamps tell one order of
//! all (Lamport, "Time, clocks, and the ordering of events in a distributed system").
#![tactic(auto)]

ghost use Rattle.stamp_order.specs.Laws.{EntriesAreRun, MergedAreRun, OpeningIsWhole, OneMerged};

mod merging;

pub use merging::{MergeRoom, merge};
use message::Actor;
pub use message::{Entry, Record, What};
pub use sk_types::Journal;

/// Where the records of agents and of places are right, agree and begin well, the entries of all agents, in any order in
/// which no stamp is below the one before, are a run of the one-thread machine, and each agent and each place is then as
/// its own record leaves it.
pub fn law_entries<A: Actor>()
    ensures { EntriesAreRun A.way }
{}

/// The same of what `merge` gives of a list of records that has each agent's record.
pub fn law_merged<A: Actor>()
    ensures { MergedAreRun A.way }
{}

/// An opening world has a service and an inbox for each handle, as those two laws ask.
pub fn law_opening<A: Actor>()
    ensures { OpeningIsWhole A.Meaning }
{}

/// Records have one merged list.
pub fn law_one_merged()
    ensures { OneMerged }
{}

#[cfg(test)]
mod tests;
