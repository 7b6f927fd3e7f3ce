//! What becomes of calls: each has exactly one fate after every journal, and is resumed at most once.
#![tactic(auto)]

ghost use Rattle.call_fates.specs.Laws.{EachHasOneFate, EachTakenOnce, TableIsTrue};
ghost use Rattle.call_fates.specs.Order.{InOrder, LaunchSucceeds};
ghost use Rattle.call_fates.specs.Drained.{EachComesToRest};

mod calls;

pub use calls::{CallKey, CallState, Calls, Fate};
use message::Actor;

/// After every journal from an opening world each call was made at most once, and has exactly one fate.
pub fn law_calls<A: Actor>()
    ensures { EachHasOneFate A.way A.sound }
{}

/// A caller takes at most one reply of each call, so that a call resumes its thread at most once.
pub fn law_once<A: Actor>()
    ensures { EachTakenOnce A.way A.sound }
{}

/// A list of calls that was empty at first and has followed each act tells each call's one fate after every journal.
pub fn law_table<A: Actor>()
    ensures { TableIsTrue A.way A.sound }
{}

/// When a run has drained, each call that was made has come to rest: its caller has taken exactly one reply, or its callee
/// serves on and holds the request, or its caller is over.
pub fn law_drained<A: Actor>()
    ensures { EachComesToRest A.way A.sound }
{}

/// What one service puts to another is taken in that order: the callee has taken a prefix, and the rest was there when it
/// ended, or waits.
pub fn law_order<A: Actor>()
    ensures { InOrder A.way A.sound }
{}

/// A Launch of a script that reads succeeds while handles are left.
pub fn law_launch<A: Actor>()
    ensures { LaunchSucceeds A.way }
{}

#[cfg(test)]
mod tests;
