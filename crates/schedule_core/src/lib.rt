//! Many workers over the one-thread message machine, with no thread in sight: the steps of workers, in every order.
//!
//! A service acts by its turn alone. The turn is with its mailbox, waits in the queue, is in the hand of one worker, or is spent.
//! The definitions of the steps and of how the two levels fit stand in `specs/`, and speak of plain lists.
#![tactic(auto)]

ghost use Rattle.schedule_core.specs.Laws.{StepsKeepTwo, QuietIsDrained, CallsAreSettled};

mod action;
mod spot;
mod turns;
mod two_level;

pub use action::Action;
use message::Actor;
pub use spot::Spot;
pub use turns::Turns;
pub use two_level::Core;

/// Over every list of steps of every number of workers: the two levels still fit, no two hands have one service, and the world is
/// that of the one-thread machine after the agents that acted.
pub fn law_steps<A: Actor>()
    ensures { StepsKeepTwo A.way }
{}

/// Where no turn is queued or in a hand and the clock has nothing to do, nobody has: no mailbox with work is lost.
pub fn law_quiet<A: Actor>()
    ensures { QuietIsDrained A.way }
{}

/// Whatever the order of the steps, each call has exactly one fate, and comes to rest in a quiet state.
pub fn law_calls<A: Actor>()
    ensures { CallsAreSettled A.way A.sound }
{}

#[cfg(test)]
mod tests;
