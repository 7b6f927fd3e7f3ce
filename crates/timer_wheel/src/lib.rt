//! The timers of a run, as skynet_timer.c keeps them: here by the tick at which they fire, and contracts see a list in the order of adding.
#![tactic(auto)]

mod timers;

pub use timers::Timers;

#[cfg(test)]
mod tests;
