//! Three small services by which a world is tried by hand: a caller, an echo and a killer.
#![tactic(auto)]

mod player;

pub use player::{Outcome, Player, Players, Role, Task};

#[cfg(test)]
mod tests;
