//! The one-thread message machine: all services of a run and all places, and one action after another.
#![tactic(auto)]

mod calling;
mod engine;
mod idle;
mod opening;
mod phase;
mod places;
mod served;
mod service;
mod weighing;
mod world;

pub use calling::NewCall;
pub use engine::{ActError, Engine, NoAction};
pub use phase::Phase;
pub use places::{Places, Undone};
pub use served::{Served, Stage};
pub use weighing::Ahead;
pub use world::World;

#[cfg(test)]
mod tests;
