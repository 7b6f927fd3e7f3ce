//! Two halves that know one list of entries, though different threads keep them.
//!
//! An agent has a master, which makes a pair of halves for each place that the agent acts at: the agent keeps one half, the place
//! the other. Each entry is added to both halves at once, while both are at hand. The lists exist in the proofs alone: a half
//! takes no memory, and nothing is compared when the program runs.
#![tactic(auto)]

mod ending;
mod law;
mod master;
mod pair;
mod root;
mod view;

pub use ending::close;
pub use law::{Adds, Asks, HalfAgain, Law, NewMaster, NewPair, Reads, Together};
pub use master::Master;
pub use pair::{Half, add, same_list};
pub use root::{Root, Tie};
pub use view::View;

#[cfg(test)]
mod tests;
