//! What each name of a chunk means: a local of its function, one of a function outside, or the global; and which locals closures capture.
#![tactic(auto)]

mod law;
mod reader;
mod scoped;
mod usage;
mod walk;

pub use law::law_worked_scopes;
pub use scoped::{Scoped, resolve};
pub use usage::{Seen, Use};

#[cfg(test)]
mod tests;
