//! What the operators of Lua give, what a heap holds and counts, and how an error reads.
//!
//! The definitions in `specs/` are what the heap, the machine and the meaning of a chunk all speak of.
#![tactic(auto)]

mod law;
mod operator;
mod refusal;

pub use law::{law_integers, law_texts};
pub use operator::{Binary, Unary};
pub use refusal::{Refusal, position};

#[cfg(test)]
mod tests;
