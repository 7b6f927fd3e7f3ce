//! The record of an agent or of a place, tied to the records of all that it has met.
//!
//! Each action leaves an entry in the record of its agent and in that of its place, and different threads keep the two. A record
//! has a half for each other end that stands in it, which knows the entries with that end; so where the two halves of a pair are
//! put together, the two records are known to agree.
#![tactic(auto)]

mod entering;
mod halves;
mod trail;

pub use entering::{Entered, agree, enter};
pub use trail::{Naming, OfAgent, OfPlace, Side, TiedRecord, number};

#[cfg(test)]
mod tests;
