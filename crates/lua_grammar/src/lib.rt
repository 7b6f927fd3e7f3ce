//! The grammar of the Lua profile, and a table that reads it from left to right with one token of look-ahead.
#![tactic(auto)]

pub mod laws;
mod symbol;
mod tree;

pub use symbol::{Effect, Phrase, Place, Scope, Symbol};
pub use tree::Part;
