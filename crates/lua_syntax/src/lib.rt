//! Reads a script: its text becomes a tree, or has its first fault.
#![tactic(auto)]

mod law;
mod reader;

pub use law::{law_one_reading, law_unexpected_is_first};
pub use lua_parser::ParseError;
pub use reader::parse;

#[cfg(test)]
mod tests;
