//! The form of the scripts that can be run so far: those that log texts, a line each.
#![tactic(auto)]

mod reader;
mod script;

pub use reader::{LogError, read_log};
pub use script::LogScript;

#[cfg(test)]
mod tests;
