//! From the text of a Lua chunk to a machine that runs it.
#![tactic(auto)]

mod loader;

pub use loader::{LoadError, Stopped, load, run};

#[cfg(test)]
mod tests;
