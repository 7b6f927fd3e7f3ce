//! The handles of a run and their names, as skynet_handle.c keeps them.
#![tactic(auto)]

mod registry;

pub use registry::Registry;

#[cfg(test)]
mod tests;
