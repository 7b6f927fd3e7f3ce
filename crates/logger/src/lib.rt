//! The logger, skynet's service 1: it writes a line for each text that it takes.
#![tactic(auto)]

mod logger;
mod text;

pub use logger::Logger;
pub use text::{line, push_hex};

#[cfg(test)]
mod tests;
