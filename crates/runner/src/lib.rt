//! The top call: runs the scripts of a folder as services, and writes what the logger took.
#![tactic(auto)]

mod command;
mod logger;
mod message;
mod scripts;
mod words;
mod world;

pub use command::{RunBook, run_command};
pub use scripts::is_script;
pub use words::is_form;

#[cfg(test)]
mod tests;
