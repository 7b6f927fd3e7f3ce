//! The words of the commands: a folder, options and numbers, read by clap and within their ranges.
#![tactic(auto)]

mod command;
mod fault;
mod numbers;
mod replay;
mod run;

pub use fault::WordsFault;
pub use numbers::{Range, number};
pub use replay::{ReplayWords, read_replay};
pub use run::{RunWords, read_run};
