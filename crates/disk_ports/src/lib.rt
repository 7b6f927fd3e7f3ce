//! A real folder, standard output and a file, as the devices of a run. They tell nothing of their content.
#![tactic(auto)]

mod folder;
mod output;

pub use folder::DiskFolder;
pub use output::{FileSink, Output};

#[cfg(test)]
mod tests;
