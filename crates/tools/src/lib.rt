//! The calls of the second program: so far `check`, which says of each script of a folder whether it reads.
#![tactic(auto)]

mod check;
mod names;
mod report;

pub use check::check_folder;

#[cfg(test)]
mod tests;
