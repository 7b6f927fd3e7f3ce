//! Tables of Lua (manual, sections 2.1 and 6.1): the list of their pairs in the order of first assignment.
#![tactic(auto)]

mod table;

pub use table::{LuaTable, NoKey};

#[cfg(test)]
mod tests;
