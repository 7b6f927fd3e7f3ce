//! The values of Lua (manual, section 2.1), and lists of them.
#![tactic(auto)]

mod value;
mod values;

pub use value::Value;
pub use values::Values;

#[cfg(test)]
mod tests;
