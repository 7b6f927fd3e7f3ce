//! The operators of Lua on values that are no tables (manual, section 3.4): what each answers, or why it is refused.
#![tactic(auto)]

mod answer;
pub mod integer;
mod one_operand;
mod two_operands;

pub use answer::Answer;
pub use one_operand::unary;
pub use two_operands::binary;

#[cfg(test)]
mod tests;
