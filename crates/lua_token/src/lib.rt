//! The lexer: which tokens spell a text (Lua 5.4 manual, section 3.1).
#![tactic(auto)]

mod character;
mod escape;
mod front;
mod lexer;
mod number;
mod spelling;
mod string;

pub use character::line_ends;
pub use lexer::{LexError, law_one_spelling, tokens};

#[cfg(test)]
mod tests;
