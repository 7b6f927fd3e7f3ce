//! The parser: the chunk that tokens spell, or their first fault (Lua 5.4 manual, section 9).
#![tactic(auto)]

mod error;
mod expected;
mod parser;
mod reader;
mod table;
mod trees;
mod verdict;

pub use error::ParseError;
pub use parser::parse_tokens;
