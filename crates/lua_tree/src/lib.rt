//! The tokens and the trees of a Lua script.
#![tactic(auto)]

mod token;
mod tree;

pub use token::{Sign, Token, TokenKind, TokenList, Word};
pub use tree::{
    BinaryOp, Block, Body, Branch, Chunk, Expr, Field, GenericFor, NumericFor, Operand, Stat,
    Suffix, Target, UnaryOp,
};

#[cfg(test)]
mod tests;
