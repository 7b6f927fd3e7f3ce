//! The compiler of Lua: what code each term gets, and the laws of that code.
//!
//! The definitions stand in `specs/`, and the functions of `law` have laws of them as their contracts. A `Writer` writes a function
//! operation by operation; each of its calls is one definition, and so is each function over the tree.
#![tactic(auto)]

mod aim;
mod assign;
mod block;
mod chunk_code;
mod expression;
mod label;
mod law;
mod list;
mod number;
mod operator;
mod reach;
mod scope;
mod statement;
mod value;
mod writer;

pub use aim::{Aim, Link, Operand, Room, Want};
pub use chunk_code::{CompileError, compile, write_chunk};
pub use law::{
    law_chunks_have_code, law_compiled_code_is_valid, law_compiled_code_serves, law_worked_chunks,
};
