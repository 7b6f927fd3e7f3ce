//! The code of a Lua chunk: operations on slots, and the test that lets a machine run them without tests of its own.
#![tactic(auto)]

mod fits;
mod function;
mod op;
mod validity;

pub use function::{Capture, Code, Constant, Function, Shape};
pub use op::Op;
pub use validity::valid;

#[cfg(test)]
mod tests;
