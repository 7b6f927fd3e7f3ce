//! The heap of one Lua service: strings, closures and the cells that closures share, and the units that they cost.
#![tactic(auto)]

mod closure;
mod fault;
mod heap;
mod texts;

pub use closure::Closure;
pub use fault::{HeapFault, HeapFull};
pub use heap::Heap;

#[cfg(test)]
mod tests;
