//! What a run takes from outside and gives back: a folder, sinks, ticks and a gate, as traits, and each in memory.
//!
//! A device counts its faults. It answers [`Failed`] only where that count rose, so a caller can tell a fault of the
//! device from one that a caller made up.
#![tactic(auto)]

mod fault;
mod folder;
mod gate;
mod memory_folder;
mod memory_sink;
mod sink;
mod ticks;

pub use fault::{Failed, FolderFault};
pub use folder::Folder;
pub use gate::{Gate, OpenGate};
pub use memory_folder::{MemoryFolder, find_file};
pub use memory_sink::MemorySink;
pub use sink::{Sink, write_all};
pub use ticks::{MemoryTicks, TickSource};

#[cfg(test)]
mod tests;
