//! Plain types that every crate shares: numbers of services, texts of bytes, journals, statuses.
#![tactic(auto)]

mod bytes;
mod due;
mod fault;
mod journal;
mod memory;
mod number;
mod status;

pub use bytes::Bytes;
pub use due::Due;
pub use fault::{JournalFault, StartFault, SyntaxFault, SyntaxKind};
pub use journal::{Journal, Visit, VisitEnd};
pub use memory::NoMemory;
pub use number::{Handle, Kind, Limits, Session, Stamp};
pub use status::Status;

#[cfg(test)]
mod tests;
