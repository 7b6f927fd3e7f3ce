//! Messages, what services ask of the node and get, and what a service is to it.
//!
//! The definitions of one agent's next operation, of one place's answer and effect, and of what an answer does to an
//! agent stand in `specs/`, joined to the one-thread machine of messages.
#![tactic(auto)]

mod actor;
mod datum;
mod leaving;
mod place;
mod record;
mod request;
mod waiting;

pub use actor::{Actor, Maker};
pub use datum::{Body, Datum, Pairs};
pub use leaving::Bounces;
pub use place::{Ending, InboxState, InboxStatus, Place, Service, Timer};
pub use record::{Entry, Record, What};
pub use request::{Answer, Dest, Held, Input, Message, Next, Request};
pub use waiting::{HeldList, NoRoom, Waiting};

#[cfg(test)]
mod tests;
