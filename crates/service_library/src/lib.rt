//! What skynet.lua does for one service, apart from any Lua machine: who waits for which session, which requests are held,
//! which thread goes on next, and what the service asks of the node.
#![tactic(auto)]

mod answers;
mod arrives;
mod calls;
mod ends;
mod laws;
mod library;
mod words;

pub use laws::{
    law_held_requests, law_held_sessions, law_idle, law_ready_threads, law_requests_stand_together,
};
pub use library::Library;
pub use words::{AfterReply, Doing, LibCall, LibStep, Reason, Resume, ThreadStop};
