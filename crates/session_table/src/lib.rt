//! The sessions of one service: who waits for which, which requests are held, and which of its threads sleep.
//!
//! These are the tables of skynet.lua (`session_id_coroutine`, `session_coroutine_id`, `sleep_session`, `wakeup_queue`).
#![tactic(auto)]

mod requests;
mod sessions;
mod words;

pub use sessions::Sessions;
pub use words::{
    NoSession, Owed, ResponseNo, SleepError, TakeError, ThreadNo, Token, TokenUsed, Waiter,
};

#[cfg(test)]
mod histories;
#[cfg(test)]
mod tests;
