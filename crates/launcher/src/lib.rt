//! The launcher, skynet's service 2: it launches services, answers who asked for them, and lists them.
#![tactic(auto)]

mod desk;
mod handles;
mod launcher;
mod laws;
mod order;
mod replies;
mod requests;
mod services;

pub use launcher::Launcher;
pub use laws::law_sender_is_served;

#[cfg(test)]
mod tests;
