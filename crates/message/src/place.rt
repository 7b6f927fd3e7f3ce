use crate::leaving::Bounces;
use crate::waiting::Waiting;
use sk_types::{Handle, Session};

/// Where something is done: each has a state of its own, and what is done there stands in one order.
#[derive(Clone, Copy, Debug, PartialEq, Eq)]
pub enum Place {
    /// The handles and their names (skynet_handle.c).
    Registry,
    /// The mailbox of one handle (skynet_mq.c).
    Inbox(Handle),
    /// The clock and its timers (skynet_timer.c).
    Clock,
}

/// Whether an inbox takes messages.
#[derive(Clone, Copy, Debug, PartialEq, Eq)]
pub enum InboxStatus {
    Live,
    /// It still takes messages; its service ends as soon as it is idle.
    Closing,
    /// Its service has ended.
    Gone,
}

/// The state of one handle's inbox.
#[derive(Drop)]
pub struct InboxState {
    pub status: InboxStatus,
    pub waiting: Waiting,
}

/// A timer that waits: when it is due, whose it is, and the session that was asked for.
#[derive(Clone, Copy, Debug, PartialEq, Eq)]
pub struct Timer {
    pub at: u64,
    pub handle: Handle,
    pub session: Session,
}

/// A service: it serves, or it has ended and tells those who wait for it.
#[derive(Drop)]
pub enum Service<S> {
    Serving(S),
    /// Over, once no bounce is left.
    Leaving(Ending),
}

/// An ended service: the requests that it left, and whether the caller of the first was found.
#[derive(Drop)]
pub struct Ending {
    pub own: Handle,
    pub found: bool,
    pub bounces: Bounces,
}
