use sk_types::Handle;

/// A thread of the service.
#[derive(Clone, Copy, Debug, PartialEq, Eq, PartialOrd, Ord)]
pub struct ThreadNo(pub u64);

/// A response function that the service was given.
#[derive(Clone, Copy, Debug, PartialEq, Eq, PartialOrd, Ord)]
pub struct ResponseNo(pub u64);

/// What a thread sleeps under. Equal Lua values have equal tokens, and others have others.
#[derive(Clone, Copy, Debug, PartialEq, Eq, PartialOrd, Ord)]
pub struct Token {
    pub kind: u8,
    pub number: i64,
}

/// A thread that waits for a session, and the token that it sleeps under, where it sleeps.
#[derive(Clone, Copy, Debug, PartialEq, Eq)]
pub struct Waiter {
    pub thread: ThreadNo,
    pub token: Option<Token>,
}

/// What a thread or a response function is to answer.
#[derive(Clone, Copy, Debug, PartialEq, Eq)]
pub enum Owed {
    /// The request that was taken under this number.
    Request(u64),
    /// A message of this source that wants no answer.
    Note(Handle),
}

/// There is nothing to answer.
#[derive(Clone, Copy, Debug, PartialEq, Eq)]
pub struct NoSession;

/// Another thread sleeps under the token.
#[derive(Clone, Copy, Debug, PartialEq, Eq)]
pub struct TokenUsed;

/// Why no response function is given.
#[derive(Clone, Copy, Debug, PartialEq, Eq)]
pub enum TakeError {
    Memory,
    Fault(NoSession),
}

/// Why a thread does not sleep.
#[derive(Clone, Copy, Debug, PartialEq, Eq)]
pub enum SleepError {
    Memory,
    Fault(TokenUsed),
}
