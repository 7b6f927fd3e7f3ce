use message::{Body, Held};
use sk_types::{Bytes, Handle};

/// A service that is listed, and its script.
#[derive(Drop)]
pub struct Service {
    pub handle: Handle,
    pub name: Bytes,
}

/// What becomes of a request that the launcher holds.
#[derive(Clone, Copy, Debug, PartialEq, Eq)]
pub enum Role {
    /// It is being served.
    Served,
    /// It waits until the service of this handle has started.
    Pending(Handle),
    /// It gets no answer.
    Kept,
}

/// A request that the launcher holds.
#[derive(Clone, Copy, Debug, PartialEq, Eq)]
pub struct Taken {
    pub role: Role,
    pub held: Held,
}

/// What a caller is answered.
#[derive(Clone, Copy, Debug, PartialEq, Eq)]
pub enum Reply {
    /// An Error.
    Failed,
    /// Its service ended before it had started.
    Ended,
    /// Its service has started.
    Launched(Handle),
    /// Whether the service that it had killed was listed.
    Killed(bool),
    /// The services that are listed.
    Services,
}

/// What follows when a reply was put, or its caller is gone.
#[derive(Clone, Copy, Debug, PartialEq, Eq)]
pub enum AfterReply {
    Rest,
    /// Who had a service killed is told whether it was listed.
    Report(bool),
}

/// The request that is not answered yet, and what it is for.
#[derive(Drop)]
pub enum Doing {
    /// None.
    Quiet,
    /// The Launch of a script, with these arguments.
    Launching(Bytes, Body),
    /// The line of a launch that failed.
    Telling(Bytes),
    /// The Retire of a service that is to end, and its Mark.
    Retiring(Handle),
    Marking(Handle),
    /// The Look of the caller of a request, and the Put of its reply.
    Seeking(Held, Reply, AfterReply),
    Sending(Held, Reply, AfterReply),
}
