/// The number of a service, from 1; 0 is the clock, and the source of a timer's message.
#[derive(Clone, Copy, Debug, PartialEq, Eq, PartialOrd, Ord, Hash)]
pub struct Handle(pub u32);

/// The number by which an answer finds its request; 0 where no answer is wanted.
#[derive(Clone, Copy, Debug, PartialEq, Eq, PartialOrd, Ord, Hash)]
pub struct Session(pub u64);

/// The number that orders the events of one service and of one place.
#[derive(Clone, Copy, Debug, PartialEq, Eq, PartialOrd, Ord, Hash)]
pub struct Stamp(pub u64);

/// The kind of a message (`PTYPE_TEXT`, `PTYPE_RESPONSE`, `PTYPE_ERROR` and `PTYPE_LUA` of skynet.h).
#[derive(Clone, Copy, Debug, PartialEq, Eq)]
pub enum Kind {
    Text = 0,
    Response = 1,
    Error = 7,
    Lua = 10,
}

/// What a run may use up.
#[derive(Clone, Copy, Debug, PartialEq, Eq)]
pub struct Limits {
    /// The events of the run.
    pub events: u32,
    /// The weights of all bodies that are put and launched, and the lengths of all logger lines.
    pub bytes: u64,
    /// The ticks of one message.
    pub budget: u64,
    /// The heap units of one service.
    pub heap: u64,
}
