ghost use Rattle.std.specs.Prelude.{◌≡◌, IfOk};

use crate::datum::Body;
use sk_types::{Bytes, Handle, Kind, NoMemory, Session};
use std::alloc::Global;

/// A message, as skynet_mq.h has it. Session 0 wants no answer; a timer's message has source 0.
#[derive(Drop)]
pub struct Message {
    pub source: Handle,
    pub session: Session,
    pub kind: Kind,
    pub body: Body,
}

impl Message {
    ghost use Rattle.message.specs.Messages.{is_request, held_of};

    /// An equal message, on the allocator that is given.
    pub fn copy(&self, alloc: Global) -> Result<Message, NoMemory>
        ensures { IfOk result (λ m. m ≡ self.now) }
    {
        let body = self.body.copy(alloc)?;
        Ok(Message {
            source: self.source,
            session: self.session,
            kind: self.kind,
            body,
        })
    }

    /// Whether it wants an answer.
    pub fn is_request(&self) -> bool
        ensures { result ≡ is_request self.now }
    {
        matches!(self.kind, Kind::Lua) && self.session.0 != 0
    }

    /// Who is to be answered, and under which session.
    pub fn held_of(&self) -> Held
        ensures { result ≡ held_of self.now }
    {
        Held {
            source: self.source,
            session: self.session,
        }
    }
}

/// A request that a service has taken and not yet answered: whose it is, and its session.
#[derive(Clone, Copy, Debug, PartialEq, Eq)]
pub struct Held {
    pub source: Handle,
    pub session: Session,
}

/// Where a message is to go: a handle, or a name that begins with a full stop.
#[derive(Drop)]
pub enum Dest {
    Number(u32),
    Name(Bytes),
}

impl Dest {
    pub fn copy(&self, alloc: Global) -> Result<Dest, NoMemory>
        ensures { IfOk result (λ d. d ≡ self.now) }
    {
        match self {
            Dest::Number(n) => Ok(Dest::Number(*n)),
            Dest::Name(text) => Ok(Dest::Name(text.copy(alloc)?)),
        }
    }
}

/// What a service asks of the node.
#[derive(Drop)]
pub enum Request {
    /// Who is there?
    Look(Dest),
    /// The message, into the handle's inbox.
    Put(Handle, Message),
    /// A new service of this script, with these arguments.
    Launch(Bytes, Body),
    /// The name, for the handle.
    Name(Bytes, Handle),
    /// The handle is listed no more.
    Retire(Handle),
    /// The handle's inbox closes.
    Mark(Handle),
    /// A timer of so many ticks.
    Later(u32, Session),
    /// The clock.
    Now,
}

impl Request {
    /// An equal request, on the allocator that is given.
    pub fn copy(&self, alloc: Global) -> Result<Request, NoMemory>
        ensures { IfOk result (λ r. r ≡ self.now) }
    {
        match self {
            Request::Look(dest) => Ok(Request::Look(dest.copy(alloc)?)),
            Request::Put(to, message) => Ok(Request::Put(*to, message.copy(alloc)?)),
            Request::Launch(name, args) => {
                let name = name.copy(alloc)?;
                Ok(Request::Launch(name, args.copy(alloc)?))
            }
            Request::Name(text, handle) => Ok(Request::Name(text.copy(alloc)?, *handle)),
            Request::Retire(handle) => Ok(Request::Retire(*handle)),
            Request::Mark(handle) => Ok(Request::Mark(*handle)),
            Request::Later(ticks, session) => Ok(Request::Later(*ticks, *session)),
            Request::Now => Ok(Request::Now),
        }
    }
}

/// The answer to a request.
#[derive(Drop)]
pub enum Answer {
    /// To a Look and a Launch.
    Found(Option<Handle>),
    /// To a Put, a Name and a Retire.
    Flag(bool),
    /// To a Now.
    Clock(u64),
    /// To a Mark and a Later.
    Done,
}

/// What an actor is fed: a message where it is idle, else the answer to what it asks.
#[derive(Drop)]
pub enum Input {
    Message(Message),
    Answer(Answer),
}

/// What an actor does next.
#[derive(Drop)]
pub enum Next {
    /// It waits for a message.
    Idle,
    Ask(Request),
}
