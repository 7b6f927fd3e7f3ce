use message::{Answer, Body, Dest, Held, Message, Request};
use service_exit::Leave;
use session_table::{ResponseNo, ThreadNo, Token};
use sk_types::{Bytes, Handle, Kind, Session};

/// What a service's library is told: a message, the answer to the request that it asked, or a call that the running
/// thread makes. A body is packed, and a thread's number is one that was not used before.
#[derive(Drop)]
pub enum LibCall {
    /// A message, and the thread in which it may run.
    Message(Message, ThreadNo),
    Answer(Answer),
    /// `skynet.start`, with the thread of its function.
    Start(ThreadNo),
    /// `skynet.dispatch`: from now on a dispatch function is set.
    Dispatch,
    /// `skynet.send`.
    Send(Dest, Body),
    /// `skynet.call`.
    Call(Dest, Body),
    /// `skynet.ret`.
    Ret(Body),
    /// `skynet.response`.
    Response,
    /// A response function is used: with the values of a Response, or with none for an Error.
    Respond(ResponseNo, Option<Body>),
    /// A response function is asked whether it is unused.
    Unused(ResponseNo),
    /// `skynet.fork`, with the new thread.
    Fork(ThreadNo),
    /// `skynet.timeout`, with the thread of its function.
    Timeout(i64, ThreadNo),
    /// `skynet.sleep`; `skynet.yield` sleeps no ticks.
    Sleep(i64, Token),
    /// `skynet.wait`.
    Wait(Token),
    /// `skynet.wakeup`.
    Wakeup(Token),
    /// `skynet.now`.
    Now,
    /// `skynet.localname`.
    LocalName(Bytes),
    /// `skynet.name`; `skynet.register` names the service itself.
    Name(Bytes, i64),
    /// `skynet.newservice`, with its further arguments.
    NewService(Bytes, Body),
    /// `skynet.kill`, and whether the destination was given as a text.
    Kill(Dest, bool),
    /// `skynet.exit`.
    Exit,
    /// `skynet.error`, with the text that its arguments make.
    Log(Bytes),
}

/// How a thread goes on.
#[derive(Drop)]
pub enum Resume {
    /// It begins, with the values of a body.
    Begin(Body),
    /// It begins as a dispatch: with the source, the session and the values of a body.
    Dispatch(Handle, Session, Body),
    /// With results of the library.
    Values(Body),
    /// With the values of a message's body.
    Unpack(Body),
    /// With a response function.
    Response(ResponseNo),
    /// It had blocked, and raises.
    Fail(Bytes),
}

/// How the running thread stopped.
#[derive(Drop)]
pub enum ThreadStop {
    Return,
    Raise(Bytes),
    /// A limit is reached; the text says which.
    Limit(Bytes),
}

/// What comes next.
#[derive(Drop)]
pub enum LibStep {
    Ask(Request),
    Resume(ThreadNo, Resume),
    /// The call raises in the running thread.
    Raise(Bytes),
    /// The service waits for a message.
    Idle,
}

/// Why a thread waits.
#[derive(Clone, Copy, Debug, PartialEq, Eq)]
pub enum Reason {
    /// For the answer to its call.
    Call,
    /// For its beginning.
    Begin,
    /// It sleeps.
    Sleep,
    /// It waits to be woken.
    Wait,
}

/// What follows when a reply was put, or its caller is gone.
#[derive(Drop)]
pub enum AfterReply {
    /// The thread that replied goes on.
    GoOn,
    /// The error of the thread is logged.
    Log(Bytes),
    /// No thread ran.
    Rest,
}

/// The request that is not answered yet, and what it is for.
#[derive(Drop)]
pub enum Doing {
    /// None.
    Quiet,
    /// The Look of a message's destination, and its Put.
    Sending(Body),
    Sent,
    /// The same of a call.
    Calling(Session, Body),
    Called(Session),
    /// The Look of the caller of a held request, and the Put of its reply.
    Replying(Held, Kind, Body, AfterReply),
    Replied(Held, AfterReply),
    /// Nothing depends on the answer, and the running thread goes on.
    Given,
    /// The timer of a thread that is to sleep.
    Sleeping(Session, Token),
    /// The clock.
    Asking,
    /// The Look of a name that a script asked for.
    Finding,
    Naming,
    /// The Look of a service that is to be killed.
    Seeking,
    /// The requests of an ending, and whether the Mark of the service itself was asked.
    Leaving(Leave, bool),
    /// A last word of a thread that has stopped.
    Told,
    /// None, and the service has ended.
    Over,
}
