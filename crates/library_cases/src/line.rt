use crate::error::CaseError;
use crate::words::Words;
use message::{Answer, Dest, Message};
use service_exit::Exit;
use service_library::{LibCall, ThreadStop};
use sk_types::{Handle, Kind};
use std::alloc::Global;

/// A line of a history.
#[derive(Drop)]
pub enum Line {
    /// None, between two histories.
    Empty,
    /// `== NAME`: a history of a new service begins.
    Title,
    /// A message, an answer, or a call of the running thread.
    Call(LibCall),
    /// The running thread stops.
    Stop(ThreadStop),
    /// An ending apart from a library: its first request.
    Leave(Exit),
    /// Its next request, after this answer.
    Left(Answer),
}

impl Line {
    pub fn read(alloc: Global, text: &str) -> Result<Line, CaseError> {
        if text.is_empty() {
            return Ok(Line::Empty);
        }
        let mut words = Words::new(text);
        match words.word()? {
            "==" => Ok(Line::Title),
            "return" => Ok(Line::Stop(ThreadStop::Return)),
            "raise" => Ok(Line::Stop(ThreadStop::Raise(words.text(alloc)?))),
            "limit" => Ok(Line::Stop(ThreadStop::Limit(words.text(alloc)?))),
            "leave" => Ok(Line::Leave(exit(alloc, &mut words)?)),
            "left" => Ok(Line::Left(answer(&mut words)?)),
            name => Ok(Line::Call(call(alloc, name, &mut words)?)),
        }
    }
}

fn exit(alloc: Global, words: &mut Words<'_>) -> Result<Exit, CaseError> {
    match words.word()? {
        "own" => Ok(Exit::Own),
        "limit" => Ok(Exit::Limit(words.text(alloc)?)),
        "raised" => Ok(Exit::Raised(words.text(alloc)?)),
        "kill" => Ok(Exit::Kill(words.handle()?)),
        _ => Err(CaseError::Form),
    }
}

fn answer(words: &mut Words<'_>) -> Result<Answer, CaseError> {
    match words.word()? {
        "found" => Ok(Answer::Found(Some(words.handle()?))),
        "none" => Ok(Answer::Found(None)),
        "flag" => Ok(Answer::Flag(words.flag()?)),
        "clock" => Ok(Answer::Clock(words.natural()?)),
        "done" => Ok(Answer::Done),
        _ => Err(CaseError::Form),
    }
}

/// What comes from outside, and the calls that speak of messages.
fn call(alloc: Global, name: &str, words: &mut Words<'_>) -> Result<LibCall, CaseError> {
    match name {
        "message" => arrival(alloc, words),
        "answer" => Ok(LibCall::Answer(answer(words)?)),
        "start" => Ok(LibCall::Start(words.thread()?)),
        "dispatch" => Ok(LibCall::Dispatch),
        "send" => Ok(LibCall::Send(words.dest(alloc)?, words.body(alloc)?)),
        "call" => Ok(LibCall::Call(words.dest(alloc)?, words.body(alloc)?)),
        "ret" => Ok(LibCall::Ret(words.body(alloc)?)),
        "response" => Ok(LibCall::Response),
        "respond" => respond(alloc, words),
        "unused" => Ok(LibCall::Unused(words.response()?)),
        _ => thread_call(alloc, name, words),
    }
}

/// The calls that speak of threads and of time.
fn thread_call(alloc: Global, name: &str, words: &mut Words<'_>) -> Result<LibCall, CaseError> {
    match name {
        "fork" => Ok(LibCall::Fork(words.thread()?)),
        "timeout" => Ok(LibCall::Timeout(words.integer()?, words.thread()?)),
        "sleep" => Ok(LibCall::Sleep(words.integer()?, words.token()?)),
        "wait" => Ok(LibCall::Wait(words.token()?)),
        "wakeup" => Ok(LibCall::Wakeup(words.token()?)),
        "now" => Ok(LibCall::Now),
        _ => service_call(alloc, name, words),
    }
}

/// The calls that speak of services.
fn service_call(alloc: Global, name: &str, words: &mut Words<'_>) -> Result<LibCall, CaseError> {
    match name {
        "localname" => Ok(LibCall::LocalName(words.name(alloc)?)),
        "name" => Ok(LibCall::Name(words.name(alloc)?, words.integer()?)),
        "newservice" => Ok(LibCall::NewService(words.name(alloc)?, words.body(alloc)?)),
        "kill" => kill(words),
        "killtext" => Ok(LibCall::Kill(words.dest(alloc)?, true)),
        "exit" => Ok(LibCall::Exit),
        "log" => Ok(LibCall::Log(words.text(alloc)?)),
        _ => Err(CaseError::Form),
    }
}

/// A service that is given by an integer.
fn kill(words: &mut Words<'_>) -> Result<LibCall, CaseError> {
    let Handle(number) = words.handle()?;
    Ok(LibCall::Kill(Dest::Number(number), false))
}

/// `message KIND SOURCE SESSION THREAD VALUES`.
fn arrival(alloc: Global, words: &mut Words<'_>) -> Result<LibCall, CaseError> {
    let kind = kind(words)?;
    let source = words.handle()?;
    let session = words.session()?;
    let thread = words.thread()?;
    let message = Message {
        source,
        session,
        kind,
        body: words.body(alloc)?,
    };
    Ok(LibCall::Message(message, thread))
}

fn kind(words: &mut Words<'_>) -> Result<Kind, CaseError> {
    match words.word()? {
        "text" => Ok(Kind::Text),
        "response" => Ok(Kind::Response),
        "error" => Ok(Kind::Error),
        "lua" => Ok(Kind::Lua),
        _ => Err(CaseError::Form),
    }
}

/// `respond NUMBER values VALUES`, or `respond NUMBER error`.
fn respond(alloc: Global, words: &mut Words<'_>) -> Result<LibCall, CaseError> {
    let response = words.response()?;
    match words.word()? {
        "values" => Ok(LibCall::Respond(response, Some(words.body(alloc)?))),
        "error" => Ok(LibCall::Respond(response, None)),
        _ => Err(CaseError::Form),
    }
}
