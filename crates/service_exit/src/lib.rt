//! What a service asks when it ends, and when it kills another: the requests, one after another.
//!
//! They are those of `skynet.exit` and `skynet.kill` (skynet.lua), and of a service whose script fails at its start.
#![tactic(auto)]

ghost use Rattle.std.specs.Prelude.{◌≡◌, IfOk, OnOk, OnErr};
ghost use Rattle.std.specs.Option.{option_copied};
ghost use Rattle.service_exit.specs.Endings.{ending, next_request, after_next, Asks, left, requests, ended, line, report, text_of_line, is_refusal, spares, first_stage, next_stage};
ghost use Rattle.service_exit.specs.Words.{to_logger, to_launcher, removal, failure};

use message::{Answer, Body, Datum, Message, Request};
use sk_types::{Bytes, Handle, Kind, NoMemory, Session};
use std::alloc::Global;

/// Why a service ends, or which one it kills.
#[derive(Drop)]
pub enum Exit {
    /// It asked for it.
    Own,
    /// A limit is reached; the text says which.
    Limit(Bytes),
    /// The chunk, or the function of `start`, raised this error.
    Raised(Bytes),
    /// Not itself, but the service of this handle.
    Kill(Handle),
}

/// Which request is next.
#[derive(Clone, Copy, Debug, PartialEq, Eq)]
pub enum Stage {
    /// The line for the logger.
    Line,
    /// The word to the launcher.
    Report,
    /// The handle is listed no more.
    Retire,
    /// Its inbox closes.
    Mark,
    /// None.
    Over,
}

/// The requests of one ending, and how many of them are asked.
#[derive(Drop)]
pub struct Leave {
    own: Handle,
    exit: Exit,
    stage: Stage,
}

impl Leave {
    /// The ending of the service `own`, or the end that it makes of another. It takes no memory.
    pub fn new(own: Handle, exit: Exit) -> Leave
        ensures ending { result ≡ ending own exit }
        ensures left { left result ≡ requests own exit }
    {
        let stage = match &exit {
            Exit::Own | Exit::Kill(_) => Stage::Report,
            Exit::Limit(_) | Exit::Raised(_) => Stage::Line,
        };
        Leave { own, exit, stage }
    }

    /// The next request, `last` being the answer to the one before it; none exactly where no further one follows.
    /// After want of memory all is as before.
    #[tactic(auto, using(crate::proofs::Order::asks_first))]
    pub fn next(
        &mut self,
        alloc: Global,
        last: Option<&Answer>,
    ) -> Result<Option<Request>, NoMemory>
        ensures request { IfOk result (λ r. r ≡ next_request self.old (option_copied last.entry)) }
        ensures order { IfOk result (λ r. Asks self.old (option_copied last.entry) r self.new) }
        ensures after { OnOk result (self.new ≡ after_next self.old) }
        ensures err { OnErr result (self.new ≡ self.old) }
    {
        let request = self.request(alloc, last)?;
        self.stage = next_stage(self.stage);
        Ok(request)
    }

    fn request(&self, alloc: Global, last: Option<&Answer>) -> Result<Option<Request>, NoMemory>
        ensures { IfOk result (λ r. r ≡ next_request self.now (option_copied last.entry)) }
    {
        match self.stage {
            Stage::Line => Ok(Some(self.line(alloc)?)),
            Stage::Report => Ok(Some(self.report(alloc)?)),
            Stage::Retire => Ok(Some(Request::Retire(self.ended()))),
            Stage::Mark => {
                if self.spares(last) {
                    return Ok(None);
                }
                Ok(Some(Request::Mark(self.ended())))
            }
            Stage::Over => Ok(None),
        }
    }

    /// The handle that ends.
    fn ended(&self) -> Handle
        ensures { result ≡ ended self.now.own self.now.exit }
    {
        match &self.exit {
            Exit::Kill(handle) => *handle,
            Exit::Own | Exit::Limit(_) | Exit::Raised(_) => self.own,
        }
    }

    /// The other service ended before.
    fn spares(&self, last: Option<&Answer>) -> bool
        ensures { result ≡ spares self.now.exit (option_copied last.entry) }
    {
        match &self.exit {
            Exit::Kill(_) => was_refused(last),
            Exit::Own | Exit::Limit(_) | Exit::Raised(_) => false,
        }
    }

    fn line(&self, alloc: Global) -> Result<Request, NoMemory>
        ensures { IfOk result (λ r. r ≡ line self.now.own self.now.exit) }
    {
        let text = self.text(alloc)?;
        let mut body = Body::new(alloc);
        body.push(Datum::Text(text))?;
        Ok(to_logger(self.own, body))
    }

    fn text(&self, alloc: Global) -> Result<Bytes, NoMemory>
        ensures { IfOk result (λ t. t ≡ text_of_line self.now.exit) }
    {
        match &self.exit {
            Exit::Limit(text) => Ok(text.copy(alloc)?),
            Exit::Raised(text) => {
                let mut out = Bytes::from_slice(alloc, b"init service failed: ")?;
                out.push_slice(text.as_slice())?;
                Ok(out)
            }
            Exit::Own | Exit::Kill(_) => Ok(Bytes::new(alloc)),
        }
    }

    fn report(&self, alloc: Global) -> Result<Request, NoMemory>
        ensures { IfOk result (λ r. r ≡ report self.now.own self.now.exit) }
    {
        match &self.exit {
            Exit::Own => Ok(removal(alloc, self.own, self.own, false)?),
            Exit::Limit(_) => Ok(removal(alloc, self.own, self.own, true)?),
            Exit::Raised(_) => Ok(failure(alloc, self.own)?),
            Exit::Kill(handle) => Ok(removal(alloc, self.own, *handle, true)?),
        }
    }
}

fn next_stage(stage: Stage) -> Stage
    ensures { result ≡ next_stage stage }
{
    match stage {
        Stage::Line => Stage::Report,
        Stage::Report => Stage::Retire,
        Stage::Retire => Stage::Mark,
        Stage::Mark | Stage::Over => Stage::Over,
    }
}

fn was_refused(last: Option<&Answer>) -> bool
    ensures { result ≡ is_refusal (option_copied last.entry) }
{
    match last {
        Some(Answer::Flag(flag)) => !*flag,
        _ => false,
    }
}

/// A line for the logger; the sender `own` is its source.
pub fn to_logger(own: Handle, body: Body) -> Request
    ensures { result ≡ to_logger own body }
{
    Request::Put(
        Handle(1),
        Message {
            source: own,
            session: Session(0),
            kind: Kind::Text,
            body,
        },
    )
}

/// A word to the launcher, which wants no answer.
pub fn to_launcher(own: Handle, body: Body) -> Request
    ensures { result ≡ to_launcher own body }
{
    Request::Put(
        Handle(2),
        Message {
            source: own,
            session: Session(0),
            kind: Kind::Lua,
            body,
        },
    )
}

fn removal(alloc: Global, own: Handle, ended: Handle, killed: bool) -> Result<Request, NoMemory>
    ensures { IfOk result (λ r. r ≡ removal own ended killed) }
{
    let name = Bytes::from_slice(alloc, b"REMOVE")?;
    let mut body = Body::new(alloc);
    body.push(Datum::Text(name))?;
    body.push(Datum::Int(i64::from(ended.0)))?;
    body.push(Datum::Bool(killed))?;
    Ok(to_launcher(own, body))
}

fn failure(alloc: Global, own: Handle) -> Result<Request, NoMemory>
    ensures { IfOk result (λ r. r ≡ failure own) }
{
    let name = Bytes::from_slice(alloc, b"ERROR")?;
    let mut body = Body::new(alloc);
    body.push(Datum::Text(name))?;
    Ok(to_launcher(own, body))
}
