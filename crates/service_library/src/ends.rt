ghost use Rattle.std.specs.Prelude.{◌≡◌, None, IfOk, OnOk, false, codes};
ghost use Rattle.std.specs.Option.{option_copied};
ghost use Rattle.service_library.specs.Rows.{Is, Steps, ends, leaves, asks, next, blocked_for, marks_own, waits, sleeps, calls, own_message, own_response, logs};

use crate::library::{Library, one};
use crate::words::{Doing, LibStep, Reason};
use message::{Answer, Body, Datum, Message, Request};
use service_exit::{Exit, Leave, to_logger};
use session_table::{SleepError, ThreadNo, Token};
use sk_types::{Bytes, Handle, Kind, NoMemory, Session};

impl Library {
    /// The service ends, or it kills another.
    pub(crate) fn ends(&mut self, exit: Exit) -> Result<LibStep, NoMemory>
        ensures { Steps result self.new (ends self.old exit) }
    {
        let leave = Leave::new(self.own, exit);
        self.leaves(leave, None, false)
    }

    pub(crate) fn leaves(
        &mut self,
        leave: Leave,
        last: Option<&Answer>,
        marked: bool,
    ) -> Result<LibStep, NoMemory>
        ensures { Steps result self.new (leaves self.old leave (option_copied last.entry) marked) }
    {
        let mut leave = leave;
        match leave.next(self.alloc, last)? {
            Some(request) => {
                let marked = marks_own(&request, self.own, marked);
                Ok(self.asks(request, Doing::Leaving(leave, marked)))
            }
            None => {
                if marked {
                    self.doing = Doing::Over;
                    return Ok(LibStep::Idle);
                }
                Ok(self.gives_none())
            }
        }
    }

    /// No session is left: the service ends as one whose budget is spent.
    pub(crate) fn out_of_sessions(&mut self) -> Result<LibStep, NoMemory>
        ensures { Steps result self.new (ends self.old (Exit.Limit (codes "budget spent"))) }
    {
        let text = Bytes::from_slice(self.alloc, b"budget spent")?;
        self.ends(Exit::Limit(text))
    }

    /// A thread waits for a session.
    pub(crate) fn waits(
        &mut self,
        session: Session,
        thread: ThreadNo,
        why: Reason,
    ) -> Result<(), NoMemory>
        ensures { OnOk result (self.new ≡ waits self.old session thread why) }
    {
        self.sessions.wait_for(session, thread)?;
        self.blocks(thread, why)?;
        Ok(())
    }

    /// The running thread waits for the answer to its call.
    pub(crate) fn calls(&mut self, session: Session) -> Result<LibStep, NoMemory>
        ensures { Steps result self.new (calls self.old session) }
    {
        self.waits(session, self.running, Reason::Call)?;
        self.next()
    }

    /// The running thread sleeps under a token, where nobody else does.
    pub(crate) fn sleeps(
        &mut self,
        session: Session,
        token: Token,
        why: Reason,
    ) -> Result<LibStep, NoMemory>
        ensures { Steps result self.new (sleeps self.old session token why) }
    {
        match self.sessions.sleeper(token, session, self.running) {
            Ok(()) => self.sleeps_on(why),
            Err(SleepError::Fault(_)) => self.raises(b"token already used"),
            Err(SleepError::Memory) => Err(NoMemory),
        }
    }

    fn sleeps_on(&mut self, why: Reason) -> Result<LibStep, NoMemory>
        ensures { Steps result self.new (next (blocked_for self.old self.old.running why)) }
    {
        self.blocks(self.running, why)?;
        self.next()
    }

    pub(crate) fn own_message(&self, session: Session, kind: Kind, body: Body) -> Message
        ensures { result ≡ own_message self.now session kind body }
    {
        Message {
            source: self.own,
            session,
            kind,
            body,
        }
    }

    /// What a timer brings, put at once.
    pub(crate) fn own_response(&self, session: Session) -> Request
        ensures { result ≡ own_response self.now session }
    {
        let message = Message {
            source: Handle(0),
            session,
            kind: Kind::Response,
            body: Body::new(self.alloc),
        };
        Request::Put(self.own, message)
    }

    /// A line for the logger, and then the thread or the next one goes on.
    pub(crate) fn logs(&mut self, text: Bytes, doing: Doing) -> Result<LibStep, NoMemory>
        ensures { Steps result self.new (asks self.old (logs self.old text) doing) }
    {
        let body = one(self.alloc, Datum::Text(text))?;
        let request = to_logger(self.own, body);
        Ok(self.asks(request, doing))
    }
}

/// Whether the Mark of the service itself was asked, once this request is asked.
fn marks_own(request: &Request, own: Handle, marked: bool) -> bool
    ensures { result ≡ marks_own own marked request.now }
{
    match request {
        Request::Mark(handle) => handle.0 == own.0,
        _ => marked,
    }
}
