ghost use Rattle.std.specs.Prelude.{◌≡◌, Some, IfOk, OnOk};
ghost use Rattle.service_library.specs.Rows.{Is, Steps, stopped, thread_raises, fails, arrives, text_arrives, response_arrives, error_arrives, call_fails, lua_arrives, brings, why, joins_failed, is_that};

use crate::library::{Library, one};
use crate::words::{AfterReply, Doing, LibStep, Reason, Resume, ThreadStop};
use message::{Body, Datum, Held, Message};
use service_exit::{Exit, to_launcher};
use session_table::ThreadNo;
use sk_types::{Bytes, Kind, NoMemory, Session};

impl Library {
    /// A message goes by its kind.
    pub(crate) fn arrives(
        &mut self,
        message: Message,
        thread: ThreadNo,
    ) -> Result<LibStep, NoMemory>
        ensures { Steps result self.new (arrives self.old message thread) }
    {
        match message.kind {
            Kind::Text => Ok(self.text_arrives(message.body, thread)),
            Kind::Response => Ok(self.response_arrives(message.session, message.body)),
            Kind::Error => self.error_arrives(message.session),
            Kind::Lua => self.lua_arrives(message, thread),
        }
    }

    /// The init message runs the script's chunk; any other text is dropped.
    fn text_arrives(&mut self, body: Body, thread: ThreadNo) -> LibStep
        ensures { Is result self.new (text_arrives self.old body thread) }
    {
        if self.chunk.is_some() {
            return self.rests();
        }
        self.chunk = Some(thread);
        self.runs(thread, Resume::Begin(body))
    }

    fn response_arrives(&mut self, session: Session, body: Body) -> LibStep
        ensures { Is result self.new (response_arrives self.old session body) }
    {
        match self.sessions.answer(session) {
            None => self.rests(),
            Some(thread) => self.brings(thread, body),
        }
    }

    /// A thread goes on with what its session brought.
    fn brings(&mut self, thread: ThreadNo, body: Body) -> LibStep
        ensures { Is result self.new (brings self.old thread (why self.old thread) body) }
    {
        match self.blocked.remove(&thread) {
            Some(Reason::Call) => self.runs(thread, Resume::Unpack(body)),
            Some(Reason::Begin) => {
                let none = Body::new(self.alloc);
                self.runs(thread, Resume::Begin(none))
            }
            _ => {
                let none = Body::new(self.alloc);
                self.runs(thread, Resume::Values(none))
            }
        }
    }

    fn error_arrives(&mut self, session: Session) -> Result<LibStep, NoMemory>
        ensures { Steps result self.new (error_arrives self.old session) }
    {
        match self.sessions.waiter(session) {
            None => Ok(self.rests()),
            Some(thread) => self.error_reaches(session, thread),
        }
    }

    /// An Error of no open call is dropped.
    fn error_reaches(&mut self, session: Session, thread: ThreadNo) -> Result<LibStep, NoMemory>
        ensures { Steps result self.new (call_fails self.old session thread (why self.old thread)) }
    {
        match self.why(thread) {
            Some(Reason::Call) => self.call_fails(session, thread),
            _ => Ok(self.rests()),
        }
    }

    fn call_fails(&mut self, session: Session, thread: ThreadNo) -> Result<LibStep, NoMemory>
        ensures { Steps result self.new (call_fails self.old session thread (Some Reason.Call)) }
    {
        self.joins_failed(session, thread)?;
        self.next()
    }

    /// An open call joins the failed ones, and waits no more.
    fn joins_failed(&mut self, session: Session, thread: ThreadNo) -> Result<(), NoMemory>
        ensures { OnOk result (self.new ≡ joins_failed self.old session thread) }
    {
        self.failed.push_back(thread)?;
        let _ = self.sessions.answer(session);
        let _ = self.blocked.remove(&thread);
        Ok(())
    }

    /// A message for the dispatch function; where none is set, a request gets an Error.
    fn lua_arrives(&mut self, message: Message, thread: ThreadNo) -> Result<LibStep, NoMemory>
        ensures { Steps result self.new (lua_arrives self.old message thread) }
    {
        if self.dispatches {
            self.sessions.hold(thread, message.source, message.session)?;
            let how = Resume::Dispatch(message.source, message.session, message.body);
            return Ok(self.runs(thread, how));
        }
        if message.session.0 == 0 {
            return Ok(self.rests());
        }
        let none = Body::new(self.alloc);
        Ok(self.replies(message.held_of(), Kind::Error, none, AfterReply::Rest))
    }

    pub(crate) fn thread_stopped(&mut self, stop: ThreadStop) -> Result<LibStep, NoMemory>
        ensures { Steps result self.new (stopped self.old stop) }
    {
        match stop {
            ThreadStop::Return => self.returned(),
            ThreadStop::Raise(text) => self.raised(text),
            ThreadStop::Limit(text) => self.ends(Exit::Limit(text)),
        }
    }

    /// The launcher is told where the function of `start` has returned.
    fn returned(&mut self) -> Result<LibStep, NoMemory>
        ensures { Steps result self.new (stopped self.old ThreadStop.Return) }
    {
        self.sessions.end_thread(self.running);
        if is_that(self.start, self.running) {
            let text = Bytes::from_slice(self.alloc, b"LAUNCHOK")?;
            let body = one(self.alloc, Datum::Text(text))?;
            let request = to_launcher(self.own, body);
            return Ok(self.asks(request, Doing::Told));
        }
        self.next()
    }

    fn raised(&mut self, text: Bytes) -> Result<LibStep, NoMemory>
        ensures { Steps result self.new (stopped self.old (ThreadStop.Raise text)) }
    {
        let in_start = is_that(self.start, self.running);
        let in_chunk = is_that(self.chunk, self.running);
        if in_start || in_chunk {
            return self.ends(Exit::Raised(text));
        }
        self.thread_raises(text)
    }

    fn thread_raises(&mut self, text: Bytes) -> Result<LibStep, NoMemory>
        ensures { Steps result self.new (thread_raises self.old text) }
    {
        match self.sessions.ret(self.running) {
            Err(_) => self.logs(text, Doing::Told),
            Ok(held) => self.fails(text, held),
        }
    }

    /// The caller of a request that the thread was to answer gets an Error before the error is logged.
    fn fails(&mut self, text: Bytes, held: Held) -> Result<LibStep, NoMemory>
        ensures { Steps result self.new (fails self.old text held) }
    {
        if held.session.0 == 0 {
            return self.logs(text, Doing::Told);
        }
        let none = Body::new(self.alloc);
        Ok(self.replies(held, Kind::Error, none, AfterReply::Log(text)))
    }
}

fn is_that(of: Option<ThreadNo>, thread: ThreadNo) -> bool
    ensures { result ≡ is_that of thread }
{
    match of {
        None => false,
        Some(own) => own.0 == thread.0,
    }
}
