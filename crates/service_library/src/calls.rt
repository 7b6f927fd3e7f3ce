ghost use Rattle.std.specs.Prelude.{◌≡◌, IfOk, OnOk, false, pos, ◌≤ℤ◌, List, ◌++◌};
ghost use Rattle.service_library.specs.Rows.{Is, Steps, called, alarm, launch, answers_held, replies, handle_of, kills};

use crate::library::Library;
use crate::words::{AfterReply, Doing, LibCall, LibStep, Reason, Resume};
use message::{Body, Datum, Dest, Held, Request};
use service_exit::Exit;
use session_table::{ResponseNo, TakeError, ThreadNo, Token};
use sk_types::{Bytes, Handle, Kind, NoMemory, Session};
use std::alloc::Global;

/// A timer takes at most so many ticks.
const MOST_TICKS: i64 = 2147483647;

impl Library {
    pub(crate) fn dispatch_call(&mut self, call: LibCall) -> Result<LibStep, NoMemory>
        ensures { Steps result self.new (called self.old call) }
    {
        match call {
            LibCall::Message(message, thread) => self.arrives(message, thread),
            LibCall::Answer(answer) => self.answered(answer),
            LibCall::Start(thread) => self.start(thread),
            LibCall::Dispatch => Ok(self.dispatch()),
            LibCall::Send(to, body) => Ok(self.asks(Request::Look(to), Doing::Sending(body))),
            LibCall::Call(to, body) => self.call_to(to, body),
            LibCall::Ret(body) => self.ret(body),
            LibCall::Response => self.response(),
            LibCall::Respond(response, given) => self.respond(response, given),
            LibCall::Unused(response) => self.unused(response),
            LibCall::Fork(thread) => self.fork(thread),
            LibCall::Timeout(ticks, thread) => self.timeout(ticks, thread),
            LibCall::Sleep(ticks, token) => self.sleep(ticks, token),
            LibCall::Wait(token) => self.wait(token),
            LibCall::Wakeup(token) => self.wakeup(token),
            LibCall::Now => Ok(self.asks(Request::Now, Doing::Asking)),
            LibCall::LocalName(name) => Ok(self.asks(
                Request::Look(Dest::Name(name)),
                Doing::Finding,
            )),
            LibCall::Name(name, number) => Ok(self.name(name, number)),
            LibCall::NewService(name, args) => self.new_service(name, args),
            LibCall::Kill(to, text) => self.kills(to, text),
            LibCall::Exit => self.ends(Exit::Own),
            LibCall::Log(text) => self.logs(text, Doing::Given),
        }
    }

    fn start(&mut self, thread: ThreadNo) -> Result<LibStep, NoMemory>
        ensures { Steps result self.new (called self.old (LibCall.Start thread)) }
    {
        if self.start.is_some() {
            return self.raises(b"already started");
        }
        match self.sessions.draw() {
            None => self.out_of_sessions(),
            Some(session) => {
                self.waits(session, thread, Reason::Begin)?;
                self.start = Some(thread);
                let request = self.own_response(session);
                Ok(self.asks(request, Doing::Given))
            }
        }
    }

    fn dispatch(&mut self) -> LibStep
        ensures { Is result self.new (called self.old LibCall.Dispatch) }
    {
        self.dispatches = true;
        self.gives_none()
    }

    fn call_to(&mut self, to: Dest, body: Body) -> Result<LibStep, NoMemory>
        ensures { Steps result self.new (called self.old (LibCall.Call to body)) }
    {
        match self.sessions.draw() {
            None => self.out_of_sessions(),
            Some(session) => Ok(self.asks(Request::Look(to), Doing::Calling(session, body))),
        }
    }

    fn ret(&mut self, body: Body) -> Result<LibStep, NoMemory>
        ensures { Steps result self.new (called self.old (LibCall.Ret body)) }
    {
        match self.sessions.ret(self.running) {
            Ok(held) => self.answers_held(held, Kind::Response, body),
            Err(_) => self.raises(b"no session"),
        }
    }

    /// What is owed is answered; a message that wanted no answer gets none.
    fn answers_held(&mut self, held: Held, kind: Kind, body: Body) -> Result<LibStep, NoMemory>
        ensures { Steps result self.new (answers_held self.old held kind body) }
    {
        if held.session.0 == 0 {
            return self.gives_one(Datum::Bool(false));
        }
        Ok(self.replies(held, kind, body, AfterReply::GoOn))
    }

    /// The caller is looked up, and then the reply is put.
    pub(crate) fn replies(
        &mut self,
        held: Held,
        kind: Kind,
        body: Body,
        after: AfterReply,
    ) -> LibStep
        ensures { Is result self.new (replies self.old held kind body after) }
    {
        self.asks(
            Request::Look(Dest::Number(held.source.0)),
            Doing::Replying(held, kind, body, after),
        )
    }

    fn response(&mut self) -> Result<LibStep, NoMemory>
        ensures { Steps result self.new (called self.old LibCall.Response) }
    {
        match self.sessions.take_over(self.running) {
            Ok(response) => {
                self.doing = Doing::Quiet;
                Ok(LibStep::Resume(self.running, Resume::Response(response)))
            }
            Err(TakeError::Fault(_)) => self.raises(b"no session"),
            Err(TakeError::Memory) => Err(NoMemory),
        }
    }

    fn respond(&mut self, response: ResponseNo, given: Option<Body>) -> Result<LibStep, NoMemory>
        ensures { Steps result self.new (called self.old (LibCall.Respond response given)) }
    {
        match self.sessions.respond(response) {
            None => self.raises(b"response already used"),
            Some(held) => match given {
                None => {
                    let none = Body::new(self.alloc);
                    self.answers_held(held, Kind::Error, none)
                }
                Some(body) => self.answers_held(held, Kind::Response, body),
            },
        }
    }

    fn unused(&mut self, response: ResponseNo) -> Result<LibStep, NoMemory>
        ensures { Steps result self.new (called self.old (LibCall.Unused response)) }
    {
        let unused = self.sessions.unused(response);
        self.gives_one(Datum::Bool(unused))
    }

    fn fork(&mut self, thread: ThreadNo) -> Result<LibStep, NoMemory>
        ensures { Steps result self.new (called self.old (LibCall.Fork thread)) }
    {
        self.forks.push_back(thread)?;
        Ok(self.gives_none())
    }

    fn timeout(&mut self, ticks: i64, thread: ThreadNo) -> Result<LibStep, NoMemory>
        ensures { Steps result self.new (called self.old (LibCall.Timeout ticks thread)) }
    {
        if ticks > MOST_TICKS {
            return self.raises(b"timeout out of range");
        }
        match self.sessions.draw() {
            None => self.out_of_sessions(),
            Some(session) => {
                self.waits(session, thread, Reason::Begin)?;
                let request = self.alarm(ticks, session);
                Ok(self.asks(request, Doing::Given))
            }
        }
    }

    fn sleep(&mut self, ticks: i64, token: Token) -> Result<LibStep, NoMemory>
        ensures { Steps result self.new (called self.old (LibCall.Sleep ticks token)) }
    {
        if ticks > MOST_TICKS {
            return self.raises(b"timeout out of range");
        }
        match self.sessions.draw() {
            None => self.out_of_sessions(),
            Some(session) => {
                let request = self.alarm(ticks, session);
                Ok(self.asks(request, Doing::Sleeping(session, token)))
            }
        }
    }

    /// What brings a session after some ticks.
    fn alarm(&self, ticks: i64, session: Session) -> Request
        requires { ticks ≤ℤ pos 2147483647 }
        ensures { result ≡ alarm self.now ticks session }
    {
        if ticks <= 0 {
            return self.own_response(session);
        }
        Request::Later(ticks as u32, session)
    }

    fn wait(&mut self, token: Token) -> Result<LibStep, NoMemory>
        ensures { Steps result self.new (called self.old (LibCall.Wait token)) }
    {
        match self.sessions.draw() {
            None => self.out_of_sessions(),
            Some(session) => self.sleeps(session, token, Reason::Wait),
        }
    }

    fn wakeup(&mut self, token: Token) -> Result<LibStep, NoMemory>
        ensures { Steps result self.new (called self.old (LibCall.Wakeup token)) }
    {
        if self.sessions.wake(&token)? {
            return self.gives_one(Datum::Bool(true));
        }
        Ok(self.gives_none())
    }

    fn name(&mut self, name: Bytes, number: i64) -> LibStep
        ensures { Is result self.new (called self.old (LibCall.Name name number)) }
    {
        let handle = Handle(handle_number(number));
        self.asks(Request::Name(name, handle), Doing::Naming)
    }

    fn new_service(&mut self, name: Bytes, args: Body) -> Result<LibStep, NoMemory>
        ensures { Steps result self.new (called self.old (LibCall.NewService name args)) }
    {
        match self.sessions.draw() {
            None => self.out_of_sessions(),
            Some(session) => {
                let body = launch_body(self.alloc, name, &args)?;
                let message = self.own_message(session, Kind::Lua, body);
                Ok(self.asks(Request::Put(Handle(2), message), Doing::Called(session)))
            }
        }
    }

    /// A service that is named by a text is looked up first.
    fn kills(&mut self, to: Dest, text: bool) -> Result<LibStep, NoMemory>
        ensures { Steps result self.new (kills self.old to text) }
    {
        match to {
            Dest::Number(number) => {
                if text {
                    return Ok(self.asks(Request::Look(Dest::Number(number)), Doing::Seeking));
                }
                self.ends(Exit::Kill(Handle(number)))
            }
            Dest::Name(name) => Ok(self.asks(Request::Look(Dest::Name(name)), Doing::Seeking)),
        }
    }
}

/// The handle that an integer names; 0, which no service has, where it is out of range.
fn handle_number(number: i64) -> u32
    ensures { result ≡ handle_of number }
{
    match u32::try_from(number) {
        Ok(handle) => handle,
        Err(_) => 0,
    }
}

/// What the launcher is asked.
fn launch_body(alloc: Global, name: Bytes, args: &Body) -> Result<Body, NoMemory>
    ensures { IfOk result (λ b. b ≡ launch name args.now) }
{
    let mut body = Body::new(alloc);
    body.push(Datum::Text(Bytes::from_slice(alloc, b"LAUNCH")?))?;
    body.push(Datum::Text(Bytes::from_slice(alloc, b"snlua")?))?;
    body.push(Datum::Text(name))?;
    add_copies(alloc, &mut body, args.as_slice())?;
    Ok(body)
}

fn add_copies(alloc: Global, body: &mut Body, values: &[Datum]) -> Result<(), NoMemory>
    ensures { OnOk result (body.new ≡ body.old ++ values.now) }
{
    for datum in values {
        body.push(datum.copy(alloc)?)?;
    }
    Ok(())
}
