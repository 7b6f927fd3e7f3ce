ghost use Rattle.std.specs.Prelude.{◌≡◌, [], ◌∷◌, ◌++◌, None, IfOk, OnOk, OnErr, IsErr, true, false};
ghost use Rattle.std.specs.List.{list_any};
ghost use Rattle.std.specs.Option.{option_to_list};
ghost use Rattle.std.specs.Map.{lookup, remove_entry};
ghost use Rattle.session_table.specs.Keys.{is_thread};
ghost use Rattle.session_table.specs.Table.{held_of, is_held_as};
ghost use Rattle.service_library.specs.State.{Lib, new_lib, reply_of};
ghost use Rattle.service_library.specs.Rows.{Is, Steps, called, stopped, asks, gives, raises, runs, rests, next, next_failed, next_fork, wakes, why, blocked_for, values_of_wakeup};

use crate::words::{Doing, LibCall, LibStep, Reason, Resume, ThreadStop};
use message::{Body, Datum, Held, HeldList, Request};
use session_table::{Sessions, ThreadNo};
use sk_types::{Bytes, Handle, NoMemory, Session};
use std::alloc::Global;
use std::collections::{BTreeMap, VecDeque};
use std::marker::Model;

/// The library of one service. After want of memory it is spent, and answers want of memory from then on.
#[derive(Drop)]
pub struct Library {
    pub(crate) alloc: Global,
    pub(crate) own: Handle,
    pub(crate) sessions: Sessions,
    pub(crate) blocked: BTreeMap<ThreadNo, Reason>,
    pub(crate) failed: VecDeque<ThreadNo>,
    pub(crate) forks: VecDeque<ThreadNo>,
    pub(crate) chunk: Option<ThreadNo>,
    pub(crate) start: Option<ThreadNo>,
    pub(crate) dispatches: bool,
    pub(crate) running: ThreadNo,
    pub(crate) doing: Doing,
    spent: bool,
}

impl Model for Library {
    ghost use Rattle.service_library.specs.State.{Lib};
    ghost use Rattle.message.specs.contracts.datum.Datum as datum_contract;
    ghost use Rattle.std.specs.Coded.{codes};

    ghost Value = { Lib };

    ghost coded = { Prim.hlevel (codes, datum_contract.the_row.coded) };

    ghost view = { λ l. record { own = l.own; table = l.sessions; blocked = l.blocked.entries; failed = l.failed.items; forks = l.forks.items; chunk = l.chunk; start = l.start; dispatches = l.dispatches; running = l.running; doing = l.doing; spent = l.spent } };
}

impl Library {
    /// A new service, which has taken no message.
    pub fn new(alloc: Global, own: Handle) -> Library
        ensures { result ≡ new_lib own }
    {
        Library {
            alloc,
            own,
            sessions: Sessions::new(alloc),
            blocked: BTreeMap::new(alloc),
            failed: VecDeque::new(alloc),
            forks: VecDeque::new(alloc),
            chunk: None,
            start: None,
            dispatches: false,
            running: ThreadNo(0),
            doing: Doing::Quiet,
            spent: false,
        }
    }

    /// Goes on after a message, after the answer to the request that was asked, or with a call of the running thread.
    pub fn call(&mut self, call: LibCall) -> Result<LibStep, NoMemory>
        ensures ok { Steps result self.new (called self.old call) }
        ensures spends { OnErr result (self.new.spent ≡ true) }
        ensures spent { self.old.spent ≡ true → IsErr result }
    {
        if self.spent {
            return Err(NoMemory);
        }
        match self.dispatch_call(call) {
            Ok(step) => Ok(step),
            Err(_) => {
                self.spent = true;
                Err(NoMemory)
            }
        }
    }

    /// Goes on after the running thread has stopped.
    pub fn stopped(&mut self, stop: ThreadStop) -> Result<LibStep, NoMemory>
        ensures ok { Steps result self.new (stopped self.old stop) }
        ensures spends { OnErr result (self.new.spent ≡ true) }
        ensures spent { self.old.spent ≡ true → IsErr result }
    {
        if self.spent {
            return Err(NoMemory);
        }
        match self.thread_stopped(stop) {
            Ok(step) => Ok(step),
            Err(_) => {
                self.spent = true;
                Err(NoMemory)
            }
        }
    }

    /// Hands out the held requests, in the order taken. It takes no memory.
    pub fn held(&mut self) -> HeldList
        ensures held { result ≡ held_of self.old.table.taken }
        ensures after { self.new ≡ record self.old { table = record self.old.table { taken = record self.old.table.taken { held = [] } } } }
    {
        self.sessions.held()
    }

    /// Whether a request of this source and session is held.
    pub fn holds(&self, source: Handle, session: Session) -> bool
        ensures { result ≡ list_any (is_held_as source session) (held_of self.now.table.taken) }
    {
        self.sessions.holds(source, session)
    }

    /// The request whose answer is being sent.
    pub fn reply(&self) -> Option<Held>
        ensures { result ≡ reply_of self.now.doing }
    {
        match &self.doing {
            Doing::Replying(held, _, _, _) => Some(*held),
            Doing::Replied(held, _) => Some(*held),
            _ => None,
        }
    }

    /// The thread that runs, or ran last.
    pub fn running(&self) -> ThreadNo
        ensures { result ≡ self.now.running }
    {
        self.running
    }

    /// A request is asked, and what it is for is kept.
    pub(crate) fn asks(&mut self, request: Request, doing: Doing) -> LibStep
        ensures { Is result self.new (asks self.old request doing) }
    {
        self.doing = doing;
        LibStep::Ask(request)
    }

    /// The running thread goes on with these values.
    pub(crate) fn gives(&mut self, values: Body) -> LibStep
        ensures { Is result self.new (gives self.old values) }
    {
        self.doing = Doing::Quiet;
        LibStep::Resume(self.running, Resume::Values(values))
    }

    pub(crate) fn gives_one(&mut self, value: Datum) -> Result<LibStep, NoMemory>
        ensures { Steps result self.new (gives self.old (value ∷ [])) }
    {
        let values = one(self.alloc, value)?;
        Ok(self.gives(values))
    }

    pub(crate) fn gives_none(&mut self) -> LibStep
        ensures { Is result self.new (gives self.old []) }
    {
        let values = Body::new(self.alloc);
        self.gives(values)
    }

    /// The call of the running thread raises.
    pub(crate) fn raises(&mut self, text: &[u8]) -> Result<LibStep, NoMemory>
        ensures { Steps result self.new (raises self.old text.now) }
    {
        let text = Bytes::from_slice(self.alloc, text)?;
        self.doing = Doing::Quiet;
        Ok(LibStep::Raise(text))
    }

    /// A thread runs.
    pub(crate) fn runs(&mut self, thread: ThreadNo, how: Resume) -> LibStep
        ensures { Is result self.new (runs self.old thread how) }
    {
        self.running = thread;
        self.doing = Doing::Quiet;
        LibStep::Resume(thread, how)
    }

    /// The message is done.
    pub(crate) fn rests(&mut self) -> LibStep
        ensures { Is result self.new (rests self.old) }
    {
        self.doing = Doing::Quiet;
        LibStep::Idle
    }

    /// A thread suspends or ends: the first wakeup goes on, else the first failed call, else the first fork begins.
    pub(crate) fn next(&mut self) -> Result<LibStep, NoMemory>
        ensures { Steps result self.new (next self.old) }
    {
        match self.sessions.next_wakeup() {
            Some(thread) => self.wakes(thread),
            None => self.next_failed(),
        }
    }

    fn wakes(&mut self, thread: ThreadNo) -> Result<LibStep, NoMemory>
        ensures { Steps result self.new (wakes self.old thread) }
    {
        let why = self.blocked.remove(&thread);
        let values = wakeup_values(self.alloc, why)?;
        Ok(self.runs(thread, Resume::Values(values)))
    }

    fn next_failed(&mut self) -> Result<LibStep, NoMemory>
        ensures { Steps result self.new (next_failed self.old self.old.failed) }
    {
        match self.failed.pop_front() {
            Some(thread) => {
                let text = Bytes::from_slice(self.alloc, b"call failed")?;
                Ok(self.runs(thread, Resume::Fail(text)))
            }
            None => Ok(self.next_fork()),
        }
    }

    fn next_fork(&mut self) -> LibStep
        ensures { Is result self.new (next_fork self.old self.old.forks) }
    {
        match self.forks.pop_front() {
            Some(thread) => {
                let none = Body::new(self.alloc);
                self.runs(thread, Resume::Begin(none))
            }
            None => self.rests(),
        }
    }

    /// Keeps why a thread waits.
    pub(crate) fn blocks(&mut self, thread: ThreadNo, why: Reason) -> Result<(), NoMemory>
        ensures { OnOk result (self.new ≡ blocked_for self.old thread why) }
    {
        self.blocked.insert(thread, why)?;
        Ok(())
    }

    /// Why a thread waits.
    pub(crate) fn why(&self, thread: ThreadNo) -> Option<Reason>
        ensures { result ≡ why self.now thread }
    {
        self.blocked.get(&thread).copied()
    }
}

/// A body of one value.
pub(crate) fn one(alloc: Global, value: Datum) -> Result<Body, NoMemory>
    ensures { IfOk result (λ b. b ≡ value ∷ []) }
{
    let mut body = Body::new(alloc);
    body.push(value)?;
    Ok(body)
}

fn wakeup_values(alloc: Global, why: Option<Reason>) -> Result<Body, NoMemory>
    ensures { IfOk result (λ b. b ≡ values_of_wakeup why) }
{
    match why {
        Some(Reason::Sleep) => {
            let text = Bytes::from_slice(alloc, b"BREAK")?;
            one(alloc, Datum::Text(text))
        }
        _ => Ok(Body::new(alloc)),
    }
}
