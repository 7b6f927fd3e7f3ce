ghost use Rattle.std.specs.Prelude.{◌≡◌, [], None, Some, IsSome, IfOk, IfErr, OnOk, OnErr, is_some, not};
ghost use Rattle.std.specs.List.{list_any};
ghost use Rattle.session_table.specs.Table.{fresh, drawn, after_draw, waiter, with_waiter, without_waiter, without_sleeper, with_owed, owed, without_owed, without_thread, taken_over, answers, without_answer, held_of, is_held_as, sleeping, with_sleeper, woken, first_woken, wakeups_left, next_woken, after_wakeup, owes, answer_of, passed, is_take_fault, is_sleep_fault};

use crate::requests::Requests;
use crate::words::{
    NoSession, Owed, ResponseNo, SleepError, TakeError, ThreadNo, Token, TokenUsed, Waiter,
};
use message::{Held, HeldList};
use sk_types::{Handle, NoMemory, Session};
use std::alloc::Global;
use std::collections::{BTreeMap, VecDeque};
use std::marker::Model;

/// The sessions of one service. Contracts see its lists.
#[derive(Drop)]
pub struct Sessions {
    last: u64,
    responses: u64,
    waits: BTreeMap<Session, Waiter>,
    sleepers: BTreeMap<Token, Session>,
    wakeups: VecDeque<Session>,
    requests: Requests,
    threads: BTreeMap<ThreadNo, Owed>,
    functions: BTreeMap<ResponseNo, Owed>,
}

impl Model for Sessions {
    ghost use Rattle.std.specs.Prelude.{◌≤◌};
    ghost use Rattle.session_table.specs.Table.{Table, last_session};

    ghost Value = { Table };

    ghost view = { λ s. record { last = s.last; responses = s.responses; waits = s.waits.entries; sleepers = s.sleepers.entries; wakeups = s.wakeups.items; taken = s.requests; threads = s.threads.entries; functions = s.functions.entries } };

    ghost invariant = { λ s. s.last ≤ last_session };
}

/// Takes out the first wakeup whose sleeper has not gone on, and those before it.
fn take_woken(wakeups: &mut VecDeque<Session>, waits: &BTreeMap<Session, Waiter>) -> Option<Session>
    ensures first { result ≡ first_woken wakeups.old.items waits.now.entries }
    ensures left { wakeups.new.items ≡ wakeups_left wakeups.old.items waits.now.entries }
{
    'wakeups: while let Some(session) = wakeups.pop_front() {
        if waits.contains_key(&session) {
            return Some(session);
        }
    }
    None
}

impl Sessions {
    /// No session is drawn, and nothing waits.
    pub fn new(alloc: Global) -> Sessions
        ensures { result ≡ fresh }
    {
        Sessions {
            last: 0,
            responses: 0,
            waits: BTreeMap::new(alloc),
            sleepers: BTreeMap::new(alloc),
            wakeups: VecDeque::new(alloc),
            requests: Requests::new(alloc),
            threads: BTreeMap::new(alloc),
            functions: BTreeMap::new(alloc),
        }
    }

    /// Draws the next session; none exactly where the last one drawn was the greatest.
    pub fn draw(&mut self) -> Option<Session>
        ensures drawn { result ≡ drawn self.old }
        ensures after { self.new ≡ after_draw self.old }
        ensures same { result ≡ None → self.new ≡ self.old }
    {
        if self.last == 9223372036854775807 {
            return None;
        }
        self.last += 1;
        Some(Session(self.last))
    }

    /// Lets a thread wait for a session.
    pub fn wait_for(&mut self, session: Session, thread: ThreadNo) -> Result<(), NoMemory>
        ensures ok { OnOk result (self.new ≡ with_waiter self.old session (record { thread = thread; token = None })) }
        ensures err { OnErr result (self.new ≡ self.old) }
    {
        let waiter = Waiter {
            thread,
            token: None,
        };
        self.waits.insert(session, waiter)?;
        Ok(())
    }

    /// The thread that waits for a session goes on; none exactly where nothing waits for it.
    pub fn answer(&mut self, session: Session) -> Option<ThreadNo>
        ensures thread { result ≡ waiter self.old session }
        ensures after { self.new ≡ without_waiter self.old session }
        ensures same { result ≡ None → self.new ≡ self.old }
    {
        match self.waits.remove(&session) {
            None => None,
            Some(waiter) => {
                self.wakes_up(waiter.token);
                Some(waiter.thread)
            }
        }
    }

    /// Nobody sleeps under the token any more.
    fn wakes_up(&mut self, token: Option<Token>)
        ensures { self.new ≡ without_sleeper self.old token }
    {
        if let Some(token) = token {
            let _ = self.sleepers.remove(&token);
        }
    }

    /// The thread that waits for a session.
    pub fn waiter(&self, session: Session) -> Option<ThreadNo>
        ensures { result ≡ waiter self.now session }
    {
        match self.waits.get(&session) {
            None => None,
            Some(waiter) => Some(waiter.thread),
        }
    }

    /// A thread is to answer a message. One with session 0 is only noted.
    pub fn hold(
        &mut self,
        thread: ThreadNo,
        source: Handle,
        session: Session,
    ) -> Result<(), NoMemory>
        ensures ok { OnOk result (self.new ≡ with_owed self.old thread (record { source = source; session = session })) }
        ensures err { OnErr result (self.new ≡ self.old) }
    {
        if session.0 == 0 {
            self.threads.insert(thread, Owed::Note(source))?;
            return Ok(());
        }
        let held = Held { source, session };
        self.requests.take_for(&mut self.threads, thread, held)?;
        Ok(())
    }

    /// What a thread is to answer, which is taken from it.
    pub fn ret(&mut self, thread: ThreadNo) -> Result<Held, NoSession>
        ensures ok { IfOk result (λ held. owed self.old thread ≡ Some held) }
        ensures err { OnErr result (owed self.old thread ≡ None) }
        ensures after { self.new ≡ without_owed self.old thread }
        ensures same { OnErr result (self.new ≡ self.old) }
    {
        match self.owes(thread) {
            None => Err(NoSession),
            Some((owed, held)) => {
                let _ = self.threads.remove(&thread);
                self.requests.drop_owed(owed);
                Ok(held)
            }
        }
    }

    fn owes(&self, thread: ThreadNo) -> Option<(Owed, Held)>
        ensures { result ≡ owes self.now thread }
    {
        match self.threads.get(&thread) {
            None => None,
            Some(owed) => match self.requests.held_by(*owed) {
                None => None,
                Some(held) => Some((*owed, held)),
            },
        }
    }

    /// A thread ends, and owes nothing more. A request that it took stays held.
    pub fn end_thread(&mut self, ended: ThreadNo)
        ensures { self.new ≡ without_thread self.old ended }
    {
        let _ = self.threads.remove(&ended);
    }

    /// What a thread is to answer passes to a new response function. A request stays held.
    pub fn take_over(&mut self, thread: ThreadNo) -> Result<ResponseNo, TakeError>
        ensures ok { IfOk result (λ response. response.0 ≡ self.old.responses) }
        ensures owed { OnOk result (IsSome (owed self.old thread)) }
        ensures after { OnOk result (self.new ≡ taken_over self.old thread) }
        ensures none { IfErr result (λ e. is_take_fault e ≡ not (is_some (owed self.old thread))) }
        ensures err { OnErr result (self.new ≡ self.old) }
    {
        match self.owes(thread) {
            None => Err(TakeError::Fault(NoSession)),
            Some((owed, _)) => match self.pass(thread, owed) {
                Ok(response) => Ok(response),
                Err(_) => Err(TakeError::Memory),
            },
        }
    }

    fn pass(&mut self, thread: ThreadNo, owed: Owed) -> Result<ResponseNo, NoMemory>
        ensures ok { IfOk result (λ response. response.0 ≡ self.old.responses) }
        ensures after { OnOk result (self.new ≡ passed self.old thread owed) }
        ensures err { OnErr result (self.new ≡ self.old) }
    {
        if self.responses == u64::MAX {
            return Err(NoMemory);
        }
        let response = ResponseNo(self.responses);
        self.functions.insert(response, owed)?;
        let _ = self.threads.remove(&thread);
        self.responses += 1;
        Ok(response)
    }

    /// What a response function is to answer; none where it was used before.
    pub fn respond(&mut self, response: ResponseNo) -> Option<Held>
        ensures held { result ≡ answer_of self.old response }
        ensures after { self.new ≡ without_answer self.old response }
        ensures same { result ≡ None → self.new ≡ self.old }
    {
        match self.answers(response) {
            None => None,
            Some((owed, held)) => {
                let _ = self.functions.remove(&response);
                self.requests.drop_owed(owed);
                Some(held)
            }
        }
    }

    fn answers(&self, response: ResponseNo) -> Option<(Owed, Held)>
        ensures { result ≡ answers self.now response }
    {
        match self.functions.get(&response) {
            None => None,
            Some(owed) => match self.requests.held_by(*owed) {
                None => None,
                Some(held) => Some((*owed, held)),
            },
        }
    }

    /// Whether a response function was given and has not been used.
    pub fn unused(&self, response: ResponseNo) -> bool
        ensures { result ≡ is_some (answer_of self.now response) }
    {
        match self.answers(response) {
            None => false,
            Some(_) => true,
        }
    }

    /// Hands out the held requests, in the order taken. It takes no memory.
    pub fn held(&mut self) -> HeldList
        ensures held { result ≡ held_of self.old.taken }
        ensures after { self.new ≡ record self.old { taken = record self.old.taken { held = [] } } }
    {
        self.requests.hand_out()
    }

    /// Whether a request of this source and session is held.
    pub fn holds(&self, source: Handle, session: Session) -> bool
        ensures { result ≡ list_any (is_held_as source session) (held_of self.now.taken) }
    {
        self.requests.holds(source, session)
    }

    /// Lets a thread sleep under a token, and wait for a session.
    pub fn sleeper(
        &mut self,
        token: Token,
        session: Session,
        thread: ThreadNo,
    ) -> Result<(), SleepError>
        ensures free { OnOk result (sleeping self.old token ≡ None) }
        ensures used { IfErr result (λ e. is_sleep_fault e ≡ is_some (sleeping self.old token)) }
        ensures ok { OnOk result (self.new ≡ with_sleeper self.old token session thread) }
        ensures err { OnErr result (self.new ≡ self.old) }
    {
        if self.sleepers.contains_key(&token) {
            return Err(SleepError::Fault(TokenUsed));
        }
        match self.sleep(token, session, thread) {
            Ok(()) => Ok(()),
            Err(_) => Err(SleepError::Memory),
        }
    }

    fn sleep(&mut self, token: Token, session: Session, thread: ThreadNo) -> Result<(), NoMemory>
        requires { sleeping self.old token ≡ None }
        ensures ok { OnOk result (self.new ≡ with_sleeper self.old token session thread) }
        ensures err { OnErr result (self.new ≡ self.old) }
    {
        let waiter = Waiter {
            thread,
            token: Some(token),
        };
        self.sleepers.insert(token, session)?;
        match self.waits.insert(session, waiter) {
            Ok(_) => Ok(()),
            Err(_) => {
                let _ = self.sleepers.remove(&token);
                Err(NoMemory)
            }
        }
    }

    /// The sleeper under a token joins the wakeups; false exactly where there is none.
    pub fn wake(&mut self, token: &Token) -> Result<bool, NoMemory>
        ensures found { IfOk result (λ found. found ≡ is_some (sleeping self.old token.now)) }
        ensures ok { OnOk result (self.new ≡ woken self.old token.now) }
        ensures err { OnErr result (self.new ≡ self.old) }
    {
        match self.sleepers.get(token) {
            None => Ok(false),
            Some(session) => {
                let session = *session;
                self.wakeups.push_back(session)?;
                Ok(true)
            }
        }
    }

    /// The first wakeup whose sleeper has not gone on: its thread goes on, and the wakeups before it are dropped.
    pub fn next_wakeup(&mut self) -> Option<ThreadNo>
        ensures thread { result ≡ next_woken self.old }
        ensures after { self.new ≡ after_wakeup self.old }
    {
        match take_woken(&mut self.wakeups, &self.waits) {
            None => None,
            Some(session) => self.answer(session),
        }
    }
}
