//! Histories of calls: after each of them the sessions answer what plain lists answer.

use crate::{ResponseNo, Sessions, SleepError, TakeError, ThreadNo, Token};
use sk_types::{Handle, NoMemory, Session};
use std::alloc::Global;
use std::test::Fail;

/// A call of the sessions.
#[derive(Clone, Copy)]
enum Call {
    Draw,
    Wait {
        session: u64,
        thread: u64,
    },
    Answer(u64),
    Hold {
        thread: u64,
        source: u32,
        session: u64,
    },
    Ret(u64),
    End(u64),
    TakeOver(u64),
    Respond(u64),
    Sleep {
        token: i64,
        session: u64,
        thread: u64,
    },
    Wake(i64),
    NextWakeup,
}

/// What a call answers.
#[derive(Clone, Copy, Debug, PartialEq, Eq)]
enum Told {
    Nothing,
    Refused,
    Flag(bool),
    Number(u64),
    Owed(u32, u64),
}

#[derive(Clone, Copy, PartialEq, Eq)]
enum Owner {
    Thread(u64),
    Response(u64),
    Nobody,
}

/// A message that is to be answered; session 0 is a note.
#[derive(Clone, Copy)]
struct Debt {
    owner: Owner,
    source: u32,
    session: u64,
}

#[derive(Clone, Copy)]
struct Wait {
    session: u64,
    thread: u64,
    token: Option<i64>,
}

/// The same by lists that are looked through.
#[derive(Drop)]
struct Lists {
    last: u64,
    responses: u64,
    waits: Vec<Wait>,
    wakeups: Vec<u64>,
    debts: Vec<Debt>,
}

impl Lists {
    fn new(alloc: Global) -> Lists {
        Lists {
            last: 0,
            responses: 0,
            waits: Vec::new(alloc),
            wakeups: Vec::new(alloc),
            debts: Vec::new(alloc),
        }
    }

    fn answer(&mut self, session: u64) -> Told {
        match self.waits.iter().position(|wait| wait.session == session) {
            None => Told::Refused,
            Some(at) => Told::Number(self.waits.remove(at).thread),
        }
    }

    fn hold(&mut self, debt: Debt) -> Result<Told, NoMemory> {
        for kept in self.debts.iter_mut() {
            if kept.owner == debt.owner {
                kept.owner = Owner::Nobody;
            }
        }
        self.debts.push(debt)?;
        Ok(Told::Nothing)
    }

    fn end(&mut self, thread: u64) -> Told {
        for debt in self.debts.iter_mut() {
            if debt.owner == Owner::Thread(thread) {
                debt.owner = Owner::Nobody;
            }
        }
        Told::Nothing
    }

    fn settle(&mut self, owner: Owner) -> Told {
        match self.debts.iter().position(|debt| debt.owner == owner) {
            None => Told::Refused,
            Some(at) => {
                let debt = self.debts.remove(at);
                Told::Owed(debt.source, debt.session)
            }
        }
    }

    fn take_over(&mut self, thread: u64) -> Told {
        let response = self.responses;
        for debt in self.debts.iter_mut() {
            if debt.owner == Owner::Thread(thread) {
                debt.owner = Owner::Response(response);
                self.responses = response.wrapping_add(1);
            }
        }
        if self.responses == response {
            Told::Refused
        } else {
            Told::Number(response)
        }
    }

    fn sleep(&mut self, wait: Wait) -> Result<Told, NoMemory> {
        if self.waits.iter().any(|other| other.token == wait.token) {
            return Ok(Told::Refused);
        }
        self.waits.push(wait)?;
        Ok(Told::Nothing)
    }

    fn wake(&mut self, token: i64) -> Result<Told, NoMemory> {
        for wait in self.waits.iter() {
            if wait.token == Some(token) {
                self.wakeups.push(wait.session)?;
                return Ok(Told::Flag(true));
            }
        }
        Ok(Told::Flag(false))
    }

    fn next_wakeup(&mut self) -> Told {
        for _ in 0..self.wakeups.len() {
            if self.wakeups.is_empty() {
                return Told::Refused;
            }
            let session = self.wakeups.remove(0);
            let thread = self.answer(session);
            if thread != Told::Refused {
                return thread;
            }
        }
        Told::Refused
    }

    fn call(&mut self, call: Call) -> Result<Told, NoMemory> {
        match call {
            Call::Draw => {
                self.last = self.last.wrapping_add(1);
                Ok(Told::Number(self.last))
            }
            Call::Wait { session, thread } => {
                self.waits.push(Wait {
                    session,
                    thread,
                    token: None,
                })?;
                Ok(Told::Nothing)
            }
            Call::Answer(session) => Ok(self.answer(session)),
            Call::Hold {
                thread,
                source,
                session,
            } => self.hold(Debt {
                owner: Owner::Thread(thread),
                source,
                session,
            }),
            Call::Ret(thread) => Ok(self.settle(Owner::Thread(thread))),
            Call::End(thread) => Ok(self.end(thread)),
            Call::TakeOver(thread) => Ok(self.take_over(thread)),
            Call::Respond(response) => Ok(self.settle(Owner::Response(response))),
            Call::Sleep {
                token,
                session,
                thread,
            } => self.sleep(Wait {
                session,
                thread,
                token: Some(token),
            }),
            Call::Wake(token) => self.wake(token),
            Call::NextWakeup => Ok(self.next_wakeup()),
        }
    }
}

fn number(thread: Option<ThreadNo>) -> Told {
    match thread {
        None => Told::Refused,
        Some(thread) => Told::Number(thread.0),
    }
}

fn token_of(number: i64) -> Token {
    Token { kind: 2, number }
}

fn take_over(sessions: &mut Sessions, thread: u64) -> Result<Told, NoMemory> {
    match sessions.take_over(ThreadNo(thread)) {
        Ok(response) => Ok(Told::Number(response.0)),
        Err(TakeError::Fault(_)) => Ok(Told::Refused),
        Err(TakeError::Memory) => Err(NoMemory),
    }
}

fn sleep(sessions: &mut Sessions, token: i64, session: u64, thread: u64) -> Result<Told, NoMemory> {
    match sessions.sleeper(token_of(token), Session(session), ThreadNo(thread)) {
        Ok(()) => Ok(Told::Nothing),
        Err(SleepError::Fault(_)) => Ok(Told::Refused),
        Err(SleepError::Memory) => Err(NoMemory),
    }
}

fn tell(sessions: &mut Sessions, call: Call) -> Result<Told, NoMemory> {
    match call {
        Call::Draw => match sessions.draw() {
            None => Ok(Told::Refused),
            Some(session) => Ok(Told::Number(session.0)),
        },
        Call::Wait { session, thread } => {
            sessions.wait_for(Session(session), ThreadNo(thread))?;
            Ok(Told::Nothing)
        }
        Call::Answer(session) => Ok(number(sessions.answer(Session(session)))),
        Call::Hold {
            thread,
            source,
            session,
        } => {
            sessions.hold(ThreadNo(thread), Handle(source), Session(session))?;
            Ok(Told::Nothing)
        }
        Call::Ret(thread) => match sessions.ret(ThreadNo(thread)) {
            Ok(held) => Ok(Told::Owed(held.source.0, held.session.0)),
            Err(_) => Ok(Told::Refused),
        },
        Call::End(thread) => {
            sessions.end_thread(ThreadNo(thread));
            Ok(Told::Nothing)
        }
        Call::TakeOver(thread) => take_over(sessions, thread),
        Call::Respond(response) => match sessions.respond(ResponseNo(response)) {
            Some(held) => Ok(Told::Owed(held.source.0, held.session.0)),
            None => Ok(Told::Refused),
        },
        Call::Sleep {
            token,
            session,
            thread,
        } => sleep(sessions, token, session, thread),
        Call::Wake(token) => Ok(Told::Flag(sessions.wake(&token_of(token))?)),
        Call::NextWakeup => Ok(number(sessions.next_wakeup())),
    }
}

/// Both answer the same to each call of the history, and hold the same requests after it.
fn agree(alloc: Global, history: &[Call]) -> Result<bool, NoMemory> {
    let mut sessions = Sessions::new(alloc);
    let mut lists = Lists::new(alloc);
    for next in history.iter() {
        let told = tell(&mut sessions, *next)?;
        if told != lists.call(*next)? {
            return Ok(false);
        }
    }
    let held = sessions.held();
    let mut left = lists.debts.iter().filter(|debt| debt.session != 0);
    let same = held.as_slice().iter().all(|held| match left.next() {
        None => false,
        Some(debt) => debt.source == held.source.0 && debt.session == held.session.0,
    });
    Ok(same && left.next().is_none())
}

fn hold(thread: u64, source: u32, session: u64) -> Call {
    Call::Hold {
        thread,
        source,
        session,
    }
}

fn waits(session: u64, thread: u64) -> Call {
    Call::Wait { session, thread }
}

fn sleeps(token: i64, session: u64, thread: u64) -> Call {
    Call::Sleep {
        token,
        session,
        thread,
    }
}

#[test]
fn answers_come_in_any_order(rt: HostRuntime) -> Result<(), Fail> {
    let history = [
        Call::Draw,
        waits(1, 10),
        Call::Draw,
        waits(2, 11),
        Call::Draw,
        waits(3, 12),
        Call::Answer(2),
        Call::Answer(2),
        Call::Answer(4),
        Call::Answer(3),
        Call::Answer(1),
        Call::Answer(1),
        Call::Draw,
    ];
    assert!(rt; agree(rt.alloc(), &history)?);
    Ok(())
}

#[test]
fn each_request_is_settled_once(rt: HostRuntime) -> Result<(), Fail> {
    let history = [
        hold(1, 5, 7),
        hold(2, 5, 8),
        hold(3, 6, 7),
        Call::Ret(2),
        Call::Ret(2),
        Call::TakeOver(3),
        Call::Ret(3),
        Call::TakeOver(3),
        hold(2, 7, 1),
        Call::TakeOver(2),
        Call::Respond(1),
        Call::Respond(1),
        hold(4, 8, 2),
        Call::Respond(0),
        hold(3, 9, 9),
    ];
    assert!(rt; agree(rt.alloc(), &history)?);
    Ok(())
}

#[test]
fn a_note_is_answered_and_never_held(rt: HostRuntime) -> Result<(), Fail> {
    let history = [
        hold(1, 5, 0),
        hold(2, 6, 3),
        hold(3, 7, 0),
        Call::TakeOver(1),
        Call::Respond(0),
        Call::Respond(0),
        Call::Ret(1),
        hold(4, 8, 4),
    ];
    assert!(rt; agree(rt.alloc(), &history)?);
    Ok(())
}

#[test]
fn a_request_whose_thread_took_another_stays_held(rt: HostRuntime) -> Result<(), Fail> {
    let history = [
        hold(1, 5, 7),
        hold(1, 6, 8),
        Call::Ret(1),
        Call::Ret(1),
        hold(2, 7, 9),
        Call::End(2),
        Call::Ret(2),
        Call::TakeOver(2),
    ];
    assert!(rt; agree(rt.alloc(), &history)?);
    Ok(())
}

#[test]
fn sleepers_wake_in_the_order_of_the_wakeups(rt: HostRuntime) -> Result<(), Fail> {
    let history = [
        sleeps(-1, 1, 10),
        sleeps(4, 2, 11),
        sleeps(4, 3, 12),
        sleeps(9, 3, 12),
        Call::Wake(9),
        Call::Wake(-1),
        Call::Wake(4),
        Call::Wake(5),
        // this sleeper goes on by its timer, before its wakeup is served
        Call::Answer(1),
        Call::NextWakeup,
        Call::NextWakeup,
        Call::NextWakeup,
        Call::Wake(4),
        sleeps(4, 5, 11),
        Call::Wake(4),
        Call::Wake(4),
        Call::NextWakeup,
        Call::NextWakeup,
    ];
    assert!(rt; agree(rt.alloc(), &history)?);
    Ok(())
}

#[test]
fn calls_and_sleepers_do_not_mix(rt: HostRuntime) -> Result<(), Fail> {
    let history = [
        Call::Draw,
        waits(1, 10),
        Call::Draw,
        sleeps(1, 2, 11),
        hold(12, 4, 1),
        Call::Wake(1),
        Call::Answer(2),
        Call::NextWakeup,
        Call::Answer(1),
        Call::TakeOver(12),
        Call::Wake(1),
        Call::Respond(0),
    ];
    assert!(rt; agree(rt.alloc(), &history)?);
    Ok(())
}
