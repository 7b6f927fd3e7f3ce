//! A history of the table's rows: what the launcher hears, and what it asks next. With ample memory no call answers want of it.

use crate::Launcher;
use message::{Answer, Body, Datum, Dest, Input, Message, Next, Request};
use sk_types::{Bytes, Handle, Kind, NoMemory, Session};
use std::alloc::Global;
use std::test::Fail;

/// What a message says.
#[derive(Clone, Copy)]
enum Says {
    Launch,
    LaunchOk,
    Error,
    Remove,
    Kill(i64),
    List,
}

/// What the launcher hears: a message, of this source and session, or an answer.
#[derive(Clone, Copy)]
enum Hears {
    From(u32, u64, Says),
    Found(u32),
    Missing,
    Yes,
    Done,
}

/// What it asks next.
#[derive(Clone, Copy)]
enum Asks {
    Nothing,
    Launch,
    Retire(u32),
    Mark(u32),
    Look(u32),
    Put(u32, Kind, u64),
    /// The Put of a Response to service 3, of this number.
    Number(i64),
    /// The Put of a list of so many services.
    List(usize),
}

/// Service 3 asks for the launches; service 5 has one killed, and asks for the list.
const HISTORY: [(Hears, Asks); 39] = [
    // a launch that fails has a line
    (Hears::From(3, 1, Says::Launch), Asks::Launch),
    (Hears::Missing, Asks::Put(1, Kind::Text, 0)),
    (Hears::Yes, Asks::Look(3)),
    (Hears::Found(3), Asks::Put(3, Kind::Error, 1)),
    (Hears::Yes, Asks::Nothing),
    // a start that fails is told
    (Hears::From(3, 1, Says::Launch), Asks::Launch),
    (Hears::Found(4), Asks::Nothing),
    (Hears::From(4, 9, Says::Error), Asks::Look(3)),
    (Hears::Found(3), Asks::Put(3, Kind::Error, 1)),
    (Hears::Yes, Asks::Nothing),
    // a kill is told to both
    (Hears::From(3, 1, Says::Launch), Asks::Launch),
    (Hears::Found(4), Asks::Nothing),
    (Hears::From(5, 9, Says::Kill(4)), Asks::Retire(4)),
    (Hears::Yes, Asks::Mark(4)),
    (Hears::Done, Asks::Look(3)),
    (Hears::Found(3), Asks::Put(3, Kind::Error, 1)),
    (Hears::Yes, Asks::Look(5)),
    (Hears::Found(5), Asks::Put(5, Kind::Response, 9)),
    (Hears::Yes, Asks::Nothing),
    // a removed service is not listed
    (Hears::From(3, 1, Says::Launch), Asks::Launch),
    (Hears::Found(4), Asks::Nothing),
    (Hears::From(4, 0, Says::Remove), Asks::Look(3)),
    (Hears::Found(3), Asks::Put(3, Kind::Response, 1)),
    (Hears::Yes, Asks::Nothing),
    (Hears::From(5, 9, Says::List), Asks::Look(5)),
    (Hears::Found(5), Asks::List(1)),
    (Hears::Yes, Asks::Nothing),
    // a launch is answered once, and its service is listed
    (Hears::From(3, 1, Says::Launch), Asks::Launch),
    (Hears::Found(4), Asks::Nothing),
    (Hears::From(4, 9, Says::LaunchOk), Asks::Look(3)),
    (Hears::Found(3), Asks::Number(4)),
    (Hears::Yes, Asks::Nothing),
    (Hears::From(4, 9, Says::LaunchOk), Asks::Nothing),
    (Hears::From(5, 9, Says::List), Asks::Look(5)),
    (Hears::Found(5), Asks::List(2)),
    (Hears::Yes, Asks::Nothing),
    // what it does not know fails
    (Hears::From(5, 9, Says::Kill(-1)), Asks::Look(5)),
    (Hears::Found(5), Asks::Put(5, Kind::Error, 9)),
    (Hears::Yes, Asks::Nothing),
];

fn text(alloc: Global, word: &[u8]) -> Result<Datum, NoMemory> {
    Ok(Datum::Text(Bytes::from_slice(alloc, word)?))
}

fn word_of(says: Says) -> &'static [u8] {
    match says {
        Says::Launch => b"LAUNCH".as_slice(),
        Says::LaunchOk => b"LAUNCHOK".as_slice(),
        Says::Error => b"ERROR".as_slice(),
        Says::Remove => b"REMOVE".as_slice(),
        Says::Kill(_) => b"KILL".as_slice(),
        Says::List => b"LIST".as_slice(),
    }
}

fn body_of(alloc: Global, says: Says) -> Result<Body, NoMemory> {
    let mut body = Body::new(alloc);
    body.push(text(alloc, word_of(says))?)?;
    match says {
        Says::Launch => {
            body.push(text(alloc, b"snlua".as_slice())?)?;
            body.push(text(alloc, b"pong".as_slice())?)?;
            body.push(Datum::Int(5))?;
        }
        Says::Remove => {
            body.push(Datum::Int(4))?;
            body.push(Datum::Bool(false))?;
        }
        Says::Kill(handle) => body.push(Datum::Int(handle))?,
        Says::LaunchOk | Says::Error | Says::List => {}
    }
    Ok(body)
}

fn input_of(alloc: Global, hears: Hears) -> Result<Input, NoMemory> {
    match hears {
        Hears::From(source, session, says) => Ok(Input::Message(Message {
            source: Handle(source),
            session: Session(session),
            kind: Kind::Lua,
            body: body_of(alloc, says)?,
        })),
        Hears::Found(handle) => Ok(Input::Answer(Answer::Found(Some(Handle(handle))))),
        Hears::Missing => Ok(Input::Answer(Answer::Found(None))),
        Hears::Yes => Ok(Input::Answer(Answer::Flag(true))),
        Hears::Done => Ok(Input::Answer(Answer::Done)),
    }
}

fn puts(put: &Message, asks: Asks) -> bool {
    match (asks, put.body.as_slice()) {
        (Asks::Put(_, kind, session), _) => put.kind == kind && put.session.0 == session,
        (Asks::Number(n), [Datum::Int(k)]) => put.kind == Kind::Response
            && put.session.0 == 1
            && *k == n,
        (Asks::List(n), [Datum::Table(pairs)]) => pairs.len() == n,
        _ => false,
    }
}

fn receiver(asks: Asks) -> u32 {
    match asks {
        Asks::Put(to, _, _) => to,
        Asks::Number(_) => 3,
        _ => 5,
    }
}

fn is_asked(next: &Next, asks: Asks) -> bool {
    match (next, asks) {
        (Next::Idle, Asks::Nothing) => true,
        (Next::Ask(Request::Launch(_, args)), Asks::Launch) => args.as_slice().len() == 1,
        (Next::Ask(Request::Retire(h)), Asks::Retire(n)) => h.0 == n,
        (Next::Ask(Request::Mark(h)), Asks::Mark(n)) => h.0 == n,
        (Next::Ask(Request::Look(Dest::Number(h))), Asks::Look(n)) => *h == n,
        (Next::Ask(Request::Put(to, put)), _) => to.0 == receiver(asks) && puts(put, asks),
        _ => false,
    }
}

/// Whether a launcher asks what the history says, step by step.
fn follows(alloc: Global, history: &[(Hears, Asks)]) -> Result<bool, NoMemory> {
    let mut launcher = Launcher::new(alloc, &Bytes::from_slice(alloc, b"main")?)?;
    for (hears, asks) in history {
        let next = launcher.goes_on(input_of(alloc, *hears)?)?;
        if !is_asked(&next, *asks) {
            return Ok(false);
        }
    }
    Ok(true)
}

#[test]
fn the_history_is_followed(rt: HostRuntime) -> Result<(), Fail> {
    let follows = follows(rt.alloc(), HISTORY.as_slice())?;
    assert!(rt; follows);
    Ok(())
}
