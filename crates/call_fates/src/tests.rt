//! The list of calls, by hand.

use crate::{CallKey, CallState, Calls, Fate};
use message::{Body, Held, Message, Waiting};
use sk_types::{Handle, Kind, NoMemory, Session};
use std::alloc::Global;
use std::test::Fail;

fn key(caller: u32, session: u64) -> CallKey {
    CallKey {
        caller: Handle(caller),
        session: Session(session),
    }
}

fn held(caller: u32, session: u64) -> Held {
    Held {
        source: Handle(caller),
        session: Session(session),
    }
}

/// Calls 1 and 2 of service 3 and call 1 of service 4, all to service 5.
fn three(alloc: Global) -> Result<Calls, NoMemory> {
    let mut calls = Calls::new(alloc);
    for (caller, session) in [(3u32, 1u64), (4, 1), (3, 2)] {
        let key = key(caller, session);
        if calls.get(key).is_none() {
            calls.add(key, Handle(5))?;
        }
    }
    Ok(calls)
}

fn fate(calls: &Calls, caller: u32, session: u64) -> Option<Fate> {
    match calls.get(key(caller, session)) {
        Some(CallState { fate, .. }) => Some(fate),
        None => None,
    }
}

fn message(alloc: Global, source: u32, session: u64, kind: Kind) -> Message {
    Message {
        source: Handle(source),
        session: Session(session),
        kind,
        body: Body::new(alloc),
    }
}

fn waiting(
    alloc: Global,
    first: Message,
    second: Message,
    third: Message,
) -> Result<Waiting, NoMemory> {
    let mut waiting = Waiting::new(alloc);
    waiting.push(first)?;
    waiting.push(second)?;
    waiting.push(third)?;
    Ok(waiting)
}

#[test]
fn each_call_has_its_own_fate(rt: HostRuntime) -> Result<(), Fail> {
    let mut calls = three(rt.alloc())?;
    assert!(rt; fate(&calls, 3, 1) == Some(Fate::Waiting));
    assert!(rt; fate(&calls, 4, 2).is_none());
    calls.set_request(held(3, 1), Fate::Held);
    calls.set_request(held(4, 2), Fate::Held);
    assert!(rt; fate(&calls, 3, 1) == Some(Fate::Held));
    assert!(rt; fate(&calls, 3, 2) == Some(Fate::Waiting));
    assert!(rt; fate(&calls, 4, 1) == Some(Fate::Waiting));
    assert!(rt; fate(&calls, 4, 2).is_none());
    calls.take_back(key(3, 2));
    assert!(rt; fate(&calls, 3, 2).is_none());
    Ok(())
}

#[test]
fn an_end_leaves_nothing_waiting(rt: HostRuntime) -> Result<(), Fail> {
    let mut calls = three(rt.alloc())?;
    calls.set_held(&[held(4, 1)], Fate::OnItsWay);
    assert!(rt; fate(&calls, 4, 1) == Some(Fate::OnItsWay));
    let requests = waiting(
        rt.alloc(),
        message(rt.alloc(), 3, 1, Kind::Lua),
        message(rt.alloc(), 3, 0, Kind::Lua),
        message(rt.alloc(), 3, 2, Kind::Text),
    )?;
    calls.set_bounced(&requests);
    assert!(rt; fate(&calls, 3, 1) == Some(Fate::OnItsWay));
    assert!(rt; fate(&calls, 3, 2) == Some(Fate::Waiting));
    let replies = waiting(
        rt.alloc(),
        message(rt.alloc(), 5, 1, Kind::Error),
        message(rt.alloc(), 0, 2, Kind::Response),
        message(rt.alloc(), 5, 2, Kind::Lua),
    )?;
    calls.set_replies(Handle(3), &replies);
    assert!(rt; fate(&calls, 3, 1) == Some(Fate::Void));
    assert!(rt; fate(&calls, 3, 2) == Some(Fate::Waiting));
    assert!(rt; fate(&calls, 4, 1) == Some(Fate::OnItsWay));
    Ok(())
}
