//! With ample memory no call answers want of it.

use crate::{
    Body, Bounces, Datum, Dest, Entry, Held, HeldList, Message, Place, Record, Request, Waiting,
    What,
};
use sk_types::{Bytes, Due, Handle, Kind, NoMemory, Session, Stamp};
use sqlite_items::Items;
use std::alloc::Global;
use std::test::Fail;

/// `{{[1] = "ab"}, true, nil}`, as it is packed.
fn nested(alloc: Global) -> Result<Body, NoMemory> {
    let mut inner = Items::new(alloc);
    inner.push((Datum::Int(1), Datum::Text(Bytes::from_slice(alloc, b"ab")?)))?;
    let mut outer = Items::new(alloc);
    outer.push((Datum::Int(1), Datum::Table(inner)))?;
    let mut body = Body::new(alloc);
    body.push(Datum::Table(outer))?;
    body.push(Datum::Bool(true))?;
    body.push(Datum::Nil)?;
    Ok(body)
}

fn message(alloc: Global, source: u32, session: u64, kind: Kind) -> Result<Message, NoMemory> {
    Ok(Message {
        source: Handle(source),
        session: Session(session),
        kind,
        body: nested(alloc)?,
    })
}

#[test]
fn bodies_are_copied_and_weighed(rt: HostRuntime) -> Result<(), Fail> {
    let body = nested(rt.alloc())?;
    let copy = body.copy(rt.alloc())?;
    assert!(rt; copy.same(&body));
    assert!(rt; !copy.same(&Body::new(rt.alloc())));
    // 16 + (16 + (16 + (16 + 18))) + 16 + 16
    assert_eq!(rt; copy.weight(), 114);
    Ok(())
}

#[test]
fn messages_wait_in_order(rt: HostRuntime) -> Result<(), Fail> {
    let mut waiting = Waiting::new(rt.alloc());
    for source in 3..6u32 {
        let message = message(rt.alloc(), source, 1, Kind::Lua)?;
        if waiting.push(message).is_err() {
            return Err(NoMemory.into());
        }
    }
    let mut copy = waiting.copy(rt.alloc())?;
    assert_eq!(rt; copy.len(), 3);
    let first = copy.take_first();
    assert!(rt; matches!(&first, Some(m) if m.source.0 == 3));
    Ok(())
}

#[test]
fn the_held_are_bounced_first(rt: HostRuntime) -> Result<(), Fail> {
    let mut held: HeldList = Items::new(rt.alloc());
    held.push(Held {
        source: Handle(9),
        session: Session(2),
    })?;
    let mut waiting = Waiting::new(rt.alloc());
    for (source, session, kind) in [
        (4u32, 0u64, Kind::Lua),
        (5, 7, Kind::Response),
        (6, 8, Kind::Lua),
        (7, 0, Kind::Text),
    ] {
        let message = message(rt.alloc(), source, session, kind)?;
        if waiting.push(message).is_err() {
            return Err(NoMemory.into());
        }
    }
    let mut bounces = Bounces::new(held, waiting);
    assert!(rt; bounces.next() == Some((Handle(9), Session(2))));
    bounces.drop_first();
    assert!(rt; bounces.next() == Some((Handle(6), Session(8))));
    bounces.drop_first();
    assert!(rt; bounces.next().is_none());
    Ok(())
}

#[test]
fn entries_are_copied(rt: HostRuntime) -> Result<(), Fail> {
    let request = Request::Look(Dest::Name(Bytes::from_slice(rt.alloc(), b".db")?));
    let copy = request.copy(rt.alloc())?;
    assert!(rt; matches!(&copy, Request::Look(Dest::Name(name)) if name.len() == 3));
    let entry = Entry {
        stamp: Stamp(1),
        agent: Handle(0),
        place: Place::Clock,
        what: What::Tick(Due::new(rt.alloc())),
    };
    let mut record = Record::new(rt.alloc());
    record.reserve(1)?;
    record.add(entry.copy(rt.alloc())?);
    assert_eq!(rt; record.len(), 1);
    Ok(())
}
