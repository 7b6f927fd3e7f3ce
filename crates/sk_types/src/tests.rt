//! With ample memory no call answers want of it.

use crate::{Bytes, Due, Handle, Journal, Session};
use std::test::Fail;

#[test]
fn texts_grow(rt: HostRuntime) -> Result<(), Fail> {
    let mut text = Bytes::from_slice(rt.alloc(), b"sky")?;
    text.push(b'n')?;
    text.push_slice(b"et")?;
    let copy = text.copy(rt.alloc())?;
    assert_eq!(rt; copy.as_slice(), b"skynet".as_slice());
    assert!(rt; copy.same(&text));
    Ok(())
}

#[test]
fn timers_are_listed(rt: HostRuntime) -> Result<(), Fail> {
    let mut due = Due::new(rt.alloc());
    due.push(Handle(4), Session(1))?;
    let copy = due.copy(rt.alloc())?;
    assert_eq!(rt; copy.as_slice(), [(Handle(4), Session(1))].as_slice());
    Ok(())
}

#[test]
fn entries_are_listed(rt: HostRuntime) -> Result<(), Fail> {
    let mut journal = Journal::new(rt.alloc());
    journal.reserve(1)?;
    journal.add(Handle(3));
    journal.push(Handle(1))?;
    assert_eq!(rt; journal.as_slice(), [Handle(3), Handle(1)].as_slice());
    Ok(())
}
