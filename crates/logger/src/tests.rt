//! Lines by hand, and what the logger holds.

use crate::{Logger, line};
use message::{Actor, Body, Input, Message};
use sk_types::{Bytes, Handle, Kind, Session};
use std::test::Fail;

#[test]
fn lines_name_their_source(rt: HostRuntime) -> Result<(), Fail> {
    let text = Bytes::from_slice(rt.alloc(), b"hello")?;
    let first = line(rt.alloc(), Handle(3), &text)?;
    assert_eq!(rt; first.as_slice(), b"[:00000003] hello\n".as_slice());
    let last = line(rt.alloc(), Handle(65535), &Bytes::new(rt.alloc()))?;
    assert_eq!(rt; last.as_slice(), b"[:0000ffff] \n".as_slice());
    Ok(())
}

#[test]
fn requests_stay_held(rt: HostRuntime) -> Result<(), Fail> {
    let mut logger = Logger::new(rt.alloc());
    logger.feed(Input::Message(Message {
        source: Handle(4),
        session: Session(2),
        kind: Kind::Lua,
        body: Body::new(rt.alloc()),
    }))?;
    assert!(rt; logger.holds(Handle(4), Session(2)));
    assert!(rt; !logger.holds(Handle(4), Session(3)));
    Ok(())
}
