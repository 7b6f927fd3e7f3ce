//! Names and handles by hand.

use crate::Registry;
use message::Dest;
use sk_types::{Bytes, Handle};
use std::test::Fail;

#[test]
fn names_leave_with_their_handles(rt: HostRuntime) -> Result<(), Fail> {
    let mut registry = Registry::new(rt.alloc());
    for _ in 0..4u32 {
        assert!(rt; registry.register()?.is_some());
    }
    let db = Bytes::from_slice(rt.alloc(), b".db")?;
    assert!(rt; registry.name(&db, Handle(4))?);
    assert!(rt; !registry.name(&db, Handle(3))?);
    assert!(rt; !registry.name(&Bytes::from_slice(rt.alloc(), b"db")?, Handle(3))?);
    let dest = Dest::Name(db);
    assert!(rt; registry.look(&dest) == Some(Handle(4)));
    assert!(rt; !registry.retire(Handle(2)));
    assert!(rt; registry.retire(Handle(4)));
    assert!(rt; !registry.retire(Handle(4)));
    assert!(rt; registry.look(&dest).is_none());
    assert!(rt; registry.look(&Dest::Number(4)).is_none());
    assert!(rt; registry.look(&Dest::Number(3)) == Some(Handle(3)));
    if let Dest::Name(db) = &dest {
        assert!(rt; registry.name(db, Handle(3))?);
    }
    assert!(rt; registry.look(&dest) == Some(Handle(3)));
    Ok(())
}

#[test]
fn the_last_handle_is_65535(rt: HostRuntime) -> Result<(), Fail> {
    let mut registry = Registry::new(rt.alloc());
    for _ in 0..65_534u32 {
        assert!(rt; registry.register()?.is_some());
    }
    assert!(rt; registry.register()? == Some(Handle(65_535)));
    assert!(rt; registry.register()?.is_none());
    assert!(rt; registry.given() == 65_535);
    Ok(())
}
