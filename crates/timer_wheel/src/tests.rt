//! What falls due, by hand.

use crate::Timers;
use sk_types::{Handle, Session};
use std::alloc::AllocError;
use std::collections::VecDeque;
use std::test::Fail;

fn tick(timers: &mut Timers, out: &mut VecDeque<(Handle, Session)>) -> Result<(), AllocError> {
    out.reserve(timers.next_due() as usize)?;
    if timers.clock() < 1_000_000_000 {
        timers.tick(out);
    }
    Ok(())
}

#[test]
fn timers_of_one_tick_fire_in_the_order_of_adding(rt: HostRuntime) -> Result<(), Fail> {
    let mut timers = Timers::new(rt.alloc());
    timers.add(256, Handle(4), Session(1))?;
    timers.add(256, Handle(4), Session(2))?;
    timers.add(1, Handle(4), Session(3))?;
    let mut out = VecDeque::new(rt.alloc());
    tick(&mut timers, &mut out)?;
    assert!(rt; out.pop_front() == Some((Handle(4), Session(3))));
    for _ in 0..254u32 {
        tick(&mut timers, &mut out)?;
        assert!(rt; out.is_empty());
    }
    let due = timers.due(rt.alloc())?;
    assert_eq!(rt; due.as_slice().len(), 2);
    tick(&mut timers, &mut out)?;
    assert!(rt; out.pop_front() == Some((Handle(4), Session(1))));
    assert!(rt; out.pop_front() == Some((Handle(4), Session(2))));
    assert!(rt; timers.is_empty());
    Ok(())
}
