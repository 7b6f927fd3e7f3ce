//! With ample memory no call answers want of it.

use crate::{NoSession, ResponseNo, Sessions, SleepError, TakeError, ThreadNo, Token, TokenUsed};
use sk_types::{Handle, Session};
use std::test::Fail;

#[test]
fn one_thread_sleeps_under_a_token(rt: HostRuntime) -> Result<(), Fail> {
    let mut sessions = Sessions::new(rt.alloc());
    let token = Token {
        kind: 3,
        number: -5,
    };
    assert!(rt; !sessions.wake(&token)?);
    assert!(rt; sessions.sleeper(token, Session(1), ThreadNo(1)) == Ok(()));
    let again = sessions.sleeper(token, Session(2), ThreadNo(2));
    assert!(rt; again == Err(SleepError::Fault(TokenUsed)));
    assert!(rt; sessions.wake(&token)?);
    assert!(rt; sessions.wake(&token)?);
    assert!(rt; sessions.next_wakeup() == Some(ThreadNo(1)));
    assert!(rt; sessions.next_wakeup().is_none());
    assert!(rt; !sessions.wake(&token)?);
    Ok(())
}

#[test]
fn an_answer_resumes_once(rt: HostRuntime) -> Result<(), Fail> {
    let mut sessions = Sessions::new(rt.alloc());
    assert!(rt; sessions.draw() == Some(Session(1)));
    assert!(rt; sessions.draw() == Some(Session(2)));
    sessions.wait_for(Session(2), ThreadNo(8))?;
    sessions.wait_for(Session(1), ThreadNo(9))?;
    assert!(rt; sessions.answer(Session(1)) == Some(ThreadNo(9)));
    assert!(rt; sessions.answer(Session(1)).is_none());
    assert!(rt; sessions.waiter(Session(2)) == Some(ThreadNo(8)));
    Ok(())
}

#[test]
fn requests_are_held_until_answered(rt: HostRuntime) -> Result<(), Fail> {
    let mut sessions = Sessions::new(rt.alloc());
    for n in 1..4u32 {
        sessions.hold(ThreadNo(u64::from(n)), Handle(n), Session(7))?;
    }
    sessions.hold(ThreadNo(4), Handle(4), Session(0))?;
    assert!(rt; sessions.take_over(ThreadNo(3)) == Ok(ResponseNo(0)));
    assert!(rt; sessions.take_over(ThreadNo(3)) == Err(TakeError::Fault(NoSession)));
    let first = sessions.ret(ThreadNo(2));
    assert!(rt; matches!(&first, Ok(held) if held.source == Handle(2)));
    assert!(rt; sessions.ret(ThreadNo(2)) == Err(NoSession));
    sessions.end_thread(ThreadNo(1));
    sessions.end_thread(ThreadNo(4));
    assert!(rt; sessions.ret(ThreadNo(1)) == Err(NoSession));
    assert!(rt; sessions.ret(ThreadNo(4)) == Err(NoSession));
    assert!(rt; sessions.unused(ResponseNo(0)));
    assert!(rt; sessions.holds(Handle(3), Session(7)));
    let held = sessions.held();
    assert!(rt;
        matches!(held.as_slice(), [a, b] if a.source == Handle(1) && b.source == Handle(3))
    );
    Ok(())
}

#[test]
fn a_response_answers_once(rt: HostRuntime) -> Result<(), Fail> {
    let mut sessions = Sessions::new(rt.alloc());
    sessions.hold(ThreadNo(4), Handle(4), Session(6))?;
    assert!(rt; sessions.take_over(ThreadNo(4)) == Ok(ResponseNo(0)));
    assert!(rt; sessions.respond(ResponseNo(0)).is_some());
    assert!(rt; sessions.respond(ResponseNo(0)).is_none());
    assert!(rt; !sessions.unused(ResponseNo(0)));
    Ok(())
}
