//! A world of the three, in several orders of its agents: what becomes of the caller's one call.

use crate::{Player, Players, Role};
use call_fates::{CallKey, CallState, Fate};
use sk_types::{Bytes, Handle, NoMemory, Session};
use std::alloc::Global;
use std::test::Fail;
use world_machine::{Ahead, World};

const KILLER: u32 = 1;

const CALLER: u32 = 2;

const ECHO: u32 = 3;

fn opened(alloc: Global) -> Result<Option<World<Player>>, NoMemory> {
    let start = Bytes::from_slice(alloc, b"echo")?;
    let killer = Player::new(alloc, Handle(KILLER), Role::Killer);
    let caller = Player::new(alloc, Handle(CALLER), Role::Caller);
    World::opening(alloc, &Players, killer, caller, &start)
}

/// Whether each of these agents had an action in turn.
fn acts(world: &mut World<Player>, agents: &[u32]) -> bool {
    for agent in agents {
        if world.act(&Players, Handle(*agent)).is_err() {
            return false;
        }
    }
    true
}

/// The fate of the caller's call.
fn fate(world: &World<Player>) -> Option<Fate> {
    let key = CallKey {
        caller: Handle(CALLER),
        session: Session(1),
    };
    match world.calls().get(key) {
        Some(CallState { fate, .. }) => Some(fate),
        None => None,
    }
}

fn is_still(world: &World<Player>) -> bool {
    world.ahead(Handle(0)).is_none()
        && world.ahead(Handle(KILLER)).is_none()
        && world.ahead(Handle(CALLER)).is_none()
        && world.ahead(Handle(ECHO)).is_none()
}

#[test]
fn a_call_is_answered(rt: HostRuntime) -> Result<(), Fail> {
    let found = opened(rt.alloc())?;
    assert!(rt; found.is_some());
    if let Some(mut world) = found {
        let ahead = Ahead {
            tick: false,
            weight: 0,
        };
        assert!(rt; world.ahead(Handle(ECHO)) == Some(ahead));
        assert!(rt; acts(&mut world, &[ECHO, ECHO, ECHO, CALLER, CALLER]));
        assert!(rt; fate(&world).is_none());
        assert!(rt; acts(&mut world, &[CALLER]));
        assert!(rt; fate(&world) == Some(Fate::Waiting));
        assert!(rt; acts(&mut world, &[ECHO]));
        assert!(rt; fate(&world) == Some(Fate::OnItsWay));
        assert!(rt; acts(&mut world, &[ECHO, ECHO]));
        assert!(rt; fate(&world) == Some(Fate::OnItsWay));
        assert!(rt; acts(&mut world, &[CALLER]));
        assert!(rt; fate(&world) == Some(Fate::Answered));
        assert!(rt; acts(&mut world, &[CALLER, KILLER, KILLER, KILLER, KILLER, ECHO]));
        assert!(rt; fate(&world) == Some(Fate::Answered));
        assert!(rt; is_still(&world));
    }
    Ok(())
}

#[test]
fn a_call_fails_where_the_echo_ends_first(rt: HostRuntime) -> Result<(), Fail> {
    let found = opened(rt.alloc())?;
    assert!(rt; found.is_some());
    if let Some(mut world) = found {
        assert!(rt; acts(&mut world, &[ECHO, ECHO, ECHO, CALLER, CALLER, CALLER]));
        assert!(rt; acts(&mut world, &[KILLER, KILLER, KILLER]));
        assert!(rt; fate(&world) == Some(Fate::Waiting));
        assert!(rt; acts(&mut world, &[ECHO]));
        assert!(rt; fate(&world) == Some(Fate::OnItsWay));
        assert!(rt; acts(&mut world, &[ECHO, ECHO]));
        assert!(rt; fate(&world) == Some(Fate::OnItsWay));
        assert!(rt; acts(&mut world, &[CALLER]));
        assert!(rt; fate(&world) == Some(Fate::Failed));
        assert!(rt; acts(&mut world, &[CALLER, KILLER]));
        assert!(rt; is_still(&world));
    }
    Ok(())
}

#[test]
fn what_a_gone_inbox_refuses_is_no_call(rt: HostRuntime) -> Result<(), Fail> {
    let found = opened(rt.alloc())?;
    assert!(rt; found.is_some());
    if let Some(mut world) = found {
        assert!(rt; acts(&mut world, &[ECHO, ECHO, ECHO, CALLER, CALLER]));
        assert!(rt; acts(&mut world, &[KILLER, KILLER, KILLER, ECHO]));
        assert!(rt; acts(&mut world, &[CALLER]));
        assert!(rt; fate(&world).is_none());
        assert!(rt; is_still(&world));
    }
    Ok(())
}

/// What the world writes while each of these agents acts in turn; none where one had no action.
fn text(alloc: Global, agents: &[u32]) -> Result<Option<Bytes>, NoMemory> {
    let Some(mut world) = opened(alloc)? else {
        return Ok(None);
    };
    let mut text = Bytes::new(alloc);
    for agent in agents {
        match world.act(&Players, Handle(*agent)) {
            Ok(Some(line)) => text.push_slice(line.as_slice())?,
            Ok(None) => {}
            Err(_) => return Ok(None),
        }
    }
    Ok(Some(text))
}

fn writes(alloc: Global, agents: &[u32], want: &[u8]) -> Result<bool, NoMemory> {
    match text(alloc, agents)? {
        Some(text) => Ok(text.as_slice() == want),
        None => Ok(false),
    }
}

#[test]
fn an_answer_is_written_down(rt: HostRuntime) -> Result<(), Fail> {
    let agents = [
        ECHO, ECHO, ECHO, CALLER, CALLER, CALLER, ECHO, ECHO, ECHO, CALLER, CALLER, KILLER, KILLER,
        KILLER, KILLER, ECHO,
    ];
    assert!(rt; writes(rt.alloc(), &agents, b"[:00000003] \n[:00000002] answered\n")?);
    Ok(())
}

#[test]
fn a_failure_is_written_down(rt: HostRuntime) -> Result<(), Fail> {
    let agents = [
        ECHO, ECHO, ECHO, CALLER, CALLER, CALLER, KILLER, KILLER, KILLER, ECHO, ECHO, ECHO, CALLER,
        CALLER, KILLER,
    ];
    assert!(rt; writes(rt.alloc(), &agents, b"[:00000003] \n[:00000002] failed\n")?);
    Ok(())
}
