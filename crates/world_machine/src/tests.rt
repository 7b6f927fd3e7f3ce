//! The opening world by hand, with services that ask nothing.
ghost use Rattle.std.specs.Prelude.{◌≡◌, []};
ghost use Rattle.message.specs.Actors.{Begins};
ghost use Rattle.world_machine.specs.Quiet.{quiet_way, quiet_sound};

use crate::{ActError, NoAction, World};
use message::{Actor, Held, HeldList, Input, Maker, Next};
use sk_types::{Bytes, Handle, NoMemory, Session};
use sqlite_items::Items;
use std::alloc::Global;
use std::marker::Model;
use std::mem;
use std::test::Fail;

/// It holds each request, and asks nothing.
#[derive(Drop)]
struct Quiet {
    alloc: Global,
    own: Handle,
    held: HeldList,
}

impl Model for Quiet {
    ghost use Rattle.world_machine.specs.Quiet.{Quiets};

    ghost Value = { Quiets };

    ghost view = { λ q. (q.own, q.held) };
}

impl Quiet {
    fn new(alloc: Global, own: Handle) -> Quiet
        ensures value { result ≡ (own, []) }
        ensures begins { Begins quiet_way quiet_sound own result }
    {
        Quiet {
            alloc,
            own,
            held: Items::new(alloc),
        }
    }
}

impl Actor for Quiet {
    ghost use Rattle.world_machine.specs.Quiet.{Quiets, quiet_way, quiet_sound, quiet_lawful};

    ghost Meaning = { Quiets };

    ghost meaning = { λ s. s };

    ghost way = { quiet_way };

    ghost sound = { quiet_sound };

    ghost lawful = { quiet_lawful };

    fn feed(&mut self, input: Input) -> Result<Next, NoMemory> {
        match input {
            Input::Message(m) => {
                if m.is_request() {
                    self.held.push(m.held_of())?;
                }
                Ok(Next::Idle)
            }
            Input::Answer(_) => Ok(Next::Idle),
        }
    }

    fn held(&mut self) -> HeldList {
        mem::replace(&mut self.held, Items::new(self.alloc))
    }

    fn holds(&self, source: Handle, session: Session) -> bool {
        self.held.as_slice().contains(&Held { source, session })
    }

    fn reply(&self) -> Option<Held> {
        None
    }
}

/// Each name but the empty one is a script.
struct Quietly;

impl Maker<Quiet> for Quietly {
    fn make(&self, alloc: Global, name: &Bytes, handle: Handle) -> Result<Option<Quiet>, NoMemory> {
        if name.as_slice().is_empty() {
            return Ok(None);
        }
        Ok(Some(Quiet::new(alloc, handle)))
    }
}

fn opened(alloc: Global, start: &Bytes) -> Result<Option<World<Quiet>>, NoMemory> {
    let logger = Quiet::new(alloc, Handle(1));
    let launcher = Quiet::new(alloc, Handle(2));
    World::opening(alloc, &Quietly, logger, launcher, start)
}

#[test]
fn only_the_start_service_acts_first(rt: HostRuntime) -> Result<(), Fail> {
    let start = Bytes::from_slice(rt.alloc(), b"main")?;
    let found = opened(rt.alloc(), &start)?;
    assert!(rt; found.is_some());
    if let Some(mut world) = found {
        assert!(rt; world.given() == 3);
        assert!(rt; !world.waits());
        for agent in 0..3u32 {
            assert!(rt; refuses(&mut world, agent));
        }
        assert!(rt; matches!(world.act(&Quietly, Handle(3)), Ok(None)));
        assert!(rt; refuses(&mut world, 3));
        assert!(rt; refuses(&mut world, 4));
        assert!(rt; !world.is_spent());
    }
    Ok(())
}

fn refuses(world: &mut World<Quiet>, agent: u32) -> bool {
    matches!(
        world.act(&Quietly, Handle(agent)),
        Err(ActError::Fault(NoAction))
    )
}

#[test]
fn nothing_opens_without_a_start_script(rt: HostRuntime) -> Result<(), Fail> {
    let none = Bytes::new(rt.alloc());
    assert!(rt; opened(rt.alloc(), &none)?.is_none());
    Ok(())
}
