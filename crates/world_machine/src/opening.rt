ghost use Rattle.std.specs.Prelude.{◌≡◌, None, IfOk, MatchOption};
ghost use Rattle.message.specs.Actors.{Begins};
ghost use Rattle.message.specs.Worlds.{opening as opening_lem, over};
ghost use Rattle.world_machine.specs.Opening.{first_handle, second_handle, start_handle, Opens, opening_spots, opening_registry as registry_lem};
ghost use Rattle.world_machine.specs.Spotted.{spots};

use crate::engine::{Engine, first_message};
use crate::places::Places;
use crate::served::Served;
use handle_names::Registry;
use message::{Actor, Body, InboxState, InboxStatus, Maker, Service, Waiting};
use sk_types::{Bytes, Handle, NoMemory};
use std::alloc::Global;
use std::collections::VecDeque;
use timer_wheel::Timers;

impl<A: Actor + Drop> Engine<A> {
    /// The world before the first act: the logger, the launcher, and the start service, whose first message waits. None
    /// where the maker makes no service of `start`.
    pub fn opening<M: Maker<A>>(
        alloc: Global,
        maker: &M,
        logger: A,
        launcher: A,
        start: &Bytes,
    ) -> Result<Option<Engine<A>>, NoMemory>
        requires logger { Begins A.way A.sound first_handle (A.meaning logger) }
        requires launcher { Begins A.way A.sound second_handle (A.meaning launcher) }
        ensures { IfOk result (λ made. MatchOption made (A.way.begins start.now start_handle ≡ None) (λ w. Opens A.way A.meaning logger launcher start.now w)) }
    {
        let Some(first) = maker.make(alloc, start, Handle(3))? else {
            return Ok(None);
        };
        let places = opening_places(alloc)?;
        let mut services = Vec::new(alloc);
        services.reserve(3)?;
        services.push_reserved(Service::Serving(Served::new(logger)));
        services.push_reserved(Service::Serving(Served::new(launcher)));
        services.push_reserved(Service::Serving(Served::new(first)));
        Ok(Some(Engine::of(alloc, services, places)))
    }
}

/// The places before the first act.
fn opening_places(alloc: Global) -> Result<Places, NoMemory>
    ensures { IfOk result (λ p. spots p ≡ opening_spots) }
{
    let registry = opening_registry(alloc)?;
    let waiting = first_message(alloc, Body::new(alloc))?;
    let mut inboxes = Vec::new(alloc);
    inboxes.reserve(3)?;
    inboxes.push_reserved(InboxState {
        status: InboxStatus::Live,
        waiting: Waiting::new(alloc),
    });
    inboxes.push_reserved(InboxState {
        status: InboxStatus::Live,
        waiting: Waiting::new(alloc),
    });
    inboxes.push_reserved(InboxState {
        status: InboxStatus::Live,
        waiting,
    });
    Ok(Places {
        inboxes,
        registry,
        clock: Timers::new(alloc),
    })
}

/// The first three handles, and the names of two.
fn opening_registry(alloc: Global) -> Result<Registry, NoMemory>
    ensures { IfOk result (λ r. r ≡ registry_lem) }
{
    let launcher = Bytes::from_slice(alloc, b".launcher")?;
    let logger = Bytes::from_slice(alloc, b".logger")?;
    let mut registry = Registry::new(alloc);
    let _ = registry.register()?;
    let _ = registry.register()?;
    let _ = registry.register()?;
    let _ = registry.name(&launcher, Handle(2))?;
    let _ = registry.name(&logger, Handle(1))?;
    Ok(registry)
}
