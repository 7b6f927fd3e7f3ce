ghost use Rattle.std.specs.Prelude.{◌≡◌, ◌==◌, ◌||◌, not, length, true, false, None, Err, IfOk, IfErr, IfNone, IfSome, MatchOption};
ghost use Rattle.std.specs.Bool.{OnFalse};
ghost use Rattle.message.specs.Actors.{Begins};
ghost use Rattle.message.specs.Worlds.{over, act as act_lem};
ghost use Rattle.call_fates.specs.Kept.{IsKept};
ghost use Rattle.world_machine.specs.Calling.{Goes};
ghost use Rattle.world_machine.specs.Failing.{FailsRun};
ghost use Rattle.world_machine.specs.Foreseen.{IsAhead};
ghost use Rattle.world_machine.specs.Phases.{phase as phase_lem};
ghost use Rattle.message.specs.Registries.{at};
ghost use Rattle.std.specs.Option.{option_copied};
ghost use Rattle.world_machine.specs.Opening.{first_handle, second_handle, start_handle, OpensRun};

use crate::engine::{ActError, Engine};
use crate::phase::Phase;
use crate::weighing::Ahead;
use call_fates::Calls;
use message::{Actor, InboxState, Maker};
use sk_types::{Bytes, Handle, NoMemory};
use std::alloc::Global;
use std::marker::Model;

/// The one-thread message machine: the services and the places of a run, and the list of its calls. While no service has
/// met want of memory as it was fed, the list is true: each call has its one fate in it, and is found in the world where
/// that fate says, at the callee that the list names.
#[derive(Drop)]
pub struct World<A: Actor + Drop> {
    engine: Engine<A>,
    calls: Calls,
}

impl<A: Actor + Drop> Model for World<A> {
    ghost use Rattle.world_machine.specs.Machines.{Run};
    ghost use Rattle.message.specs.Registries.{registry_code};
    ghost use Rattle.message.specs.contracts.datum.Datum as datum_contract;
    ghost use Rattle.std.specs.Coded.{codes};

    ghost Value = { Run A };

    ghost coded = { Prim.hlevel (codes, registry_code, datum_contract.the_row.coded) };

    ghost use Rattle.std.specs.Bool.{OnFalse};
    ghost use Rattle.message.specs.Worlds.{over};
    ghost use Rattle.call_fates.specs.Kept.{IsKept};

    ghost view = { λ w. record { world = w.engine.world; spent = w.engine.spent; calls = w.calls } };

    ghost invariant = { λ w. OnFalse w.engine.spent (IsKept A.way A.sound (over A.meaning w.engine.world) w.calls) };
}

impl<A: Actor + Drop> World<A> {
    /// The world before the first act: the logger, the launcher, and the start service, whose first message waits. None
    /// where the maker makes no service of `start`.
    pub fn opening<M: Maker<A>>(
        alloc: Global,
        maker: &M,
        logger: A,
        launcher: A,
        start: &Bytes,
    ) -> Result<Option<World<A>>, NoMemory>
        requires logger { Begins A.way A.sound first_handle (A.meaning logger) }
        requires launcher { Begins A.way A.sound second_handle (A.meaning launcher) }
        ensures { IfOk result (λ made. MatchOption made (A.way.begins start.now start_handle ≡ None) (λ w. OpensRun A.way A.meaning logger launcher start.now w)) }
    {
        match Engine::opening(alloc, maker, logger, launcher, start)? {
            Some(engine) => Ok(Some(World {
                engine,
                calls: Calls::new(alloc),
            })),
            None => Ok(None),
        }
    }

    /// The number of handles given.
    pub fn given(&self) -> u32
        ensures { result ≡ length self.now.world.registry.listed }
    {
        self.engine.given()
    }

    /// Whether a timer waits or is due.
    pub fn waits(&self) -> bool
        ensures { result ≡ (not (length self.now.world.clock.timers == 0) || not (length self.now.world.due == 0)) }
    {
        self.engine.waits()
    }

    /// Whether a service met want of memory as it was fed: the world then answers want of memory to each act.
    pub fn is_spent(&self) -> bool
        ensures { result ≡ self.now.spent }
    {
        self.engine.is_spent()
    }

    /// The calls that were made, with the fate of each. Each call is found in the world where its fate says, at the callee
    /// that the list names, and nowhere else; where it is answered, failed or void nothing of it is left.
    pub fn calls(&self) -> &Calls
        ensures list { result.now ≡ self.now.calls }
        ensures kept { OnFalse self.now.spent (IsKept A.way A.sound (over A.meaning self.now.world) self.now.calls) }
    {
        &self.calls
    }

    /// The inbox of the handle, where that was given.
    pub fn inbox(&self, handle: Handle) -> Option<&InboxState>
        ensures { option_copied result ≡ at self.now.world.inboxes handle.0 }
    {
        self.engine.inbox(handle)
    }

    /// What the agent is about to do, or none where there is no such agent. It takes no memory.
    pub fn phase(&self, agent: Handle) -> Option<Phase>
        ensures { result ≡ phase_lem A.way (over A.meaning self.now.world) agent }
    {
        self.engine.phase(agent)
    }

    /// The one next action of the agent, or none where it has none. It takes no memory.
    pub fn ahead(&self, agent: Handle) -> Option<Ahead>
        ensures none { IfNone result (act_lem A.way (over A.meaning self.now.world) agent ≡ None) }
        ensures some { IfSome result (λ a. IsAhead A.way (over A.meaning self.now.world) agent a.tick a.weight) }
    {
        self.engine.ahead(agent)
    }

    /// The one next action of the agent, and the line that the logger writes in it, if any. Agent 0 acts for the clock. The
    /// list of calls goes on with it.
    pub fn act<M: Maker<A>>(&mut self, maker: &M, agent: Handle) -> Result<Option<Bytes>, ActError>
        ensures done { IfOk result (λ l. Goes A.way (over A.meaning self.old.world) agent l (over A.meaning self.new.world) self.old.calls self.new.calls) }
        ensures undone { IfErr result (λ e. FailsRun A.way (over A.meaning self.old.world) agent self.old self.new e) }
        ensures whole { IfOk result (λ l. self.new.spent ≡ false) }
        ensures spent { self.old.spent ≡ true → (result ≡ Err ActError.Memory) × (self.new ≡ self.old) }
    {
        self.engine.act(maker, agent, &mut self.calls)
    }
}
