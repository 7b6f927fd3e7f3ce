ghost use Rattle.std.specs.Prelude.{◌≡◌, ◌⊎◌, ◌<◌, ◌+◌, [], length, true, false, None, Some, IsTrue, ◌↔◌, IfOk, IfErr, IfNone, IfSome, OnOk, OnErr};
ghost use Rattle.message.specs.Worlds.{over};
ghost use Rattle.call_fates.specs.Reached.{IsOpening};
ghost use Rattle.schedule_core.specs.Turns.{AreOpening};
ghost use Rattle.std.specs.Option.{option_copied};
ghost use Rattle.world_machine.specs.declared.phase.Phase.TheVariants as phases;
ghost use Rattle.schedule_core.specs.Cores.{Steps, Halts, HaltsRun, MayAct, Moves, Tried, followed, parked as parked_lem, rests as rests_lem};
ghost use Rattle.schedule_core.specs.declared.action.Action.TheVariants as does;

use crate::action::Action;
use crate::spot::{Rest, Spot};
use crate::turns::Turns;
use message::{Actor, InboxState, InboxStatus, Maker};
use sk_types::{Handle, NoMemory};
use std::alloc::Global;
use std::marker::Model;
use world_machine::{ActError, Phase, World};

/// A world and the turns of its services, which workers take in hand. While no service has met want of memory as it was fed, the two
/// levels fit: each turn is in one place, once, a mailbox with work has its turn in the queue or in a hand, and a mailbox is gone exactly
/// where its service has ended.
#[derive(Drop)]
pub struct Core<A: Actor + Drop> {
    world: World<A>,
    turns: Turns,
}

impl<A: Actor + Drop> Model for Core<A> {
    ghost use Rattle.std.specs.Bool.{OnFalse};
    ghost use Rattle.message.specs.Registries.{registry_code};
    ghost use Rattle.message.specs.contracts.datum.Datum as datum_contract;
    ghost use Rattle.std.specs.Coded.{codes};
    ghost use Rattle.schedule_core.specs.Levels.{levels_over, IsTwo};
    ghost use Rattle.schedule_core.specs.Cores.{Scheduled};

    ghost Value = { Scheduled A };

    ghost coded = { Prim.hlevel (codes, registry_code, datum_contract.the_row.coded) };

    ghost view = { λ c. record { run = c.world; turns = c.turns.turns } };

    ghost invariant = { λ c. OnFalse c.world.spent (IsTwo A.way (levels_over A.meaning c.world.world c.turns.turns)) };
}

impl<A: Actor + Drop> Core<A> {
    /// The turns of the first three services stand in the queue, and so many workers have an empty hand.
    pub fn opening(alloc: Global, world: World<A>, workers: u32) -> Result<Core<A>, NoMemory>
        requires opens { IsOpening A.way A.sound (over A.meaning world.world) }
        requires workers { 0 < workers }
        ensures run { IfOk result (λ c. c.run ≡ world) }
        ensures turns { IfOk result (λ c. AreOpening c.turns) }
        ensures workers { IfOk result (λ c. length c.turns.hands ≡ workers) }
    {
        let turns = Turns::opening(alloc, workers)?;
        Ok(Core { world, turns })
    }

    /// The world as it stands.
    pub fn world(&self) -> &World<A>
        ensures { result.now ≡ self.now.run }
    {
        &self.world
    }

    /// Does the step. False where it cannot be done; then nothing changes.
    pub fn step<M: Maker<A>>(&mut self, maker: &M, action: Action) -> Result<bool, NoMemory>
        ensures done { IfOk result (λ b. Steps A.way A.meaning self.old action b self.new) }
        ensures workers { length self.new.turns.hands ≡ length self.old.turns.hands }
        ensures whole { IfOk result (λ b. self.new.run.spent ≡ false) }
        ensures halts { OnErr result (Halts self.old self.new) }
        ensures spent { self.old.run.spent ≡ true → OnOk result ⊥ }
    {
        if self.world.is_spent() {
            return Err(NoMemory);
        }
        match action {
            Action::Fetch(worker) => Ok(self.fetch(worker)),
            Action::Act(worker) => self.act(maker, worker),
            Action::Park(worker) => Ok(self.park(worker)),
            Action::Exchange(worker) => self.exchange(worker),
            Action::Clock => self.clock(maker),
        }
    }

    /// The first turn of the queue comes into an empty hand.
    fn fetch(&mut self, worker: u32) -> bool
        ensures done { Steps A.way A.meaning self.old (does.Fetch worker) result self.new }
        ensures run { self.new.run ≡ self.old.run }
        ensures workers { length self.new.turns.hands ≡ length self.old.turns.hands }
    {
        self.turns.fetch(worker)
    }

    /// The service whose turn is in hand does its next action.
    fn act<M: Maker<A>>(&mut self, maker: &M, worker: u32) -> Result<bool, NoMemory>
        requires { self.old.run.spent ≡ false }
        ensures done { IfOk result (λ b. Steps A.way A.meaning self.old (does.Act worker) b self.new) }
        ensures whole { IfOk result (λ b. self.new.run.spent ≡ false) }
        ensures workers { length self.new.turns.hands ≡ length self.old.turns.hands }
        ensures halts { OnErr result (Halts self.old self.new) }
    {
        match self.turns.hand(worker) {
            Some(own) => self.moves(maker, own),
            None => Ok(false),
        }
    }

    /// The turn in hand is put back.
    fn park(&mut self, worker: u32) -> bool
        requires { self.old.run.spent ≡ false }
        ensures done { Steps A.way A.meaning self.old (does.Park worker) result self.new }
        ensures run { self.new.run ≡ self.old.run }
        ensures workers { length self.new.turns.hands ≡ length self.old.turns.hands }
    {
        let Some(own) = self.turns.hand(worker) else {
            return false;
        };
        match parked(self.world.phase(own), self.world.inbox(own)) {
            None => false,
            Some(Rest::Home) => {
                self.turns.lay(worker, own, Spot::Home);
                true
            }
            Some(Rest::Spent) => {
                self.turns.lay(worker, own, Spot::Spent);
                true
            }
            Some(Rest::Hand) => true,
        }
    }

    /// The idle turn in hand goes last, and the first of the queue comes into the hand.
    fn exchange(&mut self, worker: u32) -> Result<bool, NoMemory>
        requires { self.old.run.spent ≡ false }
        ensures done { IfOk result (λ b. Steps A.way A.meaning self.old (does.Exchange worker) b self.new) }
        ensures run { self.new.run ≡ self.old.run }
        ensures workers { length self.new.turns.hands ≡ length self.old.turns.hands }
        ensures halts { OnErr result (self.new ≡ self.old) }
    {
        let Some(own) = self.turns.hand(worker) else {
            return Ok(false);
        };
        if !is_idle(self.world.phase(own)) {
            return Ok(false);
        }
        if self.turns.is_queue_empty() {
            return Ok(false);
        }
        self.turns.reserve()?;
        self.turns.exchange(worker, own);
        Ok(true)
    }

    /// Agent 0 does its next action.
    fn clock<M: Maker<A>>(&mut self, maker: &M) -> Result<bool, NoMemory>
        requires { self.old.run.spent ≡ false }
        ensures done { IfOk result (λ b. Steps A.way A.meaning self.old does.Clock b self.new) }
        ensures whole { IfOk result (λ b. self.new.run.spent ≡ false) }
        ensures workers { length self.new.turns.hands ≡ length self.old.turns.hands }
        ensures halts { OnErr result (Halts self.old self.new) }
    {
        self.moves(maker, Handle(0))
    }

    /// The agent does its next action, and the turn that it wakes or brings goes to the queue.
    fn moves<M: Maker<A>>(&mut self, maker: &M, agent: Handle) -> Result<bool, NoMemory>
        requires whole { self.old.run.spent ≡ false }
        requires may { MayAct self.old.turns agent }
        ensures done { IfOk result (λ b. Moves A.way A.meaning self.old agent b self.new) }
        ensures whole { IfOk result (λ b. self.new.run.spent ≡ false) }
        ensures workers { length self.new.turns.hands ≡ length self.old.turns.hands }
        ensures halts { OnErr result (Halts self.old self.new) }
    {
        self.turns.reserve()?;
        let phase = self.world.phase(agent);
        let before = self.world.given();
        let done = acts(&mut self.world, maker, agent)?;
        if !done {
            return Ok(false);
        }
        follow(&mut self.turns, phase, before, self.world.given());
        Ok(true)
    }
}

/// Whether the agent did its next action.
fn acts<A: Actor + Drop, M: Maker<A>>(
    world: &mut World<A>,
    maker: &M,
    agent: Handle,
) -> Result<bool, NoMemory>
    requires { world.old.spent ≡ false }
    ensures done { IfOk result (λ b. Tried A.way A.meaning world.old agent b world.new) }
    ensures halts { OnErr result (HaltsRun world.old world.new) }
{
    match world.act(maker, agent) {
        Ok(_) => Ok(true),
        Err(ActError::Fault(_)) => Ok(false),
        Err(ActError::Memory | ActError::Spent(_)) => Err(NoMemory),
    }
}

/// What an act leaves to do: to queue the turn that it woke, or that of the service that it launched.
fn follow(turns: &mut Turns, phase: Option<Phase>, before: u32, after: u32)
    requires room { 0 < turns.old.room }
    requires next { before < after → after ≡ length turns.old.turns.spots + 1 }
    ensures { turns.new.turns ≡ followed phase before after turns.old.turns }
{
    match phase {
        Some(Phase::Sends(to)) => turns.wake(to),
        _ => {
            if before < after {
                turns.join(Handle(after));
            }
        }
    }
}

/// Where a turn in hand goes when it is put back; it may stay in the hand. None where it may not be put back.
fn parked(phase: Option<Phase>, inbox: Option<&InboxState>) -> Option<Rest>
    ensures { result ≡ parked_lem phase (option_copied inbox.entry) }
{
    let inbox = inbox?;
    match phase {
        Some(Phase::Over) => Some(Rest::Spent),
        Some(Phase::Idle) => rests(inbox),
        _ => None,
    }
}

/// Where the turn of an idle service goes.
fn rests(inbox: &InboxState) -> Option<Rest>
    ensures { result ≡ rests_lem inbox.now.status inbox.now.waiting }
{
    match inbox.status {
        InboxStatus::Live => {
            if inbox.waiting.is_empty() {
                Some(Rest::Home)
            } else {
                Some(Rest::Hand)
            }
        }
        InboxStatus::Closing => None,
        InboxStatus::Gone => None,
    }
}

fn is_idle(phase: Option<Phase>) -> bool
    ensures { IsTrue result ↔ (phase ≡ Some phases.Idle) }
{
    matches!(phase, Some(Phase::Idle))
}
