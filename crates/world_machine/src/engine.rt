ghost use Rattle.std.specs.Prelude.{◌≡◌, ◌<◌, ◌==◌, ◌||◌, not, length, map, true, false, [], ◌∷◌, None, Some, Err, IfOk, IfErr, IfNone, IfSome, OnOk, OnErr, MatchOption};
ghost use Rattle.message.specs.Messages.{init_message};
ghost use Rattle.message.specs.Worlds.{over, service_over, agent as agent_lem, act as act_lem};
ghost use Rattle.message.specs.declared.request.Request.TheVariants as ask;
ghost use Rattle.world_machine.specs.Machines.{Did, IsMachine};
ghost use Rattle.std.specs.Bool.{OnFalse};
ghost use Rattle.call_fates.specs.Kept.{IsKept};
ghost use Rattle.world_machine.specs.Calling.{Goes, Turns, IsAbsent, call_in as call_lem};
ghost use Rattle.world_machine.specs.Spots.{with_spots};
ghost use Rattle.world_machine.specs.Spotted.{spots};
ghost use Rattle.world_machine.specs.Failing.{Fails};
ghost use Rattle.world_machine.specs.Foreseen.{IsAhead};
ghost use Rattle.world_machine.specs.Phases.{phase_of, phase as phase_lem};
ghost use Rattle.message.specs.Steps.{due_ops};
ghost use Rattle.message.specs.Registries.{at};
ghost use Rattle.std.specs.Option.{option_copied};
ghost use Rattle.world_machine.specs.Standing.{StandsAt, StaysAt, IsPlain};
ghost use Rattle.world_machine.specs.Launching.{Brings, MayHear, Hears, FirstDue, clock_agent};
ghost use Rattle.world_machine.specs.declared.served.Stage.TheVariants as stage_lem;

use crate::calling::{call_in, open, receive, reply_in, settle, withdraw};
use crate::idle::{close, line_ahead, take_first};
use crate::phase::{Phase, service_phase};
use crate::places::{Places, Undone};
use crate::served::{Served, Stage};
use crate::service::{answer, end, replying, stage, take};
use crate::weighing::{Ahead, given_ahead, service_ahead};
use call_fates::Calls;
use message::{
    Actor, Answer, Body, InboxState, InboxStatus, Maker, Message, Request, Service, Waiting,
};
use sk_types::{Bytes, Handle, Kind, NoMemory, Session};
use std::alloc::Global;
use std::collections::VecDeque;
use std::marker::Model;

/// No more handles are given than this (skynet_handle.c, the numbers within one node).
const MOST_HANDLES: u32 = 65535;

/// The clock stops here.
const LAST_TICK: u64 = 1_000_000_000;

/// The agent has no action.
#[derive(Clone, Copy, Debug, PartialEq, Eq)]
pub struct NoAction;

/// Why an act was not done.
#[derive(Debug, Drop)]
pub enum ActError {
    Fault(NoAction),
    /// Nothing was done.
    Memory,
    /// The agent did its action, with this line, if any; but there was no memory as its service was fed, and the world
    /// goes on no further.
    Spent(Option<Bytes>),
}

impl From<NoMemory> for ActError {
    ghost use Rattle.std.specs.Prelude.{◌≡◌};
    ghost use Rattle.world_machine.specs.declared.engine.ActError.TheVariants.{Memory};

    ghost from_gives = { λ x r. r ≡ Memory };

    fn from(_error: NoMemory) -> ActError {
        ActError::Memory
    }
}

/// The one-thread message machine: the services and the places of a run.
#[derive(Drop)]
pub struct Engine<A: Actor + Drop> {
    alloc: Global,
    services: Vec<Service<Served<A>>>,
    places: Places,
    due: VecDeque<(Handle, Session)>,
    /// A service met want of memory as it was fed.
    spent: bool,
}

impl<A: Actor + Drop> Model for Engine<A> {
    ghost use Rattle.world_machine.specs.Machines.{Machine};
    ghost use Rattle.message.specs.Registries.{registry_code};
    ghost use Rattle.message.specs.contracts.datum.Datum as datum_contract;
    ghost use Rattle.std.specs.Coded.{codes};

    ghost Value = { Machine A };

    ghost coded = { Prim.hlevel (codes, registry_code, datum_contract.the_row.coded) };

    ghost use Rattle.std.specs.Prelude.{length, map};
    ghost use Rattle.message.specs.Worlds.{service_over};
    ghost use Rattle.world_machine.specs.Machines.{IsMachine};

    ghost view = { λ w. record { world = record { services = w.services.items; inboxes = w.places.inboxes.items; registry = w.places.registry; clock = w.places.clock; due = w.due.items }; spent = w.spent } };

    ghost invariant = { λ w. IsMachine A.way A.sound (map (service_over A.meaning) w.services.items) (length w.places.inboxes.items) (length w.places.registry.listed) };
}

impl<A: Actor + Drop> Engine<A> {
    /// The world of these parts, in which no timer is due.
    pub fn of(alloc: Global, services: Vec<Service<Served<A>>>, places: Places) -> Engine<A>
        requires { IsMachine A.way A.sound (map (service_over A.meaning) services.items) (length places.inboxes.items) (length places.registry.listed) }
        ensures world { result.world ≡ with_spots services.items (spots places) [] }
        ensures spent { result.spent ≡ false }
    {
        Engine {
            alloc,
            services,
            places,
            due: VecDeque::new(alloc),
            spent: false,
        }
    }

    /// The number of handles given.
    pub fn given(&self) -> u32
        ensures { result ≡ length self.now.world.registry.listed }
    {
        self.places.registry.given()
    }

    /// Whether a timer waits or is due.
    pub fn waits(&self) -> bool
        ensures { result ≡ (not (length self.now.world.clock.timers == 0) || not (length self.now.world.due == 0)) }
    {
        !self.places.clock.is_empty() || !self.due.is_empty()
    }

    /// Whether a service met want of memory as it was fed: the world then answers want of memory to each act.
    pub fn is_spent(&self) -> bool
        ensures { result ≡ self.now.spent }
    {
        self.spent
    }

    /// The inbox of the handle, where that was given.
    pub fn inbox(&self, handle: Handle) -> Option<&InboxState>
        ensures { option_copied result ≡ at self.now.world.inboxes handle.0 }
    {
        if handle.0 == 0 {
            return None;
        }
        self.places.inboxes.get(handle.0 as usize - 1)
    }

    /// What the agent is about to do, or none where there is no such agent.
    pub fn phase(&self, agent: Handle) -> Option<Phase>
        ensures { result ≡ phase_lem A.way (over A.meaning self.now.world) agent }
    {
        if agent.0 == 0 {
            return Some(self.clock_phase());
        }
        match self.services.get(agent.0 as usize - 1) {
            Some(service) => Some(service_phase(service)),
            None => None,
        }
    }

    /// What agent 0 is about to do.
    fn clock_phase(&self) -> Phase
        ensures { result ≡ phase_of (due_ops self.now.world.due) }
    {
        match self.first_due() {
            Some((to, _)) => Phase::Sends(to),
            None => Phase::Elsewhere,
        }
    }

    /// The one next action of the agent, or none where it has none. It takes no memory.
    pub fn ahead(&self, agent: Handle) -> Option<Ahead>
        ensures none { IfNone result (act_lem A.way (over A.meaning self.now.world) agent ≡ None) }
        ensures some { IfSome result (λ a. IsAhead A.way (over A.meaning self.now.world) agent a.tick a.weight) }
    {
        if agent.0 == 0 {
            return self.clock_ahead();
        }
        let weight = self.weight_ahead(agent)?;
        Some(Ahead {
            tick: false,
            weight,
        })
    }

    /// The weight of what the service of this handle does next, or none where it has no action.
    fn weight_ahead(&self, agent: Handle) -> Option<u64>
        requires { 0 < agent.0 }
        ensures none { IfNone result (act_lem A.way (over A.meaning self.now.world) agent ≡ None) }
        ensures some { IfSome result (λ n. IsAhead A.way (over A.meaning self.now.world) agent false n) }
    {
        if agent.0 as usize > self.services.len() {
            return None;
        }
        let i = agent.0 as usize - 1;
        service_ahead(
            &self.places,
            agent,
            &self.places.inboxes[i],
            &self.services[i],
        )
    }

    /// Agent 0 fires the first timer that is due; where none is, the clock goes on.
    fn clock_ahead(&self) -> Option<Ahead>
        ensures none { IfNone result (act_lem A.way (over A.meaning self.now.world) clock_agent ≡ None) }
        ensures some { IfSome result (λ a. IsAhead A.way (over A.meaning self.now.world) clock_agent a.tick a.weight) }
    {
        match self.first_due() {
            Some((to, session)) => self.fire_ahead(to, session),
            None => self.tick_ahead(),
        }
    }

    /// A timer's message has no body.
    fn fire_ahead(&self, to: Handle, session: Session) -> Option<Ahead>
        requires { FirstDue self.now.world.due to session }
        ensures none { IfNone result (act_lem A.way (over A.meaning self.now.world) clock_agent ≡ None) }
        ensures some { IfSome result (λ a. IsAhead A.way (over A.meaning self.now.world) clock_agent a.tick a.weight) }
    {
        let weight = given_ahead(&self.places, to, 0)?;
        Some(Ahead {
            tick: false,
            weight,
        })
    }

    /// The clock goes on by a tick, while a timer waits.
    fn tick_ahead(&self) -> Option<Ahead>
        requires { self.now.world.due ≡ [] }
        ensures none { IfNone result (act_lem A.way (over A.meaning self.now.world) clock_agent ≡ None) }
        ensures some { IfSome result (λ a. IsAhead A.way (over A.meaning self.now.world) clock_agent a.tick a.weight) }
    {
        if self.places.clock.is_empty() {
            return None;
        }
        if self.places.clock.clock() >= LAST_TICK {
            return None;
        }
        Some(Ahead {
            tick: true,
            weight: 0,
        })
    }

    /// What the service asks is done, and the answer is fed to it.
    fn asks(&mut self, agent: Handle, request: Request, calls: &mut Calls) -> Result<(), ActError>
        requires asks { StandsAt A.way (over A.meaning self.old.world) agent (stage_lem.Asks request) }
        requires plain { IsPlain request }
        requires absent { IsAbsent (call_lem request) calls.old }
        ensures done { OnOk result (Goes A.way (over A.meaning self.old.world) agent None (over A.meaning self.new.world) calls.old calls.new) }
        ensures whole { OnOk result (self.new.spent ≡ self.old.spent) }
        ensures undone { IfErr result (λ e. Fails A.way (over A.meaning self.old.world) agent self.old self.new e) }
        ensures same { OnErr result (OnFalse self.new.spent (calls.new ≡ calls.old)) }
    {
        let i = agent.0 as usize - 1;
        let call = call_in(&request);
        let sent = reply_in(replying(&self.services[i]), &request);
        open(calls, call)?;
        let answer_ = match self.places.ask(agent, request) {
            Ok(answer) => answer,
            Err(Undone::NoPlace) => {
                withdraw(calls, call);
                return Err(ActError::Fault(NoAction));
            }
            Err(Undone::Memory) => {
                withdraw(calls, call);
                return Err(ActError::Memory);
            }
        };
        settle(calls, call, sent, &answer_);
        if answer(self.alloc, &mut self.services[i], answer_, calls) {
            Ok(())
        } else {
            self.spent = true;
            Err(ActError::Spent(None))
        }
    }

    /// The idle service ends where its inbox is closing, and else takes its first message.
    fn idles(&mut self, agent: Handle, calls: &mut Calls) -> Result<Option<Bytes>, ActError>
        requires { StandsAt A.way (over A.meaning self.old.world) agent stage_lem.Idle }
        ensures done { IfOk result (λ l. Goes A.way (over A.meaning self.old.world) agent l (over A.meaning self.new.world) calls.old calls.new) }
        ensures whole { IfOk result (λ l. self.new.spent ≡ self.old.spent) }
        ensures undone { IfErr result (λ e. Fails A.way (over A.meaning self.old.world) agent self.old self.new e) }
        ensures same { OnErr result (OnFalse self.new.spent (calls.new ≡ calls.old)) }
    {
        let i = agent.0 as usize - 1;
        if let Some(waiting) = close(self.alloc, &mut self.places.inboxes[i]) {
            end(self.alloc, &mut self.services[i], agent, waiting, calls);
            return Ok(None);
        }
        self.takes(agent, calls)
    }

    /// The idle service takes the first message of its inbox, which is not closing.
    fn takes(&mut self, agent: Handle, calls: &mut Calls) -> Result<Option<Bytes>, ActError>
        requires idle { StandsAt A.way (over A.meaning self.old.world) agent stage_lem.Idle }
        requires stays { StaysAt (over A.meaning self.old.world) agent }
        ensures done { IfOk result (λ l. Goes A.way (over A.meaning self.old.world) agent l (over A.meaning self.new.world) calls.old calls.new) }
        ensures whole { IfOk result (λ l. self.new.spent ≡ self.old.spent) }
        ensures undone { IfErr result (λ e. Fails A.way (over A.meaning self.old.world) agent self.old self.new e) }
        ensures same { OnErr result (OnFalse self.new.spent (calls.new ≡ calls.old)) }
    {
        let i = agent.0 as usize - 1;
        let line = line_ahead(self.alloc, agent, &self.places.inboxes[i])?;
        let Some(message) = take_first(&mut self.places.inboxes[i]) else {
            return Err(ActError::Fault(NoAction));
        };
        receive(calls, agent, &message);
        if take(self.alloc, &mut self.services[i], message, calls) {
            Ok(line)
        } else {
            self.spent = true;
            Err(ActError::Spent(line))
        }
    }

    /// The service gets its answer.
    fn hears(&mut self, agent: Handle, answer_: Answer, calls: &mut Calls) -> Result<(), ActError>
        requires { MayHear A.way (over A.meaning self.old.world) agent answer_ }
        ensures heard { OnOk result (Hears A.way (over A.meaning self.old.world) agent answer_ (over A.meaning self.new.world)) }
        ensures turned { OnOk result (Turns A.way (over A.meaning self.old.world) agent answer_ calls.old calls.new) }
        ensures whole { OnOk result (self.new.spent ≡ self.old.spent) }
        ensures spent { OnErr result (self.new.spent ≡ true) }
        ensures memory { IfErr result (λ e. e ≡ ActError.Spent None) }
    {
        if answer(
            self.alloc,
            &mut self.services[agent.0 as usize - 1],
            answer_,
            calls,
        ) {
            Ok(())
        } else {
            self.spent = true;
            Err(ActError::Spent(None))
        }
    }

    /// A new service of the script, with its handle, its inbox and its first message; none where there is no such script, or
    /// no handle is left.
    fn brings<M: Maker<A>>(
        &mut self,
        maker: &M,
        name: &Bytes,
        args: Body,
    ) -> Result<Option<Handle>, NoMemory>
        ensures done { IfOk result (λ found. Brings A.way (over A.meaning self.old.world) name.now args found (over A.meaning self.new.world)) }
        ensures whole { IfOk result (λ found. self.new.spent ≡ self.old.spent) }
        ensures undone { OnErr result (self.new ≡ self.old) }
    {
        let given = self.places.registry.given();
        if given >= MOST_HANDLES {
            return Ok(None);
        }
        let waiting = first_message(self.alloc, args)?;
        self.services.reserve(1)?;
        self.places.inboxes.reserve(1)?;
        let handle = Handle(given + 1);
        let Some(actor) = maker.make(self.alloc, name, handle)? else {
            return Ok(None);
        };
        let found = self.places.registry.register()?;
        self.services
            .push_reserved(Service::Serving(Served::new(actor)));
        self.places.inboxes.push_reserved(InboxState {
            status: InboxStatus::Live,
            waiting,
        });
        Ok(found)
    }

    /// The service launches another.
    fn launches<M: Maker<A>>(
        &mut self,
        maker: &M,
        agent: Handle,
        name: &Bytes,
        args: Body,
        calls: &mut Calls,
    ) -> Result<(), ActError>
        requires { StandsAt A.way (over A.meaning self.old.world) agent (stage_lem.Asks (ask.Launch name.now args)) }
        ensures done { OnOk result (Goes A.way (over A.meaning self.old.world) agent None (over A.meaning self.new.world) calls.old calls.new) }
        ensures whole { OnOk result (self.new.spent ≡ self.old.spent) }
        ensures undone { IfErr result (λ e. Fails A.way (over A.meaning self.old.world) agent self.old self.new e) }
        ensures same { OnErr result (OnFalse self.new.spent (calls.new ≡ calls.old)) }
    {
        let found = self.brings(maker, name, args)?;
        self.hears(agent, Answer::Found(found), calls)?;
        Ok(())
    }

    /// Agent 0 fires the first timer that is due.
    fn fires(&mut self, to: Handle, session: Session) -> Result<(), ActError>
        requires { FirstDue self.old.world.due to session }
        ensures done { OnOk result (Did A.way (over A.meaning self.old.world) clock_agent None (over A.meaning self.new.world)) }
        ensures whole { OnOk result (self.new.spent ≡ self.old.spent) }
        ensures undone { IfErr result (λ e. Fails A.way (over A.meaning self.old.world) clock_agent self.old self.new e) }
    {
        match self.places.fire(self.alloc, to, session) {
            Ok(()) => {
                let _ = self.due.pop_front();
                Ok(())
            }
            Err(Undone::NoPlace) => Err(ActError::Fault(NoAction)),
            Err(Undone::Memory) => Err(ActError::Memory),
        }
    }

    /// The clock goes on by a tick, while a timer waits.
    fn ticks(&mut self) -> Result<(), ActError>
        requires { self.old.world.due ≡ [] }
        ensures done { OnOk result (Did A.way (over A.meaning self.old.world) clock_agent None (over A.meaning self.new.world)) }
        ensures whole { OnOk result (self.new.spent ≡ self.old.spent) }
        ensures undone { IfErr result (λ e. Fails A.way (over A.meaning self.old.world) clock_agent self.old self.new e) }
    {
        if self.places.clock.is_empty() {
            return Err(ActError::Fault(NoAction));
        }
        if self.places.clock.clock() >= LAST_TICK {
            return Err(ActError::Fault(NoAction));
        }
        match self.due.reserve(self.places.clock.next_due() as usize) {
            Ok(()) => {
                self.places.clock.tick(&mut self.due);
                Ok(())
            }
            Err(_) => Err(ActError::Memory),
        }
    }

    /// What the service of this handle does next; none where there is no such service.
    fn stage_of(&self, agent: Handle) -> Result<Option<Stage>, NoMemory>
        requires { 0 < agent.0 }
        ensures { IfOk result (λ found. MatchOption found (agent_lem (over A.meaning self.now.world) agent ≡ None) (λ st. StandsAt A.way (over A.meaning self.now.world) agent st)) }
    {
        if agent.0 as usize > self.services.len() {
            return Ok(None);
        }
        let stage = stage(self.alloc, &self.services[agent.0 as usize - 1])?;
        Ok(Some(stage))
    }

    /// Agent 0 fires the first timer that is due; where none is, the clock goes on.
    fn times(&mut self) -> Result<(), ActError>
        ensures done { OnOk result (Did A.way (over A.meaning self.old.world) clock_agent None (over A.meaning self.new.world)) }
        ensures whole { OnOk result (self.new.spent ≡ self.old.spent) }
        ensures undone { IfErr result (λ e. Fails A.way (over A.meaning self.old.world) clock_agent self.old self.new e) }
    {
        match self.first_due() {
            Some((to, session)) => self.fires(to, session)?,
            None => self.ticks()?,
        }
        Ok(())
    }

    /// The first timer that is due: whose it is, and its session.
    fn first_due(&self) -> Option<(Handle, Session)>
        ensures { MatchOption result (self.now.world.due ≡ []) (λ d. FirstDue self.now.world.due d.0 d.1) }
    {
        match self.due.front() {
            Some((to, session)) => Some((*to, *session)),
            None => None,
        }
    }

    /// The one next action of the agent, and the line that the logger writes in it, if any. Agent 0 acts for the clock.
    pub fn act<M: Maker<A>>(
        &mut self,
        maker: &M,
        agent: Handle,
        calls: &mut Calls,
    ) -> Result<Option<Bytes>, ActError>
        requires { OnFalse self.old.spent (IsKept A.way A.sound (over A.meaning self.old.world) calls.old) }
        ensures done { IfOk result (λ l. Goes A.way (over A.meaning self.old.world) agent l (over A.meaning self.new.world) calls.old calls.new) }
        ensures undone { IfErr result (λ e. Fails A.way (over A.meaning self.old.world) agent self.old self.new e) }
        ensures same { OnErr result (OnFalse self.new.spent (calls.new ≡ calls.old)) }
        ensures whole { IfOk result (λ l. self.new.spent ≡ false) }
        ensures spent { self.old.spent ≡ true → (result ≡ Err ActError.Memory) × (self.new ≡ self.old) × (calls.new ≡ calls.old) }
    {
        if self.spent {
            return Err(ActError::Memory);
        }
        if agent.0 == 0 {
            self.times()?;
            return Ok(None);
        }
        match self.stage_of(agent)? {
            None | Some(Stage::Over) => Err(ActError::Fault(NoAction)),
            Some(Stage::Idle) => self.idles(agent, calls),
            Some(Stage::Asks(request)) => {
                self.requests(maker, agent, request, calls)?;
                Ok(None)
            }
        }
    }

    /// What the service asks is done, and the answer is fed to it, a Launch as well.
    fn requests<M: Maker<A>>(
        &mut self,
        maker: &M,
        agent: Handle,
        request: Request,
        calls: &mut Calls,
    ) -> Result<(), ActError>
        requires asks { StandsAt A.way (over A.meaning self.old.world) agent (stage_lem.Asks request) }
        requires absent { IsAbsent (call_lem request) calls.old }
        ensures done { OnOk result (Goes A.way (over A.meaning self.old.world) agent None (over A.meaning self.new.world) calls.old calls.new) }
        ensures whole { OnOk result (self.new.spent ≡ self.old.spent) }
        ensures undone { IfErr result (λ e. Fails A.way (over A.meaning self.old.world) agent self.old self.new e) }
        ensures same { OnErr result (OnFalse self.new.spent (calls.new ≡ calls.old)) }
    {
        match request {
            Request::Launch(name, args) => self.launches(maker, agent, &name, args, calls)?,
            request => self.asks(agent, request, calls)?,
        }
        Ok(())
    }
}

/// The first message of a new service: source 0, session 0, kind Text, and its arguments.
pub fn first_message(alloc: Global, args: Body) -> Result<Waiting, NoMemory>
    ensures { IfOk result (λ ms. ms ≡ init_message args ∷ []) }
{
    let mut waiting = Waiting::new(alloc);
    waiting.push(Message {
        source: Handle(0),
        session: Session(0),
        kind: Kind::Text,
        body: args,
    })?;
    Ok(waiting)
}
