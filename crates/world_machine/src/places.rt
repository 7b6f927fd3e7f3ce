ghost use Rattle.std.specs.Prelude.{◌≡◌, ◌<◌, ◌≤◌, length, None, Err, IsTrue, ◌↔◌, IfOk, IfErr, OnOk, OnErr};
ghost use Rattle.message.specs.Inboxes.{put as put_lem, mark as mark_lem, fire as fire_lem, marked, added, accepts};
ghost use Rattle.message.specs.Messages.{timer_message};
ghost use Rattle.world_machine.specs.Spots.{asked_at, in_inbox, Gives, Leaves};
ghost use Rattle.world_machine.specs.declared.places.Undone.TheVariants as Undone;

use handle_names::Registry;
use message::{Answer, Body, InboxState, InboxStatus, Message, NoRoom, Request};
use sk_types::{Handle, Kind, NoMemory, Session};
use std::alloc::Global;
use timer_wheel::Timers;

/// The registry, the clock and an inbox for each handle that was given, from 1 on.
#[derive(Drop)]
pub struct Places {
    pub inboxes: Vec<InboxState>,
    pub registry: Registry,
    pub clock: Timers,
}

/// Why nothing was done.
#[derive(Drop)]
pub enum Undone {
    /// The handle was never given.
    NoPlace,
    Memory,
}

/// Adds the message at the end, where the inbox takes messages. Where there is no memory it comes back.
pub fn put(inbox: &mut InboxState, message: Message) -> Result<bool, NoRoom>
    ensures ok { IfOk result (λ taken. (taken ≡ accepts inbox.old.status) × (inbox.new ≡ added inbox.old message)) }
    ensures err { IfErr result (λ full. (full.0 ≡ message) × (inbox.new ≡ inbox.old)) }
{
    match inbox.status {
        InboxStatus::Gone => Ok(false),
        InboxStatus::Live | InboxStatus::Closing => {
            inbox.waiting.push(message)?;
            Ok(true)
        }
    }
}

/// A live inbox closes.
fn mark(inbox: &mut InboxState)
    ensures { inbox.new ≡ record { status = marked inbox.old.status; waiting = inbox.old.waiting } }
{
    if matches!(inbox.status, InboxStatus::Live) {
        inbox.status = InboxStatus::Closing;
    }
}

impl Places {
    ghost use Rattle.world_machine.specs.Spotted.{spots};

    /// Whether the handle was given.
    pub fn is_given(&self, handle: Handle) -> bool
        ensures { IsTrue result ↔ ((0 < handle.0) × (handle.0 ≤ length self.now.inboxes.items)) }
    {
        handle.0 != 0 && handle.0 as usize <= self.inboxes.len()
    }

    /// Does what the service `own` asks, and gives the answer.
    pub fn ask(&mut self, own: Handle, request: Request) -> Result<Answer, Undone>
        ensures done { IfOk result (λ a. Gives (asked_at own request (spots self.old)) a (spots self.new)) }
        ensures undone { OnErr result (spots self.new ≡ spots self.old) }
        ensures none { result ≡ Err Undone.NoPlace → asked_at own request (spots self.old) ≡ None }
    {
        match request {
            Request::Look(dest) => Ok(Answer::Found(self.registry.look(&dest))),
            Request::Put(to, message) => self.put(to, message),
            Request::Name(text, handle) => match self.registry.name(&text, handle) {
                Ok(named) => Ok(Answer::Flag(named)),
                Err(NoMemory) => Err(Undone::Memory),
            },
            Request::Retire(handle) => Ok(Answer::Flag(self.registry.retire(handle))),
            Request::Mark(handle) => self.mark(handle),
            Request::Later(ticks, session) => match self.clock.add(ticks, own, session) {
                Ok(()) => Ok(Answer::Done),
                Err(NoMemory) => Err(Undone::Memory),
            },
            Request::Now => Ok(Answer::Clock(self.clock.clock())),
            Request::Launch(_, _) => Err(Undone::NoPlace),
        }
    }

    fn put(&mut self, to: Handle, message: Message) -> Result<Answer, Undone>
        ensures done { IfOk result (λ a. Gives (in_inbox (spots self.old) to.0 (λ i. put_lem to message i)) a (spots self.new)) }
        ensures undone { OnErr result (spots self.new ≡ spots self.old) }
        ensures none { result ≡ Err Undone.NoPlace → in_inbox (spots self.old) to.0 (λ i. put_lem to message i) ≡ None }
    {
        if !self.is_given(to) {
            return Err(Undone::NoPlace);
        }
        match put(&mut self.inboxes[to.0 as usize - 1], message) {
            Ok(taken) => Ok(Answer::Flag(taken)),
            Err(_) => Err(Undone::Memory),
        }
    }

    fn mark(&mut self, handle: Handle) -> Result<Answer, Undone>
        ensures done { IfOk result (λ a. Gives (in_inbox (spots self.old) handle.0 (λ i. mark_lem handle i)) a (spots self.new)) }
        ensures undone { OnErr result (spots self.new ≡ spots self.old) }
        ensures none { result ≡ Err Undone.NoPlace → in_inbox (spots self.old) handle.0 (λ i. mark_lem handle i) ≡ None }
    {
        if !self.is_given(handle) {
            return Err(Undone::NoPlace);
        }
        mark(&mut self.inboxes[handle.0 as usize - 1]);
        Ok(Answer::Done)
    }

    /// The timer that is due sends its message: it has source 0, kind Response and no body (skynet_timer.c).
    pub fn fire(&mut self, alloc: Global, to: Handle, session: Session) -> Result<(), Undone>
        ensures done { OnOk result (Leaves (in_inbox (spots self.old) to.0 (λ i. fire_lem to (timer_message session) i)) (spots self.new)) }
        ensures undone { OnErr result (spots self.new ≡ spots self.old) }
        ensures none { result ≡ Err Undone.NoPlace → in_inbox (spots self.old) to.0 (λ i. fire_lem to (timer_message session) i) ≡ None }
    {
        if !self.is_given(to) {
            return Err(Undone::NoPlace);
        }
        let message = Message {
            source: Handle(0),
            session,
            kind: Kind::Response,
            body: Body::new(alloc),
        };
        match put(&mut self.inboxes[to.0 as usize - 1], message) {
            Ok(_) => Ok(()),
            Err(_) => Err(Undone::Memory),
        }
    }
}
