ghost use Rattle.std.specs.Prelude.{◌≡◌, ◌≢◌, ◌<◌, ◌+◌, ◌↔◌, [], Some, None, true, false, length, slice_get, IsTrue, IfOk, IfNone, IfSome, OnOk};
ghost use Rattle.schedule_core.specs.Turns.{AreOpening, AreEmpty, laid, sent_last, wake as wake_lem, is_home as is_home_lem, joined, IsFetch, Rests, Turns as TurnLists};
ghost use Rattle.message.specs.Registries.{at};
ghost use Rattle.sk_types.specs.declared.number.Handle.{Handle};

use crate::spot::Spot;
use sk_types::{Handle, NoMemory};
use std::alloc::Global;
use std::collections::VecDeque;
use std::marker::Model;

/// Where the turn of each service is, the queue of turns, and what each worker has in hand. Each turn is in one place, once.
#[derive(Drop)]
pub struct Turns {
    spots: Vec<Spot>,
    queue: VecDeque<Handle>,
    hands: Vec<Option<Handle>>,
}

impl Model for Turns {
    ghost use Rattle.std.specs.Prelude.{◌-◌, min, vec_len, vec_capacity};
    ghost use Rattle.std.specs.VecDeque.{deque_len, deque_capacity};
    ghost use Rattle.schedule_core.specs.Turns.{ArePlaced};
    ghost use Rattle.schedule_core.specs.Cores.{TurnBook};

    ghost Value = { TurnBook };

    ghost view = { λ t. record { turns = record { spots = t.spots.items; queue = t.queue.items; hands = t.hands.items }; room = min (deque_capacity t.queue - deque_len t.queue) (vec_capacity t.spots - vec_len t.spots) } };

    ghost invariant = { λ t. ArePlaced (record { spots = t.spots.items; queue = t.queue.items; hands = t.hands.items }) };
}

impl Turns {
    /// The turns of the first three services, which stand in the queue, and so many empty hands.
    pub fn opening(alloc: Global, workers: u32) -> Result<Turns, NoMemory>
        ensures opens { IfOk result (λ t. AreOpening t.turns) }
        ensures workers { IfOk result (λ t. length t.turns.hands ≡ workers) }
    {
        let mut spots = Vec::new(alloc);
        spots.push(Spot::Queued)?;
        spots.push(Spot::Queued)?;
        spots.push(Spot::Queued)?;
        let mut queue = VecDeque::new(alloc);
        queue.push_back(Handle(1))?;
        queue.push_back(Handle(2))?;
        queue.push_back(Handle(3))?;
        let hands = empty_hands(alloc, workers)?;
        Ok(Turns {
            spots,
            queue,
            hands,
        })
    }

    /// What the worker has in hand. None where there is no such worker, too.
    pub fn hand(&self, worker: u32) -> Option<Handle>
        ensures some { IfSome result (λ h. slice_get self.now.turns.hands worker ≡ Some (Some h)) }
        ensures none { IfNone result ((h : Handle) → slice_get self.now.turns.hands worker ≡ Some (Some h) → ⊥) }
    {
        match self.hands.get(worker as usize) {
            Some(Some(own)) => Some(*own),
            _ => None,
        }
    }

    /// Whether no turn waits in the queue.
    pub fn is_queue_empty(&self) -> bool
        ensures { IsTrue result ↔ (self.now.turns.queue ≡ []) }
    {
        self.queue.is_empty()
    }

    /// Makes room for one turn more.
    pub fn reserve(&mut self) -> Result<(), NoMemory>
        ensures same { self.new.turns ≡ self.old.turns }
        ensures room { OnOk result (0 < self.new.room) }
    {
        self.queue.reserve(1)?;
        self.spots.reserve(1)?;
        Ok(())
    }

    /// The first turn of the queue comes into the hand of the worker, where that is empty.
    pub fn fetch(&mut self, worker: u32) -> bool
        ensures done { result ≡ true → (own : Handle) × IsFetch self.old.turns worker own self.new.turns }
        ensures none { result ≡ false → ((own : Handle) (t2 : TurnLists) → IsFetch self.old.turns worker own t2 → ⊥) × (self.new ≡ self.old) }
    {
        let i = worker as usize;
        let Some(None) = self.hands.get(i) else {
            return false;
        };
        let Some(own) = self.queue.pop_front() else {
            return false;
        };
        self.spots[own.0 as usize - 1] = Spot::Hand;
        self.hands[i] = Some(own);
        true
    }

    /// The turn leaves the hand, and goes home or is spent.
    pub fn lay(&mut self, worker: u32, own: Handle, spot: Spot)
        requires has { slice_get self.old.turns.hands worker ≡ Some (Some own) }
        requires rests { Rests spot }
        ensures { self.new.turns ≡ laid self.old.turns worker own spot }
    {
        self.spots[own.0 as usize - 1] = spot;
        self.hands[worker as usize] = None;
    }

    /// The turn leaves the hand, and goes to the end of the queue.
    pub fn send_last(&mut self, worker: u32, own: Handle)
        requires has { slice_get self.old.turns.hands worker ≡ Some (Some own) }
        requires room { 0 < self.old.room }
        ensures { self.new.turns ≡ sent_last self.old.turns worker own }
    {
        self.spots[own.0 as usize - 1] = Spot::Queued;
        self.hands[worker as usize] = None;
        self.queue.push_back_reserved(own);
    }

    /// The turn goes to the end of the queue, and the first of the queue comes into the hand.
    pub fn exchange(&mut self, worker: u32, own: Handle)
        requires has { slice_get self.old.turns.hands worker ≡ Some (Some own) }
        requires waits { self.old.turns.queue ≢ [] }
        requires room { 0 < self.old.room }
        ensures { (new : Handle) × IsFetch (sent_last self.old.turns worker own) worker new self.new.turns }
    {
        self.send_last(worker, own);
        let _ = self.fetch(worker);
    }

    /// A turn at home goes to the end of the queue.
    pub fn wake(&mut self, to: Handle)
        requires room { 0 < self.old.room }
        ensures { self.new.turns ≡ wake_lem self.old.turns to }
    {
        if is_home(self.spots.as_slice(), to) {
            self.spots[to.0 as usize - 1] = Spot::Queued;
            self.queue.push_back_reserved(to);
        }
    }

    /// The turn of a new service goes to the end of the queue.
    pub fn join(&mut self, own: Handle)
        requires next { own.0 ≡ length self.old.turns.spots + 1 }
        requires room { 0 < self.old.room }
        ensures { self.new.turns ≡ joined self.old.turns own }
    {
        self.spots.push_reserved(Spot::Queued);
        self.queue.push_back_reserved(own);
    }
}

/// Whether the turn of the handle is at home.
fn is_home(spots: &[Spot], handle: Handle) -> bool
    ensures { result ≡ is_home_lem (at spots.now handle.0) }
{
    if handle.0 == 0 {
        return false;
    }
    match spots.get(handle.0 as usize - 1) {
        Some(Spot::Home) => true,
        _ => false,
    }
}

/// So many empty hands.
fn empty_hands(alloc: Global, workers: u32) -> Result<Vec<Option<Handle>>, NoMemory>
    ensures empty { IfOk result (λ hands. AreEmpty hands.items) }
    ensures workers { IfOk result (λ hands. length hands.items ≡ workers) }
{
    let mut hands = Vec::new(alloc);
    for _worker in 0..workers {
        hands.push(None)?;
    }
    Ok(hands)
}
