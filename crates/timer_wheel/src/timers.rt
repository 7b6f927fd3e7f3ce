ghost use Rattle.std.specs.Prelude.{◌≡◌, ◌==◌, ◌∷◌, ◌≤◌, ◌<◌, ◌+◌, ◌++◌, [], length, IfOk, OnOk, OnErr};
ghost use Rattle.std.specs.VecDeque.{deque_len, deque_capacity};
ghost use Rattle.message.specs.Clocks.{add as add_lem, due_at, ticked, last_tick};
ghost use Rattle.timer_wheel.specs.Slots.{first_due, due_first, after_first, after_due};

use message::Timer;
use sk_types::{Due, Handle, NoMemory, Session};
use std::alloc::Global;
use std::collections::{BTreeMap, VecDeque};
use std::marker::Model;

/// The tick at which a timer fires, and its number in the order of adding.
#[derive(Clone, Copy, Debug, PartialEq, Eq, PartialOrd, Ord)]
pub struct Slot {
    pub tick: u64,
    pub number: u64,
}

/// The clock, in ticks, and the timers that wait for one of them.
#[derive(Drop)]
pub struct Timers {
    clock: u64,
    /// How many timers were added so far.
    added: u64,
    waiting: BTreeMap<Slot, Timer>,
}

impl Model for Timers {
    ghost use Rattle.message.specs.Clocks.{Clock, last_tick};
    ghost use Rattle.timer_wheel.specs.Slots.{in_order, IsWheel};
    ghost use Rattle.std.specs.Prelude.{◌≤◌};

    ghost Value = { Clock };

    ghost view = { λ t. record { now = t.clock; timers = in_order t.waiting.entries } };

    ghost invariant = { λ t. (t.clock ≤ last_tick) × IsWheel t.clock t.added t.waiting.entries };
}

impl Timers {
    /// At tick 0, with no timer.
    pub fn new(alloc: Global) -> Timers
        ensures { result ≡ record { now = 0; timers = [] } }
    {
        Timers {
            clock: 0,
            added: 0,
            waiting: BTreeMap::new(alloc),
        }
    }

    pub fn clock(&self) -> u64
        ensures clock { result ≡ self.now.now }
        ensures last { result ≤ last_tick }
    {
        self.clock
    }

    /// How many timers wait.
    pub fn len(&self) -> u64
        ensures { result ≡ length self.now.timers }
    {
        self.waiting.len() as u64
    }

    pub fn is_empty(&self) -> bool
        ensures { result ≡ (length self.now.timers == 0) }
    {
        self.waiting.is_empty()
    }

    /// Adds a timer that is due so many ticks from now; with 0 ticks it is due at the next one.
    pub fn add(&mut self, ticks: u32, handle: Handle, session: Session) -> Result<(), NoMemory>
        ensures ok { OnOk result (self.new ≡ add_lem self.old ticks handle session) }
        ensures err { OnErr result (self.new ≡ self.old) }
    {
        if self.added == u64::MAX {
            return Err(NoMemory);
        }
        let at = self.clock + u64::from(ticks);
        let slot = Slot {
            tick: at.max(self.clock + 1),
            number: self.added,
        };
        let timer = Timer {
            at,
            handle,
            session,
        };
        let Ok(_) = self.waiting.insert(slot, timer) else {
            return Err(NoMemory);
        };
        self.added += 1;
        Ok(())
    }

    /// How many timers are due at the next tick.
    pub fn next_due(&self) -> u64
        ensures { result ≡ length (due_at (self.now.now + 1) self.now.timers) }
    {
        count_due(&self.waiting, self.clock + 1)
    }

    /// The timers that are due at the next tick, in the order of adding.
    pub fn due(&self, alloc: Global) -> Result<Due, NoMemory>
        ensures { IfOk result (λ d. d ≡ due_at (self.now.now + 1) self.now.timers) }
    {
        list_due(alloc, &self.waiting, self.clock + 1)
    }

    /// The clock goes up by one, and the timers that are then due go to the end of the list, in the order of adding.
    pub fn tick(&mut self, out: &mut VecDeque<(Handle, Session)>)
        requires clock { self.old.now < last_tick }
        requires room { deque_len out.old + length (due_at (self.old.now + 1) self.old.timers) ≤ deque_capacity out.old }
        ensures after { self.new ≡ ticked self.old }
        ensures due { out.new.items ≡ out.old.items ++ due_at (self.old.now + 1) self.old.timers }
    {
        let now = self.clock + 1;
        self.clock = now;
        send_due(&mut self.waiting, now, out);
    }
}

/// How many at the front are due by now.
fn count_due(waiting: &BTreeMap<Slot, Timer>, now: u64) -> u64
    ensures { result ≡ length (due_first now waiting.now.entries) }
{
    let mut count = 0;
    for (slot, _timer) in waiting {
        if now < slot.tick {
            return count;
        }
        count += 1;
    }
    count
}

/// Those at the front that are due by now.
fn list_due(alloc: Global, waiting: &BTreeMap<Slot, Timer>, now: u64) -> Result<Due, NoMemory>
    ensures { IfOk result (λ d. d ≡ due_first now waiting.now.entries) }
{
    let mut due = Due::new(alloc);
    for (slot, timer) in waiting {
        if now < slot.tick {
            return Ok(due);
        }
        due.push(timer.handle, timer.session)?;
    }
    Ok(due)
}

/// Those at the front that are due by now go to the end of the list.
fn send_due(waiting: &mut BTreeMap<Slot, Timer>, now: u64, out: &mut VecDeque<(Handle, Session)>)
    requires room { deque_len out.old + length (due_first now waiting.old.entries) ≤ deque_capacity out.old }
    ensures due { out.new.items ≡ out.old.items ++ due_first now waiting.old.entries }
    ensures left { waiting.new.entries ≡ after_due now waiting.old.entries }
{
    while let Some(timer) = take_due(waiting, now) {
        out.push_back_reserved((timer.handle, timer.session));
    }
}

/// The first, where it is due by now.
fn take_due(waiting: &mut BTreeMap<Slot, Timer>, now: u64) -> Option<Timer>
    ensures due { result ≡ first_due now waiting.old.entries }
    ensures left { waiting.new.entries ≡ after_first now waiting.old.entries }
{
    let first = match waiting.first_key_value() {
        Some((slot, _timer)) => slot.tick,
        None => return None,
    };
    if now < first {
        return None;
    }
    match waiting.pop_first() {
        Some((_slot, timer)) => Some(timer),
        None => None,
    }
}
