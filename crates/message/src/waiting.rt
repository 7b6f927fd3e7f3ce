ghost use Rattle.std.specs.Prelude.{◌≡◌, ◌==◌, ◌∷◌, ◌++◌, [], ◌<◌, length, slice_get, IsSome, ◌↔◌, IfOk, IfErr, OnOk, OnErr, MatchOption};
ghost use Rattle.std.specs.Option.{option_copied};

use crate::request::{Held, Message};
use sk_types::{Handle, NoMemory, Session};
use sqlite_items::Items;
use std::alloc::Global;
use std::collections::VecDeque;
use std::marker::Model;

/// The requests that a service holds, in the order taken.
pub type HeldList = Items<Held>;

/// The messages that wait in an inbox, the first that came first. Contracts see their list; it is kept as a ring.
#[derive(Drop)]
pub struct Waiting {
    ring: VecDeque<Message>,
}

impl Model for Waiting {
    ghost use Rattle.std.specs.Prelude.{List};
    ghost use Rattle.message.specs.declared.request.Message.{Message};
    ghost use Rattle.message.specs.contracts.datum.Datum as datum_contract;
    ghost use Rattle.std.specs.Coded.{codes};

    ghost Value = { List Message };

    ghost coded = { Prim.hlevel (codes, datum_contract.the_row.coded) };

    ghost view = { λ w. w.ring.items };
}

/// A message for which there was no memory.
#[derive(Drop)]
pub struct NoRoom(pub Message);

impl From<NoRoom> for NoMemory {
    fn from(_full: NoRoom) -> NoMemory {
        NoMemory
    }
}

impl Waiting {
    pub fn new(alloc: Global) -> Waiting
        ensures { result ≡ [] }
    {
        Waiting {
            ring: VecDeque::new(alloc),
        }
    }

    pub fn from_ring(ring: VecDeque<Message>) -> Waiting
        ensures { result ≡ ring.items }
    {
        Waiting { ring }
    }

    pub fn into_ring(self) -> VecDeque<Message>
        ensures { result.items ≡ self }
    {
        let Waiting { ring } = self;
        ring
    }

    pub fn len(&self) -> usize
        ensures { result ≡ length self.now }
    {
        self.ring.len()
    }

    pub fn is_empty(&self) -> bool
        ensures { result ≡ (length self.now == 0) }
    {
        self.ring.is_empty()
    }

    pub fn get(&self, at: usize) -> Option<&Message>
        ensures { option_copied result ≡ slice_get self.now at }
    {
        self.ring.get(at)
    }

    /// Adds a message at the end. Where there is no memory it comes back.
    pub fn push(&mut self, message: Message) -> Result<(), NoRoom>
        ensures ok { OnOk result (self.new ≡ self.old ++ message ∷ []) }
        ensures err { IfErr result (λ e. (e.0 ≡ message) × (self.new ≡ self.old)) }
    {
        match self.ring.push_back(message) {
            Ok(()) => Ok(()),
            Err(full) => Err(NoRoom(full.value)),
        }
    }

    /// Takes the first message.
    pub fn take_first(&mut self) -> Option<Message>
        ensures { MatchOption result ((self.old ≡ []) × (self.new ≡ [])) (λ m. self.old ≡ m ∷ self.new) }
    {
        self.ring.pop_front()
    }

    /// An equal list, on the allocator that is given.
    pub fn copy(&self, alloc: Global) -> Result<Waiting, NoMemory>
        ensures { IfOk result (λ w. w ≡ self.now) }
    {
        let mut ring = VecDeque::new(alloc);
        let (front, back) = self.ring.as_slices();
        add_copies(alloc, &mut ring, front)?;
        add_copies(alloc, &mut ring, back)?;
        Ok(Waiting { ring })
    }
}

fn add_copies(
    alloc: Global,
    ring: &mut VecDeque<Message>,
    messages: &[Message],
) -> Result<(), NoMemory>
    ensures { OnOk result (ring.new.items ≡ ring.old.items ++ messages.now) }
{
    for message in messages {
        ring.push_back(message.copy(alloc)?)?;
    }
    Ok(())
}
