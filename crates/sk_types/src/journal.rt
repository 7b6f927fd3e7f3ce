ghost use Rattle.std.specs.Prelude.{◌≡◌, ◌+◌, ◌≤◌, ◌<◌, [], ◌∷◌, ◌++◌, ◌==◌, length, OnOk, OnErr};

use crate::memory::NoMemory;
use crate::number::Handle;
use std::alloc::Global;
use std::marker::Model;

/// The agents that acted in a run, in order, and room for more.
#[derive(Debug, Drop)]
pub struct Journal {
    agents: Vec<Handle>,
}

impl Model for Journal {
    ghost use Rattle.std.specs.Prelude.{◌-◌, vec_len, vec_capacity};
    ghost use Rattle.sk_types.specs.Entries.{Entries};

    ghost Value = { Entries };

    ghost view = { λ j. record { agents = j.agents.items; room = vec_capacity j.agents - vec_len j.agents } };
}

impl Journal {
    pub fn new(alloc: Global) -> Journal
        ensures { result.agents ≡ [] }
    {
        Journal {
            agents: Vec::new(alloc),
        }
    }

    pub fn as_slice(&self) -> &[Handle]
        ensures { result.now ≡ self.now.agents }
    {
        self.agents.as_slice()
    }

    pub fn len(&self) -> usize
        ensures { result ≡ length self.now.agents }
    {
        self.agents.len()
    }

    pub fn is_empty(&self) -> bool
        ensures { result ≡ (length self.now.agents == 0) }
    {
        self.agents.is_empty()
    }

    /// Makes room for that many entries more.
    pub fn reserve(&mut self, more: usize) -> Result<(), NoMemory>
        ensures agents { self.new.agents ≡ self.old.agents }
        ensures room { OnOk result (more ≤ self.new.room) }
        ensures kept { self.old.room ≤ self.new.room }
    {
        self.agents.reserve(more)?;
        Ok(())
    }

    /// Adds an entry in the room that was made for it.
    pub fn add(&mut self, agent: Handle)
        requires { 0 < self.old.room }
        ensures agents { self.new.agents ≡ self.old.agents ++ agent ∷ [] }
        ensures room { self.new.room + 1 ≡ self.old.room }
    {
        self.agents.push_reserved(agent);
    }

    pub fn push(&mut self, agent: Handle) -> Result<(), NoMemory>
        ensures ok { OnOk result (self.new.agents ≡ self.old.agents ++ agent ∷ []) }
        ensures err { OnErr result (self.new.agents ≡ self.old.agents) }
    {
        self.agents.push(agent)?;
        Ok(())
    }

    /// Drops all entries; the room stays.
    pub fn clear(&mut self)
        ensures agents { self.new.agents ≡ [] }
        ensures room { self.new.room ≡ self.old.room + length self.old.agents }
    {
        self.agents.clear();
    }
}

/// How a stay of a service in a worker's hands ended.
#[derive(Clone, Copy, Debug, PartialEq, Eq)]
pub enum VisitEnd {
    /// The batch of the worker's weight was taken.
    Batch,
    /// The mailbox was empty.
    Empty,
    /// The mailbox was closing.
    Closing,
    /// The run ended by a limit.
    Stopped,
}

/// One stay of a service in a worker's hands.
#[derive(Clone, Copy, Debug, PartialEq, Eq)]
pub struct Visit {
    pub worker: u32,
    pub handle: Handle,
    /// The messages left after the first one was taken.
    pub remaining: u64,
    /// The messages taken.
    pub taken: u64,
    pub end: VisitEnd,
}
