ghost use Rattle.std.specs.Prelude.{◌≡◌, ◌≤◌, ◌<◌, ◌+◌, ◌∷◌, ◌++◌, [], length, IfOk, OnOk};

use crate::datum::Body;
use crate::place::Place;
use crate::request::{Dest, Message};
use crate::waiting::Waiting;
use sk_types::{Bytes, Due, Handle, NoMemory, Session, Stamp};
use std::alloc::Global;
use std::marker::Model;

/// What an agent did at a place; the last field is its answer, where it has one.
#[derive(Drop)]
pub enum What {
    Look(Dest, Option<Handle>),
    Put(Handle, Message, bool),
    Launch(Bytes, Body, Option<Handle>),
    Name(Bytes, Handle, bool),
    Retire(Handle, bool),
    Mark(Handle),
    Later(u32, Session),
    Now(u64),
    /// The message, and how many were left.
    Take(Message, u64),
    /// The messages that waited.
    End(Waiting),
    /// The timers that became due.
    Tick(Due),
    Fire(Handle, Message, bool),
}

impl What {
    /// An equal value, on the allocator that is given.
    pub fn copy(&self, alloc: Global) -> Result<What, NoMemory>
        ensures { IfOk result (λ w. w ≡ self.now) }
    {
        match self {
            What::Look(dest, found) => Ok(What::Look(dest.copy(alloc)?, *found)),
            What::Put(to, message, taken) => Ok(What::Put(*to, message.copy(alloc)?, *taken)),
            What::Launch(name, args, found) => {
                let name = name.copy(alloc)?;
                Ok(What::Launch(name, args.copy(alloc)?, *found))
            }
            What::Name(text, handle, named) => Ok(What::Name(text.copy(alloc)?, *handle, *named)),
            What::Retire(handle, retired) => Ok(What::Retire(*handle, *retired)),
            What::Mark(handle) => Ok(What::Mark(*handle)),
            What::Later(ticks, session) => Ok(What::Later(*ticks, *session)),
            What::Now(clock) => Ok(What::Now(*clock)),
            What::Take(message, left) => Ok(What::Take(message.copy(alloc)?, *left)),
            What::End(waiting) => Ok(What::End(waiting.copy(alloc)?)),
            What::Tick(due) => Ok(What::Tick(due.copy(alloc)?)),
            What::Fire(to, message, taken) => Ok(What::Fire(*to, message.copy(alloc)?, *taken)),
        }
    }
}

/// One event: its stamp is above those before it, in its agent's record and in its place's.
#[derive(Drop)]
pub struct Entry {
    pub stamp: Stamp,
    pub agent: Handle,
    pub place: Place,
    pub what: What,
}

impl Entry {
    /// An equal entry, on the allocator that is given.
    pub fn copy(&self, alloc: Global) -> Result<Entry, NoMemory>
        ensures { IfOk result (λ e. e ≡ self.now) }
    {
        let what = self.what.copy(alloc)?;
        Ok(Entry {
            stamp: self.stamp,
            agent: self.agent,
            place: self.place,
            what,
        })
    }
}

/// The events of one agent or of one place, in order, and room for more.
#[derive(Drop)]
pub struct Record {
    entries: Vec<Entry>,
}

impl Model for Record {
    ghost use Rattle.std.specs.Prelude.{◌-◌, vec_len, vec_capacity};
    ghost use Rattle.message.specs.Trails.{Trail};
    ghost use Rattle.message.specs.contracts.datum.Datum as datum_contract;
    ghost use Rattle.std.specs.Coded.{codes};

    ghost Value = { Trail };

    ghost coded = { Prim.hlevel (codes, datum_contract.the_row.coded) };

    ghost view = { λ r. record { entries = r.entries.items; room = vec_capacity r.entries - vec_len r.entries } };
}

impl Record {
    pub fn new(alloc: Global) -> Record
        ensures { result.entries ≡ [] }
    {
        Record {
            entries: Vec::new(alloc),
        }
    }

    pub fn as_slice(&self) -> &[Entry]
        ensures { result.now ≡ self.now.entries }
    {
        self.entries.as_slice()
    }

    pub fn len(&self) -> usize
        ensures { result ≡ length self.now.entries }
    {
        self.entries.len()
    }

    /// Makes room for that many entries more.
    pub fn reserve(&mut self, more: usize) -> Result<(), NoMemory>
        ensures entries { self.new.entries ≡ self.old.entries }
        ensures room { OnOk result (more ≤ self.new.room) }
        ensures kept { self.old.room ≤ self.new.room }
    {
        self.entries.reserve(more)?;
        Ok(())
    }

    /// Adds an entry in the room that was made for it.
    pub fn add(&mut self, entry: Entry)
        requires { 0 < self.old.room }
        ensures entries { self.new.entries ≡ self.old.entries ++ entry ∷ [] }
        ensures room { self.new.room + 1 ≡ self.old.room }
    {
        self.entries.push_reserved(entry);
    }
}
