ghost use Rattle.std.specs.Prelude.{◌≡◌, ◌+◌, ◌<◌, [], ◌∷◌, ◌++◌, IfOk, OnOk, OnErr, length};
ghost use Rattle.std.specs.List.{list_any};
ghost use Rattle.std.specs.BTreeMap.{insert_entry};
ghost use Rattle.session_table.specs.Keys.{thread_cmp};
ghost use Rattle.session_table.specs.Table.{none_taken, taken_more, held_by, without_taken, held_of, is_held_as};
ghost use Rattle.session_table.specs.declared.words.Owed.TheVariants as owed;

use crate::words::{Owed, ThreadNo};
use message::{Held, HeldList};
use sk_types::{Handle, NoMemory, Session};
use std::alloc::Global;
use std::collections::BTreeMap;
use std::marker::Model;
use std::mem;

/// The held requests, each under the number with which it was taken.
#[derive(Drop)]
pub struct Requests {
    alloc: Global,
    next: u64,
    taken: BTreeMap<u64, Held>,
    /// Room to hand them out: it is empty, and holds as many as there are.
    room: Vec<Held>,
}

impl Model for Requests {
    ghost use Rattle.std.specs.Prelude.{◌≡◌, ◌≤◌, length, vec_len, vec_capacity};
    ghost use Rattle.session_table.specs.Table.{Taken, AllBelow};

    ghost Value = { Taken };

    ghost view = { λ r. record { next = r.next; held = r.taken.entries } };

    ghost invariant = { λ r. (AllBelow r.next r.taken.entries) × (vec_len r.room ≡ 0) × (length r.taken.entries ≤ vec_capacity r.room) };
}

impl Requests {
    pub fn new(alloc: Global) -> Requests
        ensures { result ≡ none_taken }
    {
        Requests {
            alloc,
            next: 0,
            taken: BTreeMap::new(alloc),
            room: Vec::new(alloc),
        }
    }

    /// Takes a request, which this thread is to answer.
    pub fn take_for(
        &mut self,
        threads: &mut BTreeMap<ThreadNo, Owed>,
        thread: ThreadNo,
        held: Held,
    ) -> Result<(), NoMemory>
        ensures ok { OnOk result (self.new ≡ taken_more self.old held) }
        ensures threads { OnOk result (threads.new.entries ≡ insert_entry thread_cmp threads.old.entries thread (owed.Request self.old.next)) }
        ensures err { OnErr result (self.new ≡ self.old) }
        ensures kept { OnErr result (threads.new.entries ≡ threads.old.entries) }
    {
        let number = self.next;
        if number == u64::MAX {
            return Err(NoMemory);
        }
        self.room.reserve(self.taken.len() + 1)?;
        self.taken.insert(number, held)?;
        match threads.insert(thread, Owed::Request(number)) {
            Ok(_) => {
                self.next = number + 1;
                Ok(())
            }
            Err(_) => {
                let _ = self.taken.remove(&number);
                Err(NoMemory)
            }
        }
    }

    /// Who is answered, and under which session.
    pub fn held_by(&self, owed: Owed) -> Option<Held>
        ensures { result ≡ held_by self.now owed }
    {
        match owed {
            Owed::Request(number) => self.taken.get(&number).copied(),
            Owed::Note(source) => Some(Held {
                source,
                session: Session(0),
            }),
        }
    }

    /// It is held no more.
    pub fn drop_owed(&mut self, owed: Owed)
        ensures { self.new ≡ without_taken self.old owed }
    {
        if let Owed::Request(number) = owed {
            let _ = self.taken.remove(&number);
        }
    }

    /// Hands out the held requests, in the order taken.
    pub fn hand_out(&mut self) -> HeldList
        ensures held { result ≡ held_of self.old }
        ensures after { self.new ≡ record self.old { held = [] } }
    {
        'requests: while let Some((_, held)) = self.taken.pop_first() {
            self.room.push_reserved(held);
        }
        HeldList::from_vec(mem::replace(&mut self.room, Vec::new(self.alloc)))
    }

    /// Whether a request of this source and session is held.
    pub fn holds(&self, source: Handle, session: Session) -> bool
        ensures { result ≡ list_any (is_held_as source session) (held_of self.now) }
    {
        self.taken.values().any(|held| held.source.0 == source.0 && held.session.0 == session.0)
    }
}
