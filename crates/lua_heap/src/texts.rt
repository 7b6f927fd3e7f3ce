ghost use Rattle.std.specs.Prelude.{◌≡◌, [], ◌<◌, length, IfOk, OnOk, OnErr, IfSome, IsNone};
ghost use Rattle.lua_model.specs.Texts.{bytes_at, number_of, with_text};

use indexmap::IndexSet;
use sk_types::NoMemory;
use std::alloc::Global;
use std::marker::Model;

/// The strings of a heap, each once; a string's number is its place.
#[derive(Drop)]
pub struct Texts {
    alloc: Global,
    set: IndexSet<Vec<u8>>,
}

impl Model for Texts {
    ghost use Rattle.std.specs.Prelude.{List, ℕ, map};

    ghost Value = { List (List ℕ) };

    ghost view = { λ t. map (λ v. v.items) t.set.keys };
}

impl Texts {
    pub fn new(alloc: Global) -> Texts
        ensures { result ≡ [] }
    {
        Texts {
            alloc,
            set: IndexSet::new(alloc),
        }
    }

    /// The number of these bytes, which stand in the list from then on.
    pub fn number(&mut self, bytes: &[u8]) -> Result<u64, NoMemory>
        ensures value { IfOk result (λ n. n ≡ number_of self.old bytes.now) }
        ensures ok { OnOk result (self.new ≡ with_text self.old bytes.now) }
        ensures err { OnErr result (self.new ≡ self.old) }
    {
        if let Some(place) = self.set.get_index_of(bytes) {
            return Ok(place as u64);
        }
        let text = Vec::from_slice(self.alloc, bytes)?;
        let (place, _added) = self.set.insert_full(text)?;
        Ok(place as u64)
    }

    /// The bytes under a number; none where it was not given.
    pub fn bytes(&self, number: u64) -> &[u8]
        ensures { result.now ≡ bytes_at self.now number }
    {
        match self.set.get_index(number as usize) {
            Some(text) => text.as_slice(),
            None => &[],
        }
    }
}
