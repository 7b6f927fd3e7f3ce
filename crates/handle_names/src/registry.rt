ghost use Rattle.std.specs.Prelude.{◌≡◌, ◌≤◌, ◌<◌, ◌+◌, ◌==◌, [], length, IfOk, OnOk, OnErr, IfSome, IsTrue, ◌↔◌};
ghost use Rattle.std.specs.FinMap as names;
ghost use Rattle.message.specs.Registries.{is_listed, is_name, look as look_lem, may_name, name as name_lem, may_retire, retire as retire_lem, does_name, does_retire};
ghost use Rattle.handle_names.specs.Living.{Registers};

use message::Dest;
use sk_types::{Bytes, Handle, NoMemory};
use std::alloc::Global;
use std::collections::BTreeMap;
use std::marker::Model;

const MOST_HANDLES: usize = 65535;

/// Which handles were given, which of them are listed, and the names of these.
#[derive(Drop)]
pub struct Registry {
    alloc: Global,
    listed: Vec<bool>,
    /// A name whose handle is listed no more is no name.
    names: BTreeMap<Vec<u8>, Handle>,
}

impl Model for Registry {
    ghost use Rattle.std.specs.Prelude.{◌≤◌, length};
    ghost use Rattle.std.specs.Ordering.{nat_cmp};
    ghost use Rattle.std.specs.Cmp.Lexicographic.{slice_cmp};
    ghost use Rattle.std.specs.Coded.{codes};
    ghost use Rattle.message.specs.Registries.{Registry as TheRegistry, registry_code, most_handles};
    ghost use Rattle.handle_names.specs.Living.{living, IsKept};

    ghost Value = { TheRegistry };

    ghost coded = { registry_code };

    ghost view = { λ r. record { listed = r.listed.items; named = living r.listed.items r.names.entries } };

    ghost invariant = { λ r. IsKept r.listed.items r.names.entries };
}

/// Whether the text may be a name: 2 to 64 bytes, of which the first is a full stop.
fn is_name(text: &[u8]) -> bool
    ensures { result ≡ is_name text.now }
{
    text.len() >= 2 && text.len() <= 64 && text[0] == b'.'
}

fn is_listed(listed: &[bool], handle: u32) -> bool
    ensures { result ≡ is_listed listed.now handle }
{
    handle != 0 && (handle as usize) <= listed.len() && listed[handle as usize - 1]
}

impl Registry {
    /// No handle is given yet.
    pub fn new(alloc: Global) -> Registry
        ensures listed { result.listed ≡ [] }
        ensures named { result.named ≡ names.empty }
    {
        Registry {
            alloc,
            listed: Vec::new(alloc),
            names: BTreeMap::new(alloc),
        }
    }

    /// How many handles were given.
    pub fn given(&self) -> u32
        ensures { result ≡ length self.now.listed }
    {
        self.listed.len() as u32
    }

    /// Gives the next handle, which is listed; none where 65,535 were given.
    pub fn register(&mut self) -> Result<Option<Handle>, NoMemory>
        ensures ok { IfOk result (λ given. Registers self.old given self.new) }
        ensures err { OnErr result (self.new ≡ self.old) }
    {
        if self.listed.len() == MOST_HANDLES {
            return Ok(None);
        }
        self.listed.push(true)?;
        Ok(Some(Handle(self.listed.len() as u32)))
    }

    /// The handle, where it is listed, or the name is its own.
    pub fn look(&self, dest: &Dest) -> Option<Handle>
        ensures { result ≡ look_lem self.now dest.now }
    {
        match dest {
            Dest::Number(number) => {
                if is_listed(&self.listed, *number) {
                    Some(Handle(*number))
                } else {
                    None
                }
            }
            Dest::Name(text) => self.named(text),
        }
    }

    /// The handle of the name.
    fn named(&self, text: &Bytes) -> Option<Handle>
        ensures { result ≡ names.get self.now.named text.now }
    {
        match self.names.get(text.as_slice()) {
            Some(handle) => {
                if is_listed(&self.listed, handle.0) {
                    Some(*handle)
                } else {
                    None
                }
            }
            None => None,
        }
    }

    /// Gives the handle a name, where that is one, is free, and the handle is listed.
    pub fn name(&mut self, text: &Bytes, handle: Handle) -> Result<bool, NoMemory>
        ensures ok { IfOk result (λ named. (named ≡ may_name self.old text.now handle) × (self.new ≡ (does_name self.old text.now handle).1)) }
        ensures err { OnErr result (self.new ≡ self.old) }
    {
        if !is_name(text.as_slice())
            || !is_listed(&self.listed, handle.0)
            || self.named(text).is_some()
        {
            return Ok(false);
        }
        let key = Vec::from_slice(self.alloc, text.as_slice())?;
        let _ = self.names.insert(key, handle)?;
        Ok(true)
    }

    /// The handle is listed no more, and its names are free: where it is listed, and neither the logger nor the launcher.
    pub fn retire(&mut self, handle: Handle) -> bool
        ensures retired { result ≡ may_retire self.old handle }
        ensures after { self.new ≡ (does_retire self.old handle).1 }
    {
        if handle.0 <= 2 || !is_listed(&self.listed, handle.0) {
            return false;
        }
        self.listed[handle.0 as usize - 1] = false;
        true
    }
}
