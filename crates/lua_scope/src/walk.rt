ghost use Rattle.std.specs.Prelude.{◌≡◌, [], ◌∷◌, ◌++◌, ◌+◌, ◌≤◌, length, drop, take, OnOk, IfOk};
ghost use Rattle.lua_scope.specs.Scope.{innermost, meaning_of, meant, used, declared, all_declared, entered};
ghost use Rattle.lua_scope.specs.Walk.{nothing_read};

use crate::usage::{Seen, Use};
use sk_types::{Bytes, NoMemory};
use std::alloc::Global;
use std::marker::Model;

/// How far a chunk was read.
#[derive(Drop)]
pub struct Walk {
    alloc: Global,
    scope: Vec<Seen>,
    outside: usize,
    uses: Vec<Use>,
    // one for each local
    captured: Vec<bool>,
}

impl Model for Walk {
    ghost use Rattle.std.specs.Prelude.{length};
    ghost use Rattle.lua_scope.specs.Scope.{Walk as Read};

    ghost Value = { Read };

    ghost view = { λ w. record {
      scope = w.scope.items;
      outside = w.outside;
      uses = w.uses.items;
      locals = length w.captured.items;
    } };
}

// The local of the innermost of these names.
fn innermost(names: &[Seen], x: &Bytes) -> Option<u64>
    ensures { result ≡ innermost names.now x.now }
{
    let found = names
        .iter()
        .rev()
        .find(|n| n.name.as_slice() == x.as_slice());
    match found {
        Some(n) => Some(n.local),
        None => None,
    }
}

fn meant(own: Option<u64>, outer: Option<u64>) -> Use
    ensures { result ≡ meant own outer }
{
    match own {
        Some(local) => Use::Local(local),
        None => match outer {
            Some(local) => Use::Upvalue(local),
            None => Use::Global,
        },
    }
}

// What the name means among these, of which so many stand outside the function.
fn meaning(names: &[Seen], outside: usize, x: &Bytes) -> Use
    ensures { result ≡ meant (innermost (drop outside names.now) x.now) (innermost (take outside names.now) x.now) }
{
    if outside <= names.len() {
        let (outer, own) = names.split_at(outside);
        return meant(innermost(own, x), innermost(outer, x));
    }
    meant(None, innermost(names, x))
}

impl Walk {
    pub fn new(alloc: Global) -> Walk
        ensures { result ≡ nothing_read }
    {
        Walk {
            alloc,
            scope: Vec::new(alloc),
            outside: 0,
            uses: Vec::new(alloc),
            captured: Vec::new(alloc),
        }
    }

    /// A name is used.
    pub fn use_name(&mut self, x: &Bytes) -> Result<(), NoMemory>
        ensures { OnOk result (self.new ≡ used x.now self.old) }
    {
        let meaning = meaning(self.scope.as_slice(), self.outside, x);
        self.uses.push(meaning)?;
        Ok(())
    }

    /// A local is declared, and is in scope from here on.
    pub fn declare(&mut self, x: &Bytes) -> Result<(), NoMemory>
        ensures { OnOk result (self.new ≡ declared x.now self.old) }
    {
        let name = x.copy(self.alloc)?;
        let local = self.captured.len() as u64;
        self.captured.push(false)?;
        self.scope.push(Seen { name, local })?;
        Ok(())
    }

    pub fn declare_all(&mut self, xs: &[Bytes]) -> Result<(), NoMemory>
        ensures { OnOk result (self.new ≡ all_declared xs.now self.old) }
    {
        for x in xs {
            self.declare(x)?;
        }
        Ok(())
    }

    /// How many names are in scope.
    pub fn names(&self) -> usize
        ensures { result ≡ length self.now.scope }
    {
        self.scope.len()
    }

    /// How many of them stand outside the function.
    pub fn outside(&self) -> usize
        ensures { result ≡ self.now.outside }
    {
        self.outside
    }

    /// A function begins.
    pub fn enter(&mut self)
        ensures { self.new ≡ entered self.old }
    {
        self.outside = self.scope.len();
    }

    /// Only so many names stay in scope, and so many of them are outside the function.
    pub fn close(&mut self, names: usize, outside: usize)
        ensures { self.new ≡ record self.old { scope = take names self.old.scope; outside = outside } }
    {
        self.scope.truncate(names);
        self.outside = outside;
    }

    pub fn uses(&self) -> &[Use]
        ensures { result.now ≡ self.now.uses }
    {
        self.uses.as_slice()
    }

    pub fn locals(&self) -> usize
        ensures { result ≡ self.now.locals }
    {
        self.captured.len()
    }

    pub fn into_uses(self) -> Vec<Use>
        ensures { result.items ≡ self.uses }
    {
        let Walk {
            alloc: _,
            scope: _,
            outside: _,
            uses,
            captured: _,
        } = self;
        uses
    }
}
