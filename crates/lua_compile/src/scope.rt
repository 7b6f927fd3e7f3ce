ghost use Rattle.std.specs.Prelude.{◌≡◌, ◌+◌, ◌-◌, [], ◌∷◌, ◌++◌, List, drop, find, length, reverse, if◌then◌else◌, IfOk, OnOk};
ghost use Rattle.lua_steps.specs.Scope.{place_of, in_slot, in_cell, past};
ghost use Rattle.lua_compile.specs.Parts.{is_known, place_in};
ghost use Rattle.lua_compile.specs.Writer.{captured, captures_of, seen_inside, up_from, after_up};
ghost use Rattle.lua_code.specs.declared.function.Capture.{Capture};

use crate::number::slot_after;
use lua_code::{Capture, Function};
use lua_steps::{Known, Place};
use sk_types::{Bytes, NoMemory};
use std::alloc::Global;
use std::marker::Model;

/// Where the code of a function finds the values of the names in scope, and which slots and cells are free.
#[derive(Drop)]
pub struct Scope {
    alloc: Global,
    // the innermost last
    names: Vec<Known>,
    free: u16,
    cells: u16,
}

impl Model for Scope {
    ghost use Rattle.std.specs.Prelude.{reverse};
    ghost use Rattle.lua_steps.specs.Scope.{Scope as Scoped};

    ghost Value = { Scoped };

    ghost view = { λ s. record { names = reverse s.names.items; free = s.free; cells = s.cells } };
}

/// How far a scope goes.
#[derive(Clone, Copy)]
pub struct Extent {
    pub names: usize,
    pub free: u16,
    pub cells: u16,
}

// The place of a name outside, as the function that has this cell for it sees it.
fn up_from(place: Place, up: u16) -> Place
    ensures { result ≡ up_from place up }
{
    match place {
        Place::InCell(_) => Place::InUp(up),
        Place::InUp(_) => Place::InUp(up),
        _ => Place::Hidden,
    }
}

fn after_up(place: Place, up: u16) -> Result<u16, NoMemory>
    ensures { IfOk result (λ after. after ≡ after_up place up) }
{
    match place {
        Place::InCell(_) => slot_after(up, 1),
        Place::InUp(_) => slot_after(up, 1),
        _ => Ok(up),
    }
}

fn place_among(names: &[Known], x: &Bytes) -> Option<Place>
    ensures { result ≡ place_in (find (is_known x.now) (reverse names.now)) }
{
    let found = names
        .iter()
        .rev()
        .find(|n| n.name.as_slice() == x.as_slice());
    match found {
        Some(n) => Some(n.place),
        None => None,
    }
}

fn add_capture(function: &mut Function, place: Place) -> Result<(), NoMemory>
    ensures { OnOk result ((rest : List Capture) → record function.new { captures = function.new.captures ++ rest } ≡ record function.old { captures = function.old.captures ++ captured place rest }) }
{
    match place {
        Place::InCell(cell) => function.add_capture(Capture::Cell(cell)),
        Place::InUp(up) => function.add_capture(Capture::Up(up)),
        _ => Ok(()),
    }
}

fn add_captures(function: &mut Function, names: &[Known]) -> Result<(), NoMemory>
    ensures { OnOk result (function.new ≡ record function.old { captures = function.old.captures ++ captures_of (reverse names.now) }) }
{
    let mut outer = names;
    while let Some((n, rest)) = outer.split_last() {
        add_capture(function, n.place)?;
        outer = rest;
    }
    Ok(())
}

// The names as the function sees them that captures all cells, the innermost first.
fn seen_inside(alloc: Global, names: &[Known]) -> Result<Vec<Known>, NoMemory>
    ensures { IfOk result (λ seen. seen.items ≡ seen_inside 0 (reverse names.now)) }
{
    let mut seen = Vec::new(alloc);
    let mut up = 0;
    let mut outer = names;
    while let Some((n, rest)) = outer.split_last() {
        let name = n.name.copy(alloc)?;
        seen.push(Known {
            name,
            place: up_from(n.place, up),
        })?;
        up = after_up(n.place, up)?;
        outer = rest;
    }
    Ok(seen)
}

impl Scope {
    pub fn new(alloc: Global) -> Scope
        ensures { result ≡ record { names = []; free = 0; cells = 0 } }
    {
        Scope {
            alloc,
            names: Vec::new(alloc),
            free: 0,
            cells: 0,
        }
    }

    /// What a function inside sees of it.
    pub fn inside(&self) -> Result<Scope, NoMemory>
        ensures { IfOk result (λ inner. inner ≡ record { names = seen_inside 0 self.now.names; free = 0; cells = 0 }) }
    {
        let mut names = seen_inside(self.alloc, self.names.as_slice())?;
        names.reverse();
        Ok(Scope {
            alloc: self.alloc,
            names,
            free: 0,
            cells: 0,
        })
    }

    /// A function captures all cells that it can see.
    pub fn capture(&self, function: &mut Function) -> Result<(), NoMemory>
        ensures { OnOk result (function.new ≡ record function.old { captures = function.old.captures ++ captures_of self.now.names }) }
    {
        add_captures(function, self.names.as_slice())
    }

    pub fn free(&self) -> u16
        ensures { result ≡ self.now.free }
    {
        self.free
    }

    pub fn cells(&self) -> u16
        ensures { result ≡ self.now.cells }
    {
        self.cells
    }

    /// The place of the innermost local of this name.
    #[tactic(auto, using(crate::proofs::ScopeLemmas::place_found))]
    pub fn place_of(&self, x: &Bytes) -> Option<Place>
        ensures { result ≡ place_of self.now.names x.now }
    {
        place_among(self.names.as_slice(), x)
    }

    /// A local is in scope, in the first free slot.
    pub fn add_slot(&mut self, x: &Bytes) -> Result<(), NoMemory>
        ensures { OnOk result (self.new ≡ in_slot x.now self.old) }
    {
        let name = x.copy(self.alloc)?;
        let free = slot_after(self.free, 1)?;
        let place = Place::InSlot(self.free);
        self.names.push(Known { name, place })?;
        self.free = free;
        Ok(())
    }

    /// A local is in scope, in the first free cell.
    pub fn add_cell(&mut self, x: &Bytes) -> Result<(), NoMemory>
        ensures { OnOk result (self.new ≡ in_cell x.now self.old) }
    {
        let name = x.copy(self.alloc)?;
        let cells = slot_after(self.cells, 1)?;
        let place = Place::InCell(self.cells);
        self.names.push(Known { name, place })?;
        self.cells = cells;
        Ok(())
    }

    /// So many slots are taken.
    pub fn take(&mut self, count: usize) -> Result<(), NoMemory>
        ensures { OnOk result (self.new ≡ past count self.old) }
    {
        self.free = slot_after(self.free, count)?;
        Ok(())
    }

    pub fn extent(&self) -> Extent
        ensures { result ≡ record { names = length self.now.names; free = self.now.free; cells = self.now.cells } }
    {
        Extent {
            names: self.names.len(),
            free: self.free,
            cells: self.cells,
        }
    }

    /// What came into scope since then goes out of it.
    #[tactic(auto, using(crate::proofs::ScopeLemmas::cut))]
    pub fn close(&mut self, to: Extent)
        ensures { self.new ≡ record { names = drop (length self.old.names - to.names) self.old.names; free = to.free; cells = to.cells } }
    {
        self.names.truncate(to.names);
        self.free = to.free;
        self.cells = to.cells;
    }
}
