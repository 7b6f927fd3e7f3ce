//! Ticks, locals and jumps of statements.

ghost use Rattle.std.specs.Prelude.{◌≡◌, ◌+◌, ◌≤◌, suc, map, option_map, IfOk, OnOk, if◌then◌else◌};
ghost use Rattle.lua_tree.specs.View.{block_of, branch_of, branches_of, else_of};
ghost use Rattle.lua_steps.specs.Scope.{in_slot, in_cell, past};
ghost use Rattle.lua_compile.specs.Writer.{labelled, label_of, put, flag, known, all_known, declare, declare_all};
ghost use Rattle.lua_compile.specs.Forms.{prepay, ticked, ticked_more, paid_before, ticked_twice, jumped, where_else, function_known, close_op};

use crate::scope::Scope;
use crate::writer::Writer;
use lua_code::Op;
use lua_tree::{Block, Branch};
use sk_types::{Bytes, NoMemory};

/// The ticks that a block pays before it acts.
#[tactic(auto, using(crate::proofs::TreeLemmas::pays_one, crate::proofs::TreeLemmas::pays_none))]
pub fn prepay(block: &Block) -> u8
    ensures paid { result ≡ prepay (block_of block.now) }
    ensures few { result ≤ 1 }
{
    match block.stats.as_slice().split_first() {
        Some(_) => 1,
        None => 0,
    }
}

pub fn paid_before(paid: u8, more: u8) -> u8
    ensures { result ≡ paid_before paid more }
{
    if paid == 0 { more } else { paid - 1 }
}

/// A local function is in scope.
pub fn know_function(scope: &mut Scope, x: &Bytes, shared: bool) -> Result<(), NoMemory>
    ensures { OnOk result (scope.new ≡ function_known x.now scope.old shared) }
{
    if shared {
        scope.add_cell(x)
    } else {
        scope.add_slot(x)
    }
}

/// The operation that makes a local function.
pub fn close_op(cells: u16, free: u16, shared: bool, function: u32) -> Op
    ensures { result ≡ (if shared then Op.CloseCell cells function else Op.Close free function) }
{
    if shared {
        Op::CloseCell {
            cell: cells,
            function,
        }
    } else {
        Op::Close { to: free, function }
    }
}

impl<'a> Writer<'a> {
    /// A statement's tick, where so many were paid in advance.
    pub fn tick(&mut self, paid: u8) -> Result<(), NoMemory>
        ensures { OnOk result (self.new ≡ ticked paid self.old) }
    {
        match paid {
            0 => self.put(Op::Tick { pay: 1 }),
            1 => Ok(()),
            _ => {
                self.lose_if(true);
                Ok(())
            }
        }
    }

    /// And with it more.
    pub fn tick_more(&mut self, paid: u8, more: u8) -> Result<(), NoMemory>
        requires { more ≤ 1 }
        ensures { OnOk result (self.new ≡ ticked_more paid more self.old) }
    {
        if paid == 0 {
            return self.put(Op::Tick { pay: more + 1 });
        }
        Ok(())
    }

    /// The ticks of a `repeat`.
    pub fn tick_twice(&mut self, paid: u8, more: u8) -> Result<(), NoMemory>
        requires { more ≤ 1 }
        ensures { OnOk result (self.new ≡ ticked_twice paid more self.old) }
    {
        match paid {
            0 => self.put(Op::Tick { pay: more + 2 }),
            1 => self.put(Op::Tick { pay: more + 1 }),
            _ => {
                self.lose_if(true);
                Ok(())
            }
        }
    }

    /// A jump out of the loop, of which there is one.
    pub fn write_break(&mut self, exit: Option<u32>) -> Result<(), NoMemory>
        ensures { OnOk result (self.new ≡ jumped exit self.old) }
    {
        match exit {
            Some(at) => self.put(Op::Jump { at }),
            None => {
                self.lose_if(true);
                Ok(())
            }
        }
    }

    /// What follows a branch goes on at the end, if there is more of the `if`.
    pub fn jump_to_end(
        &mut self,
        rest: &[Branch],
        other: &Option<Block>,
        end: u32,
    ) -> Result<(), NoMemory>
        ensures { OnOk result (self.new ≡ where_else (branches_of (map branch_of rest.now) (else_of (option_map block_of other.now))) end self.old) }
    {
        match rest.split_first() {
            Some(_) => self.put(Op::Jump { at: end }),
            None => match other {
                Some(_) => self.put(Op::Jump { at: end }),
                None => Ok(()),
            },
        }
    }

    pub fn two_labels(&mut self) -> Result<(u32, u32), NoMemory>
        ensures labels { IfOk result (λ l. (l.0 ≡ label_of self.old) × (l.1 ≡ label_of self.old + 1)) }
        ensures writer { OnOk result (self.new ≡ labelled (labelled self.old)) }
    {
        let first = self.new_label()?;
        let second = self.new_label()?;
        Ok((first, second))
    }

    pub fn three_labels(&mut self) -> Result<(u32, u32, u32), NoMemory>
        ensures labels { IfOk result (λ l. (l.0 ≡ label_of self.old) × (l.1 ≡ label_of self.old + 1) × (l.2 ≡ label_of self.old + 2)) }
        ensures writer { OnOk result (self.new ≡ labelled (labelled (labelled self.old))) }
    {
        let first = self.new_label()?;
        let second = self.new_label()?;
        let third = self.new_label()?;
        Ok((first, second, third))
    }

    // The next local is in the first free slot, or in a cell that takes the value from there.
    fn place_local(&mut self, scope: &mut Scope, x: &Bytes, shared: bool) -> Result<(), NoMemory>
        ensures writer { OnOk result (self.new ≡ (if shared then put (Op.NewCell scope.old.cells scope.old.free) self.old else self.old)) }
        ensures scope { OnOk result (scope.new ≡ (if shared then past 1 (in_cell x.now scope.old) else in_slot x.now scope.old)) }
    {
        if shared {
            self.put(Op::NewCell {
                cell: scope.cells(),
                from: scope.free(),
            })?;
            scope.add_cell(x)?;
            scope.take(1)
        } else {
            scope.add_slot(x)
        }
    }

    /// A local of the chunk is declared, whose value is in the first free slot.
    pub fn declare(&mut self, scope: &mut Scope, x: &Bytes) -> Result<(), NoMemory>
        ensures writer { OnOk result (self.new ≡ declare scope.old self.old) }
        ensures scope { OnOk result (scope.new ≡ known x.now scope.old self.old.flags self.old.locals) }
        ensures flags { OnOk result (self.new.flags ≡ self.old.flags) }
        ensures locals { OnOk result (self.new.locals ≡ self.old.locals + 1) }
    {
        let shared = self.is_shared();
        self.place_local(scope, x, shared)?;
        self.count_local()
    }

    pub fn declare_all(&mut self, scope: &mut Scope, xs: &[Bytes]) -> Result<(), NoMemory>
        ensures writer { OnOk result (self.new ≡ declare_all xs.now scope.old self.old) }
        ensures scope { OnOk result (scope.new ≡ all_known xs.now scope.old self.old.flags self.old.locals) }
    {
        for x in xs {
            self.declare(scope, x)?;
        }
        Ok(())
    }
}
