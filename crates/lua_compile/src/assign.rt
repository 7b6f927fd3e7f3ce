//! Assignments: their targets, and the stores into them (manual, section 3.3.3).

ghost use Rattle.std.specs.Prelude.{◌≡◌, ℕ, [], map, MatchOption, IfOk, OnOk, ◌&&◌, not, None, Some};
ghost use Rattle.lua_tree.specs.View.{exp_of, exps_of, operand_of, operands_of, target_of, targets_of};
ghost use Rattle.lua_meaning.specs.Statements.{variables};
ghost use Rattle.lua_steps.specs.Stand.{from_slots, from_items};
ghost use Rattle.lua_compile.specs.Forms.{all_strict, is_direct, only_direct, only_slot, stores_written, is_strict, no_more, slot_at};
ghost use Rattle.lua_compile.specs.Links.{link_in};
ghost use Rattle.lua_compile.specs.Parts.{IsNotDirect, IsDirectTo};

use crate::aim::Link;
use crate::list::only_of;
use crate::number::{index_of, slot_after};
use crate::operator::{link_of, no_more};
use crate::scope::Scope;
use crate::writer::Writer;
use lua_code::Op;
use lua_steps::Place;
use lua_tree::{Expr, Operand, Target};
use sk_types::{Bytes, NoMemory};
use std::alloc::Global;

fn is_strict(link: Link) -> bool
    ensures { result ≡ is_strict (link_in link) }
{
    match link {
        Link::Strict(_) => true,
        _ => false,
    }
}

fn all_strict(operations: &[Operand]) -> bool
    ensures { result ≡ all_strict (operands_of (map operand_of operations.now)) }
{
    for operation in operations {
        if !is_strict(link_of(operation.op)) {
            return false;
        }
    }
    true
}

fn is_strict_chain(operations: &[Operand]) -> bool
    ensures { result ≡ (all_strict (operands_of (map operand_of operations.now)) && not (no_more (operands_of (map operand_of operations.now)))) }
{
    all_strict(operations) && !no_more(operations)
}

/// Whether its value is written by its last operation alone.
fn is_direct(e: &Expr) -> bool
    ensures { result ≡ is_direct (exp_of e.now) }
{
    match e {
        Expr::Dots => false,
        Expr::Suffixed(_, _) => false,
        Expr::Table(_) => false,
        Expr::Paren(inner) => is_direct(inner.get()),
        Expr::Chain(_, operations) => is_strict_chain(operations.as_slice()),
        _ => true,
    }
}

#[tactic(auto, using(crate::proofs::TargetLemmas::not_direct))]
fn only_direct(es: &[Expr]) -> bool
    ensures { result ≡ only_direct (exps_of (map exp_of es.now)) }
{
    match only_of(es) {
        Some(e) => is_direct(e),
        None => false,
    }
}

fn slot_at(place: Option<Place>) -> Option<u16>
    ensures { result ≡ slot_at place }
{
    match place {
        Some(Place::InSlot(slot)) => Some(slot),
        _ => None,
    }
}

/// The slot of the only target.
#[tactic(auto, using(crate::proofs::TargetLemmas::one_slot, crate::proofs::TargetLemmas::no_slot))]
fn only_slot(names: &[Bytes], scope: &Scope) -> Option<u16>
    ensures { result ≡ only_slot names.now scope.now.names }
{
    match names.split_first() {
        Some((x, rest)) => {
            if rest.len() == 0 {
                slot_at(scope.place_of(x))
            } else {
                None
            }
        }
        None => None,
    }
}

/// The slot in which the value of the only target is made, where it can be.
pub fn direct_slot(names: &[Bytes], values: &[Expr], scope: &Scope) -> Option<u16>
    ensures { MatchOption result (IsNotDirect (only_slot names.now scope.now.names) (only_direct (exps_of (map exp_of values.now)))) (λ slot. IsDirectTo slot (only_slot names.now scope.now.names) (only_direct (exps_of (map exp_of values.now)))) }
{
    match only_slot(names, scope) {
        Some(slot) => {
            if only_direct(values) {
                Some(slot)
            } else {
                None
            }
        }
        None => None,
    }
}

/// The names of the targets, where all of them are variables.
#[tactic(auto, using(crate::proofs::TargetLemmas::front_more, crate::proofs::TargetLemmas::front_end))]
pub fn names_of(alloc: Global, targets: &[Target]) -> Result<Option<Vec<Bytes>>, NoMemory>
    ensures { IfOk result (λ names. MatchOption names (variables (targets_of (map target_of targets.now)) ≡ None) (λ xs. variables (targets_of (map target_of targets.now)) ≡ Some xs.items)) }
{
    let mut names = Vec::new(alloc);
    for target in targets {
        match target {
            Target::Variable(x) => names.push(x.copy(alloc)?)?,
            Target::Element(_, _, _) => return Ok(None),
        }
    }
    Ok(Some(names))
}

/// The values of the slots from this one on become those of the names, the last name first.
#[tactic(auto, using(crate::proofs::TargetLemmas::slots_end))]
pub fn store_slots(
    w: &mut Writer,
    scope: &Scope,
    names: &[Bytes],
    first: u16,
) -> Result<(), NoMemory>
    ensures { OnOk result (w.new ≡ stores_written (from_slots names.now first []) scope.now.free scope.now.names w.old) }
{
    let mut left = names.len();
    while left > 0 {
        left -= 1;
        let from = slot_after(first, left)?;
        w.store(scope.place_of(&names[left]), from)?;
    }
    Ok(())
}

/// The same of the values in the list on top, which come to the first free slot one after another.
#[tactic(auto, using(crate::proofs::TargetLemmas::items_end))]
pub fn store_items(w: &mut Writer, scope: &Scope, names: &[Bytes]) -> Result<(), NoMemory>
    ensures { OnOk result (w.new ≡ stores_written (from_items names.now 0 []) scope.now.free scope.now.names w.old) }
{
    let to = scope.free();
    let mut left = names.len();
    while left > 0 {
        left -= 1;
        let index = index_of(left)?;
        w.put(Op::Item { to, index })?;
        w.store(scope.place_of(&names[left]), to)?;
    }
    Ok(())
}
