//! Lists of expressions, and calls.

ghost use Rattle.std.specs.Prelude.{◌≡◌, ◌≢◌, ◌∷◌, [], length, map, MatchOption, IfOk, OnOk};
ghost use Rattle.lua_steps.specs.Serves.{following};
ghost use Rattle.lua_tree.specs.View.{exp_of, exps_of, suffix_of, suffixes_of};
ghost use Rattle.lua_tree.specs.Source.{NoExp, MoreExps};
ghost use Rattle.lua_compile.specs.Writer.{put};
ghost use Rattle.lua_compile.specs.Forms.{is_many, on_slot, count, last_is_one, slots_fit, is_only, is_tail, only_shown, suffix_want, called, called_list, wanted_written, where_none};

use crate::aim::{Aim, Operand, Want};
use crate::number::slot_after;
use crate::scope::Scope;
use crate::value::{register, shown};
use crate::writer::Writer;
use lua_code::Op;
use lua_tree::{Expr, Suffix};
use sk_types::NoMemory;

/// Whether it may give any number of values.
pub fn is_many(e: &Expr) -> bool
    ensures { result ≡ is_many (exp_of e.now) }
{
    match e {
        Expr::Dots => true,
        Expr::Suffixed(_, _) => true,
        _ => false,
    }
}

#[tactic(auto, using(crate::proofs::TreeLemmas::last_end))]
fn last_is_one(es: &[Expr]) -> bool
    ensures { result ≡ last_is_one (exps_of (map exp_of es.now)) }
{
    match es.split_last() {
        Some((last, _)) => !is_many(last),
        None => true,
    }
}

/// Whether there are few values, and their count is known.
#[tactic(auto, using(crate::proofs::TreeLemmas::count_exps))]
pub fn slots_fit(es: &[Expr]) -> bool
    ensures { result ≡ slots_fit (exps_of (map exp_of es.now)) }
{
    last_is_one(es) && es.len() < 51
}

/// The only expression of a list.
pub fn only_of(es: &[Expr]) -> Option<&Expr>
    ensures { MatchOption result (length es.now ≢ 1) (λ e. es.now ≡ e.now ∷ []) }
{
    match es.split_first() {
        Some((e, rest)) => { if rest.len() == 0 { Some(e) } else { None } }
        None => None,
    }
}

/// Whether there is one expression, of one value.
#[tactic(auto, using(crate::proofs::TreeLemmas::not_only))]
pub fn is_only(es: &[Expr]) -> bool
    ensures { result ≡ is_only (exps_of (map exp_of es.now)) }
{
    match only_of(es) {
        Some(e) => !is_many(e),
        None => false,
    }
}

fn is_suffixed(e: &Expr) -> bool
    ensures { result ≡ is_tail (MoreExps (exp_of e.now) NoExp) }
{
    match e {
        Expr::Suffixed(_, _) => true,
        _ => false,
    }
}

/// Whether there is one expression, and it is a call.
#[tactic(auto, using(crate::proofs::TreeLemmas::not_tail))]
pub fn is_tail(es: &[Expr]) -> bool
    ensures { result ≡ is_tail (exps_of (map exp_of es.now)) }
{
    match only_of(es) {
        Some(e) => is_suffixed(e),
        None => false,
    }
}

#[tactic(auto, using(crate::proofs::TreeLemmas::none_shown))]
pub fn only_shown(es: &[Expr], scope: &Scope, d: u16, aim: Aim) -> Operand
    ensures { result ≡ only_shown (exps_of (map exp_of es.now)) scope.now.names d aim }
{
    match only_of(es) {
        Some(e) => shown(e, scope, d, aim),
        None => Operand::Slot(register(aim, d)),
    }
}

/// The slot after a value, of which so many are wanted.
pub fn following(count: u16, slot: u16) -> Result<u16, NoMemory>
    ensures { IfOk result (λ next. next ≡ following count slot) }
{
    if count == 0 {
        return Ok(slot);
    }
    slot_after(slot, 1)
}

/// What is wanted of a suffix, where these come after it.
pub fn suffix_want(rest: &[Suffix], want: Want) -> Want
    ensures { result ≡ suffix_want (suffixes_of (map suffix_of rest.now)) want }
{
    match rest.split_first() {
        Some(_) => Want::Count(1),
        None => want,
    }
}

impl<'a> Writer<'a> {
    /// A value goes last into the list on top.
    pub fn push_shown(&mut self, operand: Operand) -> Result<(), NoMemory>
        ensures { OnOk result (self.new ≡ on_slot operand self.old (λ x. put (Op.Push x) self.old)) }
    {
        match operand {
            Operand::Slot(from) => self.put(Op::Push { from }),
            Operand::Constant(_) => {
                self.lose_if(true);
                Ok(())
            }
        }
    }

    /// A value is the result of the function.
    pub fn return_shown(&mut self, operand: Operand) -> Result<(), NoMemory>
        ensures { OnOk result (self.new ≡ on_slot operand self.old (λ x. put (Op.Return x 1) self.old)) }
    {
        match operand {
            Operand::Slot(from) => self.put(Op::Return { from, count: 1 }),
            Operand::Constant(_) => {
                self.lose_if(true);
                Ok(())
            }
        }
    }

    /// A call of a slot with so many slots after it.
    pub fn call(&mut self, want: Want, base: u16, args: u16, line: u32) -> Result<(), NoMemory>
        ensures { OnOk result (self.new ≡ called want base args line self.old) }
    {
        match want {
            Want::Count(results) => self.emit(
                Op::Call {
                    base,
                    args,
                    results,
                },
                line,
            ),
            Want::AsList => self.emit(Op::CallAll { base, args }, line),
            Want::AsResult => {
                self.emit(Op::TailCall { base, args }, line)?;
                self.put(Op::ReturnList)
            }
        }
    }

    /// A call of the first value of the list on top with the others.
    pub fn call_list(&mut self, want: Want, base: u16, line: u32) -> Result<(), NoMemory>
        ensures { OnOk result (self.new ≡ called_list want base line self.old) }
    {
        match want {
            Want::Count(count) => {
                self.emit(Op::CallList { base }, line)?;
                self.put(Op::Spread { to: base, count })
            }
            Want::AsList => self.emit(Op::CallList { base }, line),
            Want::AsResult => {
                self.emit(Op::TailCallList { base }, line)?;
                self.put(Op::ReturnList)
            }
        }
    }

    // The value in a slot and nils after it are so many values.
    fn fill(&mut self, count: u16, d: u16) -> Result<(), NoMemory>
        ensures { OnOk result (self.new ≡ wanted_written (Want.Count count) d self.old) }
    {
        if count == 0 {
            return Ok(());
        }
        let after = slot_after(d, 1)?;
        self.write_nils(after, count - 1)
    }

    fn write_wanted(&mut self, want: Want, d: u16) -> Result<(), NoMemory>
        ensures { OnOk result (self.new ≡ wanted_written want d self.old) }
    {
        match want {
            Want::Count(count) => self.fill(count, d),
            Want::AsList => {
                self.put(Op::Begin)?;
                self.put(Op::Push { from: d })
            }
            Want::AsResult => self.put(Op::Return { from: d, count: 1 }),
        }
    }

    /// A value that no call made, for what is wanted of a call.
    pub fn write_uncalled(
        &mut self,
        suffixes: &[Suffix],
        want: Want,
        d: u16,
    ) -> Result<(), NoMemory>
        ensures { OnOk result (self.new ≡ where_none (suffixes_of (map suffix_of suffixes.now)) want d self.old) }
    {
        match suffixes.split_first() {
            Some(_) => Ok(()),
            None => self.write_wanted(want, d),
        }
    }
}
