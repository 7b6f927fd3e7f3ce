//! The code of expressions: one function for each definition.

ghost use Rattle.std.specs.Prelude.{◌≡◌, ◌+◌, ◌∷◌, map, IfOk, OnOk};
ghost use Rattle.lua_tree.specs.Source.{NoExp, MoreExps, Call, NoSuffix, MoreSuffixes};
ghost use Rattle.lua_tree.specs.View.{exp_of, exps_of, operand_of, operands_of, suffix_of, suffixes_of};
ghost use Rattle.lua_compile.specs.Parts.{suffixed_written, chain_written};
ghost use Rattle.lua_compile.specs.Written.{exp_written, ands_written, operands_written, suffixes_written, fixed_written, values_written, many_written, list_written, all_written, tail_written, only_written};

use crate::aim::{Aim, Link, Operand, Room, Want};
use crate::list::{following, is_many, only_of, slots_fit, suffix_want};
use crate::number::{slot_after, slot_of};
use crate::operator::{
    Strict, and_aim, base_aim, is_slot, is_test, link_of, no_more, only_tests, room_for, so_far,
    unary_of,
};
use crate::scope::Scope;
use crate::statement::write_function;
use crate::value::{register, shown};
use crate::writer::Writer;
use lua_code::Op;
use lua_tree::{Expr, Operand as Operation, Suffix};
use sk_types::NoMemory;

/// Where the value stands, without an integer in its operation.
pub const ANYWHERE: Aim = Aim::Anywhere(Room::Nothing);

#[cycle(write)]
pub fn write_exp(w: &mut Writer, scope: &Scope, e: &Expr, d: u16, aim: Aim) -> Result<(), NoMemory>
    ensures { OnOk result (w.new ≡ exp_written (exp_of e.now) scope.now d aim w.old) }
{
    let to = register(aim, d);
    match e {
        Expr::Nil => {
            w.put(Op::Nil { to })?;
            w.settle(aim, to)
        }
        Expr::False => {
            w.put(Op::Bool { to, value: false })?;
            w.settle(aim, to)
        }
        Expr::True => w.write_true(d, aim),
        Expr::Int(n) => w.aim_int(*n, d, aim),
        Expr::Text(text) => {
            let index = w.add_text(text)?;
            w.put(Op::Constant { to, index })?;
            w.settle(aim, to)
        }
        Expr::Dots => {
            w.put(Op::DotsTo { to, count: 1 })?;
            w.settle(aim, to)
        }
        Expr::Function(body) => {
            let function = write_function(w, scope, body.get())?;
            w.put(Op::Close { to, function })?;
            w.settle(aim, to)
        }
        Expr::Name(x) => w.write_name(scope.place_of(x), d, aim),
        Expr::Paren(inner) => write_exp(w, scope, inner.get(), d, aim),
        Expr::Table(_) => {
            w.lose_if(true);
            Ok(())
        }
        Expr::Suffixed(_, _) => {
            write_suffixed(w, scope, e, d, Want::Count(1))?;
            w.lose_if(to != d);
            w.settle(aim, d)
        }
        Expr::Unary(op, line, inner) => {
            write_exp(w, scope, inner.get(), d, ANYWHERE)?;
            let operand = shown(inner.get(), scope, d, ANYWHERE);
            w.write_unary_of(unary_of(*op), operand, d, aim, *line)
        }
        Expr::Chain(_, _) => write_chain(w, scope, e, d, aim),
    }
}

// A value in a slot, and its suffixes. Any other expression is left alone.
#[cycle(write)]
fn write_suffixed(
    w: &mut Writer,
    scope: &Scope,
    e: &Expr,
    d: u16,
    want: Want,
) -> Result<(), NoMemory>
    ensures { OnOk result (w.new ≡ suffixed_written (exp_of e.now) scope.now d want w.old) }
{
    let Expr::Suffixed(base, suffixes) = e else {
        return Ok(());
    };
    write_exp(w, scope, base.get(), d, Aim::Into(d))?;
    write_suffixes(w, scope, suffixes.as_slice(), d, want)?;
    w.write_uncalled(suffixes.as_slice(), want, d)
}

// An expression and its operators. Any other expression is left alone.
#[cycle(write)]
fn write_chain(w: &mut Writer, scope: &Scope, e: &Expr, d: u16, aim: Aim) -> Result<(), NoMemory>
    ensures { OnOk result (w.new ≡ chain_written (exp_of e.now) scope.now d aim w.old) }
{
    let Expr::Chain(base, operations) = e else {
        return Ok(());
    };
    let base = base.get();
    let operations = operations.as_slice();
    if no_more(operations) {
        w.lose_if(true);
        return Ok(());
    }
    if only_tests(operations, aim) {
        write_exp(w, scope, base, d, and_aim(operations, aim))?;
        return write_ands(w, scope, operations, d, aim);
    }
    let first = base_aim(operations, aim, d);
    write_exp(w, scope, base, d, first)?;
    let left = shown(base, scope, d, first);
    write_operations(w, scope, operations, d, aim, left)
}

// Each operand of `and` jumps where it is false, and the last one pays.
#[cycle(write)]
fn write_ands(
    w: &mut Writer,
    scope: &Scope,
    operations: &[Operation],
    d: u16,
    aim: Aim,
) -> Result<(), NoMemory>
    ensures { OnOk result (w.new ≡ ands_written (operands_of (map operand_of operations.now)) scope.now d aim w.old) }
{
    for (i, operation) in operations.iter().enumerate() {
        let each = and_aim(&operations[i + 1..], aim);
        write_exp(w, scope, &operation.value, d, each)?;
    }
    Ok(())
}

#[cycle(write)]
fn write_operations(
    w: &mut Writer,
    scope: &Scope,
    operations: &[Operation],
    d: u16,
    aim: Aim,
    base: Operand,
) -> Result<(), NoMemory>
    ensures { OnOk result (w.new ≡ operands_written (operands_of (map operand_of operations.now)) scope.now d aim base w.old) }
{
    let mut left = base;
    for (i, operation) in operations.iter().enumerate() {
        left = write_operation(w, scope, operation, &operations[i + 1..], d, aim, left)?;
    }
    Ok(())
}

// An operator and its right operand, before these others. How the value so far is shown.
#[cycle(write)]
fn write_operation(
    w: &mut Writer,
    scope: &Scope,
    operation: &Operation,
    rest: &[Operation],
    d: u16,
    aim: Aim,
    left: Operand,
) -> Result<Operand, NoMemory>
    ensures { IfOk result (λ now. operands_written (operands_of (operand_of operation.now ∷ map operand_of rest.now)) scope.now d aim left w.old ≡ operands_written (operands_of (map operand_of rest.now)) scope.now d aim now w.new) }
{
    match link_of(operation.op) {
        Link::Both => {
            w.lose_if(!is_slot(left, d));
            let after = w.new_label()?;
            w.put(Op::Test { from: d, at: after })?;
            write_exp(w, scope, &operation.value, d, Aim::Into(d))?;
            w.place_here(after);
            w.settle_last(rest, aim, d, d)?;
            Ok(Operand::Slot(d))
        }
        Link::Either => {
            w.lose_if(!is_slot(left, d));
            let after = w.new_label()?;
            w.put(Op::TestNot { from: d, at: after })?;
            write_exp(w, scope, &operation.value, d, Aim::Into(d))?;
            w.place_here(after);
            w.settle_last(rest, aim, d, d)?;
            Ok(Operand::Slot(d))
        }
        Link::Strict(op) => {
            let to = so_far(rest, aim, d);
            let tested = is_test(op, rest, aim, left, d);
            let room = Aim::Anywhere(room_for(tested, left, to));
            let next = slot_after(d, 1)?;
            write_exp(w, scope, &operation.value, next, room)?;
            let right = shown(&operation.value, scope, next, room);
            let strict = Strict {
                op,
                line: operation.line,
                left,
                tested,
                to,
                d,
                aim,
            };
            w.write_strict(strict, rest, right)?;
            Ok(Operand::Slot(to))
        }
    }
}

// The suffixes of a value in a slot.
#[cycle(write)]
fn write_suffixes(
    w: &mut Writer,
    scope: &Scope,
    suffixes: &[Suffix],
    d: u16,
    want: Want,
) -> Result<(), NoMemory>
    ensures { OnOk result (w.new ≡ suffixes_written (suffixes_of (map suffix_of suffixes.now)) scope.now d want w.old) }
{
    for (i, suffix) in suffixes.iter().enumerate() {
        match suffix {
            Suffix::Call(args, line) => {
                let wanted = suffix_want(&suffixes[i + 1..], want);
                write_call(w, scope, args.as_slice(), *line, d, wanted)?;
            }
            Suffix::Index(_, _) => {
                w.lose_if(true);
                return Ok(());
            }
            Suffix::Method(_, _, _, _) => {
                w.lose_if(true);
                return Ok(());
            }
        }
    }
    Ok(())
}

// A call of slot d.
#[cycle(write)]
#[tactic(auto, using(crate::proofs::TreeLemmas::count_exps))]
fn write_call(
    w: &mut Writer,
    scope: &Scope,
    args: &[Expr],
    line: u32,
    d: u16,
    want: Want,
) -> Result<(), NoMemory>
    ensures { OnOk result (w.new ≡ suffixes_written (MoreSuffixes (Call (exps_of (map exp_of args.now)) line) NoSuffix) scope.now d want w.old) }
{
    if slots_fit(args) {
        let count = slot_of(args.len())?;
        let first = slot_after(d, 1)?;
        write_fixed(w, scope, args, first)?;
        return w.call(want, d, count, line);
    }
    w.put(Op::Begin)?;
    w.put(Op::Push { from: d })?;
    write_list(w, scope, args, d)?;
    w.call_list(want, d, line)
}

// Each value goes to a slot, from this one on.
#[cycle(write)]
pub fn write_fixed(w: &mut Writer, scope: &Scope, es: &[Expr], first: u16) -> Result<(), NoMemory>
    ensures { OnOk result (w.new ≡ fixed_written (exps_of (map exp_of es.now)) scope.now first w.old) }
{
    let mut to = first;
    for e in es {
        write_exp(w, scope, e, to, Aim::Into(to))?;
        to = slot_after(to, 1)?;
    }
    Ok(())
}

// So many values go to slots, from this one on.
#[cycle(write)]
#[tactic(auto, using(crate::proofs::TreeLemmas::values_more))]
pub fn write_values(
    w: &mut Writer,
    scope: &Scope,
    es: &[Expr],
    count: u16,
    first: u16,
) -> Result<(), NoMemory>
    ensures { OnOk result (w.new ≡ values_written (exps_of (map exp_of es.now)) count scope.now first w.old) }
{
    let mut to = first;
    let mut left = count;
    for (i, e) in es.iter().enumerate() {
        if i + 1 == es.len() {
            return write_last_value(w, scope, e, left, to);
        }
        write_exp(w, scope, e, to, Aim::Into(to))?;
        to = following(left, to)?;
        left = left.saturating_sub(1);
    }
    w.write_nils(to, left)
}

#[cycle(write)]
fn write_last_value(
    w: &mut Writer,
    scope: &Scope,
    e: &Expr,
    count: u16,
    to: u16,
) -> Result<(), NoMemory>
    ensures { OnOk result (w.new ≡ values_written (MoreExps (exp_of e.now) NoExp) count scope.now to w.old) }
{
    if is_many(e) {
        return write_many(w, scope, e, count, to);
    }
    write_exp(w, scope, e, to, Aim::Into(to))?;
    let after = slot_after(to, 1)?;
    w.write_nils(after, count.saturating_sub(1))
}

#[cycle(write)]
pub fn write_many(
    w: &mut Writer,
    scope: &Scope,
    e: &Expr,
    count: u16,
    to: u16,
) -> Result<(), NoMemory>
    ensures { OnOk result (w.new ≡ many_written (exp_of e.now) count scope.now to w.old) }
{
    match e {
        Expr::Dots => w.put(Op::DotsTo { to, count }),
        _ => write_suffixed(w, scope, e, to, Want::Count(count)),
    }
}

// All values go last into the list on top.
#[cycle(write)]
pub fn write_list(w: &mut Writer, scope: &Scope, es: &[Expr], d: u16) -> Result<(), NoMemory>
    ensures { OnOk result (w.new ≡ list_written (exps_of (map exp_of es.now)) scope.now d w.old) }
{
    for (i, e) in es.iter().enumerate() {
        if i + 1 == es.len() {
            return write_last_item(w, scope, e, d);
        }
        write_exp(w, scope, e, d, ANYWHERE)?;
        w.push_shown(shown(e, scope, d, ANYWHERE))?;
    }
    Ok(())
}

#[cycle(write)]
fn write_last_item(w: &mut Writer, scope: &Scope, e: &Expr, d: u16) -> Result<(), NoMemory>
    ensures { OnOk result (w.new ≡ list_written (MoreExps (exp_of e.now) NoExp) scope.now d w.old) }
{
    if is_many(e) {
        return write_all(w, scope, e, d);
    }
    write_exp(w, scope, e, d, ANYWHERE)?;
    w.push_shown(shown(e, scope, d, ANYWHERE))
}

// All values of an expression go last into the list on top.
#[cycle(write)]
fn write_all(w: &mut Writer, scope: &Scope, e: &Expr, d: u16) -> Result<(), NoMemory>
    ensures { OnOk result (w.new ≡ all_written (exp_of e.now) scope.now d w.old) }
{
    match e {
        Expr::Dots => {
            w.put(Op::Dots)?;
            w.put(Op::Append)
        }
        Expr::Suffixed(_, _) => {
            write_suffixed(w, scope, e, d, Want::AsList)?;
            w.put(Op::Append)
        }
        _ => Ok(()),
    }
}

#[cycle(write)]
#[tactic(auto, using(crate::proofs::TreeLemmas::no_call, crate::proofs::TreeLemmas::tail_is))]
pub fn write_tail(w: &mut Writer, scope: &Scope, es: &[Expr], d: u16) -> Result<(), NoMemory>
    ensures { OnOk result (w.new ≡ tail_written (exps_of (map exp_of es.now)) scope.now d w.old) }
{
    match only_of(es) {
        Some(e) => write_suffixed(w, scope, e, d, Want::AsResult),
        None => Ok(()),
    }
}

#[cycle(write)]
#[tactic(auto, using(crate::proofs::TreeLemmas::none_written))]
pub fn write_only(
    w: &mut Writer,
    scope: &Scope,
    es: &[Expr],
    d: u16,
    aim: Aim,
) -> Result<(), NoMemory>
    ensures { OnOk result (w.new ≡ only_written (exps_of (map exp_of es.now)) scope.now d aim w.old) }
{
    match only_of(es) {
        Some(e) => write_exp(w, scope, e, d, aim),
        None => Ok(()),
    }
}
