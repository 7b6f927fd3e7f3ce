//! The code of statements, blocks and functions: one function for each definition.

ghost use Rattle.std.specs.Prelude.{◌≡◌, ℕ, [], length, map, option_map, IfOk, OnOk};
ghost use Rattle.lua_tree.specs.Source.{body, Assign, Invoke, Local, LocalFunction};
ghost use Rattle.lua_tree.specs.View.{exp_of, exps_of, body_of, block_of, stat_of, stats_of, branch_of, branches_of, else_of, numeric_of, generic_of, target_of, targets_of};
ghost use Rattle.lua_code.specs.declared.op.Op.TheVariants as op;
ghost use Rattle.lua_steps.specs.Stand.{from_slots, from_items};
ghost use Rattle.lua_compile.specs.Writer.{put, resumed};
ghost use Rattle.lua_compile.specs.Forms.{prepay, numeric_written, generic_written, only_slot, only_direct, directly, stores_written};
ghost use Rattle.lua_compile.specs.Written.{body_written, block_written, block_known, stats_written, stats_known, stat_written, stat_known, else_written, values_written, only_written, list_written};
ghost use Rattle.lua_compile.specs.Parts.{returned, step_written, while_written, repeat_written, assigned};

use crate::aim::Aim;
use crate::assign::{direct_slot, names_of, store_items, store_slots};
use crate::block::{close_op, know_function, paid_before, prepay};
use crate::expression::{
    ANYWHERE, write_exp, write_fixed, write_list, write_many, write_only, write_tail, write_values,
};
use crate::list::{is_many, is_only, is_tail, only_shown, slots_fit};
use crate::number::{slot_after, slot_of};
use crate::scope::Scope;
use crate::writer::Writer;
use lua_code::{Op, Shape};
use lua_tree::{Block, Body, Branch, Expr, GenericFor, NumericFor, Stat, Target};
use sk_types::{Bytes, NoMemory};

// What the function returns.
#[cycle(write)]
#[tactic(auto, using(crate::proofs::TreeLemmas::count_exps))]
fn write_return(w: &mut Writer, scope: &Scope, es: &[Expr]) -> Result<(), NoMemory>
    ensures { OnOk result (w.new ≡ returned (exps_of (map exp_of es.now)) scope.now w.old) }
{
    let free = scope.free();
    if is_tail(es) {
        return write_tail(w, scope, es, free);
    }
    if is_only(es) {
        write_only(w, scope, es, free, ANYWHERE)?;
        return w.return_shown(only_shown(es, scope, free, ANYWHERE));
    }
    if slots_fit(es) {
        let count = slot_of(es.len())?;
        write_fixed(w, scope, es, free)?;
        return w.put(Op::Return { from: free, count });
    }
    w.put(Op::Begin)?;
    write_list(w, scope, es, free)?;
    w.put(Op::ReturnList)
}

// A function inside. Its number.
#[cycle(write)]
pub fn write_function(w: &mut Writer, scope: &Scope, body: &Body) -> Result<u32, NoMemory>
    ensures function { IfOk result (λ g. g ≡ length (body_written (body_of body.now) scope.now.names w.old).made) }
    ensures writer { OnOk result (w.new ≡ resumed (body_written (body_of body.now) scope.now.names w.old) w.old) }
{
    let inner = write_body(w, scope, body.names.as_slice(), body.has_dots, &body.block)?;
    w.resume(inner)
}

// A function up to its end, in a scope with these names outside.
#[cycle(write)]
pub fn write_body<'a>(
    outer: &mut Writer<'a>,
    outside: &Scope,
    names: &[Bytes],
    has_dots: bool,
    block: &Block,
) -> Result<Writer<'a>, NoMemory>
    ensures inner { IfOk result (λ inner. inner ≡ body_written (body names.now has_dots (block_of block.now)) outside.now.names outer.old) }
    ensures outer { OnOk result (outer.new ≡ record outer.old { made = [] }) }
{
    let paid = prepay(block);
    let params = slot_of(names.len())?;
    let shape = Shape {
        params,
        pay: paid + 1,
        has_dots,
        slots: params,
        cells: 0,
    };
    let mut scope = outside.inside()?;
    let mut w = outer.begin(shape, outside)?;
    w.declare_all(&mut scope, names)?;
    write_block(&mut w, &mut scope, block, paid, None)?;
    w.put(Op::Return { from: 0, count: 0 })?;
    Ok(w)
}

// A block, whose locals stay in scope. So many ticks are paid in advance, and a `break` jumps to the exit.
#[cycle(write)]
fn write_block(
    w: &mut Writer,
    scope: &mut Scope,
    block: &Block,
    paid: u8,
    exit: Option<u32>,
) -> Result<(), NoMemory>
    ensures writer { OnOk result (w.new ≡ block_written (block_of block.now) scope.old paid exit w.old) }
    ensures scope { OnOk result (scope.new ≡ block_known (block_of block.now) scope.old paid exit w.old) }
{
    write_stats(w, scope, block.stats.as_slice(), paid, exit)?;
    match &block.result {
        Some(es) => write_return(w, scope, es.as_slice()),
        None => Ok(()),
    }
}

// A block whose locals go out of scope at its end.
#[cycle(write)]
#[tactic(auto, using(crate::proofs::ScopeLemmas::closes_block))]
fn write_closed(
    w: &mut Writer,
    scope: &mut Scope,
    block: &Block,
    paid: u8,
    exit: Option<u32>,
) -> Result<(), NoMemory>
    ensures writer { OnOk result (w.new ≡ block_written (block_of block.now) scope.old paid exit w.old) }
    ensures scope { OnOk result (scope.new ≡ scope.old) }
{
    let outside = scope.extent();
    write_block(w, scope, block, paid, exit)?;
    scope.close(outside);
    Ok(())
}

#[cycle(write)]
fn write_stats(
    w: &mut Writer,
    scope: &mut Scope,
    stats: &[Stat],
    paid: u8,
    exit: Option<u32>,
) -> Result<(), NoMemory>
    ensures writer { OnOk result (w.new ≡ stats_written (stats_of (map stat_of stats.now)) scope.old paid exit w.old) }
    ensures scope { OnOk result (scope.new ≡ stats_known (stats_of (map stat_of stats.now)) scope.old paid exit w.old) }
{
    let mut left = paid;
    for stat in stats {
        write_stat(w, scope, stat, left, exit)?;
        left = 0;
    }
    w.lose_if(left != 0);
    Ok(())
}

#[cycle(write)]
#[tactic(auto, using(crate::proofs::TreeLemmas::if_branches))]
fn write_stat(
    w: &mut Writer,
    scope: &mut Scope,
    stat: &Stat,
    paid: u8,
    exit: Option<u32>,
) -> Result<(), NoMemory>
    ensures writer { OnOk result (w.new ≡ stat_written (stat_of stat.now) scope.old paid exit w.old) }
    ensures scope { OnOk result (scope.new ≡ stat_known (stat_of stat.now) scope.old paid exit w.old) }
{
    match stat {
        Stat::Assign(targets, values) => {
            write_assign(w, scope, values.as_slice(), targets.as_slice(), paid)
        }
        Stat::Invoke(call) => write_invoke(w, scope, call, paid),
        Stat::Break => {
            w.tick(paid)?;
            w.write_break(exit)
        }
        Stat::Do(block) => {
            let more = prepay(block);
            w.tick_more(paid, more)?;
            write_closed(w, scope, block, paid_before(paid, more), exit)
        }
        Stat::While(_, _) => write_while(w, scope, stat, paid),
        Stat::Repeat(_, _) => write_repeat(w, scope, stat, paid),
        Stat::If(branches, other) => {
            let branches = branches.as_slice();
            if branches.len() == 0 {
                w.tick_more(paid, 0)?;
                w.lose_if(paid_before(paid, 0) != 0);
                return Ok(());
            }
            w.tick(paid)?;
            let end = w.new_label()?;
            write_branches(w, scope, branches, other, exit, end)?;
            write_else(w, scope, other, exit)?;
            w.place_here(end);
            Ok(())
        }
        Stat::Numeric(numeric) => write_numeric(w, scope, numeric, paid),
        Stat::Generic(generic) => write_generic(w, scope, generic, paid),
        Stat::Local(names, values) => {
            write_local(w, scope, names.as_slice(), values.as_slice(), paid)
        }
        Stat::LocalFunction(name, body) => write_local_function(w, scope, name, body, paid),
    }
}

#[cycle(write)]
fn write_assign(
    w: &mut Writer,
    scope: &Scope,
    values: &[Expr],
    targets: &[Target],
    paid: u8,
) -> Result<(), NoMemory>
    ensures { OnOk result (w.new ≡ stat_written (Assign (targets_of (map target_of targets.now)) (exps_of (map exp_of values.now))) scope.now paid None w.old) }
{
    match names_of(w.alloc(), targets)? {
        None => {
            w.lose_if(true);
            Ok(())
        }
        Some(names) => {
            w.tick(paid)?;
            write_values_to(w, scope, names.as_slice(), values)
        }
    }
}

#[cycle(write)]
fn write_values_to(
    w: &mut Writer,
    scope: &Scope,
    names: &[Bytes],
    values: &[Expr],
) -> Result<(), NoMemory>
    ensures { OnOk result (w.new ≡ assigned names.now (exps_of (map exp_of values.now)) scope.now w.old) }
{
    if names.len() < 51 {
        write_values_in_slots(w, scope, names, values)
    } else {
        write_values_in_list(w, scope, names, values)
    }
}

// The value of the only target is made in its slot, or all values are in slots before the first store.
#[cycle(write)]
fn write_values_in_slots(
    w: &mut Writer,
    scope: &Scope,
    names: &[Bytes],
    values: &[Expr],
) -> Result<(), NoMemory>
    ensures { OnOk result (w.new ≡ directly (only_slot names.now scope.now.names) (only_direct (exps_of (map exp_of values.now))) (stores_written (from_slots names.now scope.now.free []) scope.now.free scope.now.names (values_written (exps_of (map exp_of values.now)) (length names.now) scope.now scope.now.free w.old)) (λ s. only_written (exps_of (map exp_of values.now)) scope.now scope.now.free (Aim.Into s) w.old)) }
{
    let first = scope.free();
    match direct_slot(names, values, scope) {
        Some(slot) => write_only(w, scope, values, first, Aim::Into(slot)),
        None => {
            let count = slot_of(names.len())?;
            write_values(w, scope, values, count, first)?;
            store_slots(w, scope, names, first)
        }
    }
}

#[cycle(write)]
fn write_values_in_list(
    w: &mut Writer,
    scope: &Scope,
    names: &[Bytes],
    values: &[Expr],
) -> Result<(), NoMemory>
    ensures { OnOk result (w.new ≡ put (op.Spread scope.now.free 0) (stores_written (from_items names.now 0 []) scope.now.free scope.now.names (list_written (exps_of (map exp_of values.now)) scope.now scope.now.free (put op.Begin w.old)))) }
{
    let to = scope.free();
    w.put(Op::Begin)?;
    write_list(w, scope, values, to)?;
    store_items(w, scope, names)?;
    w.put(Op::Spread { to, count: 0 })
}

// An expression whose values nothing takes.
#[cycle(write)]
fn write_invoke(w: &mut Writer, scope: &Scope, e: &Expr, paid: u8) -> Result<(), NoMemory>
    ensures { OnOk result (w.new ≡ stat_written (Invoke (exp_of e.now)) scope.now paid None w.old) }
{
    w.tick(paid)?;
    if is_many(e) {
        return write_many(w, scope, e, 0, scope.free());
    }
    write_exp(w, scope, e, scope.free(), ANYWHERE)
}

#[cycle(write)]
fn write_while(w: &mut Writer, scope: &mut Scope, stat: &Stat, paid: u8) -> Result<(), NoMemory>
    ensures writer { OnOk result (w.new ≡ while_written (stat_of stat.now) scope.old paid w.old) }
    ensures scope { OnOk result (scope.new ≡ scope.old) }
{
    let Stat::While(test, block) = stat else {
        return Ok(());
    };
    w.tick(paid)?;
    let more = prepay(block);
    let (after, again, body) = w.three_labels()?;
    w.put(Op::Jump { at: again })?;
    w.place_here(body);
    write_closed(w, scope, block, more, Some(after))?;
    w.place_here(again);
    let holds = Aim::Unless { at: after, pay: 0 };
    write_exp(w, scope, test, scope.free(), holds)?;
    w.put(Op::Loop {
        pay: more + 1,
        at: body,
    })?;
    w.place_here(after);
    Ok(())
}

// The condition sees the locals of the block.
#[cycle(write)]
#[tactic(auto, using(crate::proofs::ScopeLemmas::closes_block))]
fn write_repeat(w: &mut Writer, scope: &mut Scope, stat: &Stat, paid: u8) -> Result<(), NoMemory>
    ensures writer { OnOk result (w.new ≡ repeat_written (stat_of stat.now) scope.old paid w.old) }
    ensures scope { OnOk result (scope.new ≡ scope.old) }
{
    let Stat::Repeat(block, condition) = stat else {
        return Ok(());
    };
    let more = prepay(block);
    w.tick_twice(paid, more)?;
    let (after, again, body) = w.three_labels()?;
    w.place_here(body);
    let outside = scope.extent();
    write_block(w, scope, block, more, Some(after))?;
    let holds = Aim::Unless { at: again, pay: 0 };
    write_exp(w, scope, condition, scope.free(), holds)?;
    scope.close(outside);
    w.put(Op::Jump { at: after })?;
    w.place_here(again);
    w.put(Op::Loop {
        pay: more + 1,
        at: body,
    })?;
    w.place_here(after);
    Ok(())
}

#[cycle(write)]
fn write_branches(
    w: &mut Writer,
    scope: &mut Scope,
    branches: &[Branch],
    other: &Option<Block>,
    exit: Option<u32>,
    end: u32,
) -> Result<(), NoMemory>
    ensures writer { OnOk result (else_written (branches_of (map branch_of branches.now) (else_of (option_map block_of other.now))) scope.old exit end w.old ≡ else_written (else_of (option_map block_of other.now)) scope.old exit end w.new) }
    ensures scope { OnOk result (scope.new ≡ scope.old) }
{
    for (i, branch) in branches.iter().enumerate() {
        let next = w.new_label()?;
        let pay = prepay(&branch.block);
        let holds = Aim::Unless { at: next, pay };
        write_exp(w, scope, &branch.test, scope.free(), holds)?;
        write_closed(w, scope, &branch.block, pay, exit)?;
        w.jump_to_end(&branches[i + 1..], other, end)?;
        w.place_here(next);
    }
    Ok(())
}

#[cycle(write)]
fn write_else(
    w: &mut Writer,
    scope: &mut Scope,
    other: &Option<Block>,
    exit: Option<u32>,
) -> Result<(), NoMemory>
    ensures writer { (end : ℕ) → OnOk result (w.new ≡ else_written (else_of (option_map block_of other.now)) scope.old exit end w.old) }
    ensures scope { OnOk result (scope.new ≡ scope.old) }
{
    match other {
        Some(block) => write_closed(w, scope, block, 0, exit),
        None => Ok(()),
    }
}

#[cycle(write)]
fn write_step(w: &mut Writer, scope: &Scope, step: &Option<Expr>, to: u16) -> Result<(), NoMemory>
    ensures { OnOk result (w.new ≡ step_written (option_map exp_of step.now) scope.now to w.old) }
{
    match step {
        Some(e) => write_exp(w, scope, e, to, Aim::Into(to)),
        None => w.write_int(to, 1),
    }
}

#[cycle(write)]
fn write_numeric(
    w: &mut Writer,
    scope: &mut Scope,
    numeric: &NumericFor,
    paid: u8,
) -> Result<(), NoMemory>
    ensures writer { OnOk result (w.new ≡ stat_written (numeric_of numeric.now) scope.old paid None w.old) }
    ensures scope { OnOk result (scope.new ≡ scope.old) }
{
    w.tick(paid)?;
    let first = scope.free();
    let limit = slot_after(first, 1)?;
    let step = slot_after(first, 2)?;
    write_exp(w, scope, &numeric.first, first, Aim::Into(first))?;
    write_exp(w, scope, &numeric.limit, limit, Aim::Into(limit))?;
    write_step(w, scope, &numeric.step, step)?;
    write_numeric_loop(w, scope, &numeric.name, &numeric.block, numeric.line)
}

#[cycle(write)]
#[tactic(auto, using(crate::proofs::ScopeLemmas::closes_numeric))]
fn write_numeric_loop(
    w: &mut Writer,
    scope: &mut Scope,
    name: &Bytes,
    block: &Block,
    line: u32,
) -> Result<(), NoMemory>
    ensures writer { OnOk result (w.new ≡ numeric_written name.now scope.old line (prepay (block_of block.now)) (λ inner out t. block_written (block_of block.now) inner (prepay (block_of block.now)) out t) w.old) }
    ensures scope { OnOk result (scope.new ≡ scope.old) }
{
    let paid = prepay(block);
    let base = scope.free();
    let outside = scope.extent();
    let (after, body) = w.two_labels()?;
    w.emit(
        Op::ForPrep {
            pay: paid + 1,
            base,
            at: after,
        },
        line,
    )?;
    w.place_here(body);
    scope.take(3)?;
    w.declare(scope, name)?;
    write_block(w, scope, block, paid, Some(after))?;
    scope.close(outside);
    w.put(Op::ForLoop {
        pay: paid + 1,
        base,
        at: body,
    })?;
    w.place_here(after);
    Ok(())
}

#[cycle(write)]
fn write_generic(
    w: &mut Writer,
    scope: &mut Scope,
    generic: &GenericFor,
    paid: u8,
) -> Result<(), NoMemory>
    ensures writer { OnOk result (w.new ≡ stat_written (generic_of generic.now) scope.old paid None w.old) }
    ensures scope { OnOk result (scope.new ≡ scope.old) }
{
    w.tick(paid)?;
    write_values(w, scope, generic.values.as_slice(), 3, scope.free())?;
    write_generic_loop(
        w,
        scope,
        generic.names.as_slice(),
        &generic.block,
        generic.line,
    )
}

#[cycle(write)]
#[tactic(auto, using(crate::proofs::ScopeLemmas::closes_generic))]
fn write_generic_loop(
    w: &mut Writer,
    scope: &mut Scope,
    names: &[Bytes],
    block: &Block,
    line: u32,
) -> Result<(), NoMemory>
    ensures writer { OnOk result (w.new ≡ generic_written names.now scope.old line (prepay (block_of block.now)) (λ inner out t. block_written (block_of block.now) inner (prepay (block_of block.now)) out t) w.old) }
    ensures scope { OnOk result (scope.new ≡ scope.old) }
{
    let paid = prepay(block);
    let base = scope.free();
    let outside = scope.extent();
    let results = slot_of(names.len().max(1))?;
    let (after, again, body) = w.three_labels()?;
    w.put(Op::Jump { at: again })?;
    w.place_here(body);
    scope.take(3)?;
    w.declare_all(scope, names)?;
    write_block(w, scope, block, paid, Some(after))?;
    scope.close(outside);
    w.place_here(again);
    w.emit(Op::ForCall { base, results }, line)?;
    w.put(Op::ForEach {
        pay: paid + 1,
        base,
        at: body,
    })?;
    w.place_here(after);
    Ok(())
}

#[cycle(write)]
fn write_local(
    w: &mut Writer,
    scope: &mut Scope,
    names: &[Bytes],
    values: &[Expr],
    paid: u8,
) -> Result<(), NoMemory>
    ensures writer { OnOk result (w.new ≡ stat_written (Local names.now (exps_of (map exp_of values.now))) scope.old paid None w.old) }
    ensures scope { OnOk result (scope.new ≡ stat_known (Local names.now (exps_of (map exp_of values.now))) scope.old paid None w.old) }
{
    w.tick(paid)?;
    let count = slot_of(names.len())?;
    write_values(w, scope, values, count, scope.free())?;
    w.declare_all(scope, names)
}

#[cycle(write)]
fn write_local_function(
    w: &mut Writer,
    scope: &mut Scope,
    name: &Bytes,
    body: &Body,
    paid: u8,
) -> Result<(), NoMemory>
    ensures writer { OnOk result (w.new ≡ stat_written (LocalFunction name.now (body_of body.now)) scope.old paid None w.old) }
    ensures scope { OnOk result (scope.new ≡ stat_known (LocalFunction name.now (body_of body.now)) scope.old paid None w.old) }
{
    w.tick(paid)?;
    let shared = w.is_shared();
    let cells = scope.cells();
    let free = scope.free();
    know_function(scope, name, shared)?;
    w.count_local()?;
    let function = write_function(w, scope, body)?;
    w.put(close_op(cells, free, shared, function))
}
