//! Inner calls: calls of closures, and returns from them, within a stretch. What runs needs no frame of its own, so that a call writes a
//! few words and a return reads them.

ghost use Rattle.std.specs.Prelude.{◌≡◌, ◌+◌, ◌<◌, ◌≤◌, length, IfSome, IfNone, Some, slice_get, slice_set};
ghost use Rattle.lua_code.specs.Valid.{IsValid};
ghost use Rattle.lua_code.specs.declared.op.Op.TheVariants as op;
ghost use Rattle.lua_value.specs.Lists.{value_at};
ghost use Rattle.lua_steps.specs.Moves.{values_from};
ghost use Rattle.lua_steps.specs.Exec.{op_at};
ghost use Rattle.lua_machine.specs.Nests.{call_at, Begins, HandedIf, HandedTo, Runnable, Ready, Reaches, Nests, Nested};
ghost use Rattle.lua_machine.specs.Quick.{IsPass};
ghost use Rattle.lua_machine.specs.Wants.{wanted_of};

use crate::call_info::{CallInfo, Owner};
use crate::frame::Wanted;
use crate::pace::{Pace, Pass, Reached};
use crate::pass::{fits, function_at, function_there};
use crate::quick::block_at;
use crate::slots::value_there;
use lua_code::{Function, Op};
use lua_heap::Heap;
use lua_steps::law_measure_falls;
use lua_value::Value;

/// What a call of a closure begins: a body of its function, with its cells and these slots, and the ticks that are left.
#[derive(Clone, Copy)]
pub struct Begun<'a> {
    pub function: u64,
    pub closure: u64,
    pub base: usize,
    pub ops: &'a [Op],
    pub left: u64,
}

/// The inner call that runs: how many there are below it, its function, its closure, where its slots begin, its operations, and its pace.
#[derive(Clone, Copy)]
pub struct Active<'a> {
    pub depth: usize,
    pub function: u64,
    pub closure: u64,
    pub base: usize,
    pub ops: &'a [Op],
    pub pace: Pace,
}

/// Where a run of inner calls came to: how many there are below the one that runs, and what it has reached.
#[derive(Clone, Copy)]
pub struct NestEnd {
    pub depth: usize,
    pub reached: Reached,
}

/// What a call begins whose arguments stand where it takes them, from a body whose slots begin at `from`, if it needs no frame of its own:
/// where it has no cells and no `...`.
#[inline(always)]
pub fn entry<'a>(
    code: &'a [Function],
    row: &[Value],
    heap: &Heap,
    from: usize,
    base: u16,
    args: u16,
    left: u64,
) -> Option<Begun<'a>>
    requires slot { from + base < length row.now }
    ensures begins { IfSome result (λ e. Begins code.now heap.now.closures row.now from base args left e.function e.closure e.base e.left) }
    ensures runs { IfSome result (λ e. Runnable code.now e.function e.ops.now e.base (length row.now)) }
{
    let Value::Func(number) = value_there(row, from + base as usize) else {
        return None;
    };
    let Some(closure) = heap.closure_at(number) else {
        return None;
    };
    let Some(routine) = function_at(code, closure.function()) else {
        return None;
    };
    let place = from + base as usize + 1;
    let shape = routine.shape();
    if shape.cells != 0 || !fits(shape, args, place, row.len(), left) {
        return None;
    }
    Some(Begun {
        function: closure.function(),
        closure: number,
        base: place,
        ops: routine.ops(),
        left: left - u64::from(shape.pay),
    })
}

/// A return to a frame that wants at most one value in its slots, which begin at `base`.
#[inline(always)]
pub fn hand_over(row: &mut [Value], wants: Wanted, base: u32, from: usize, count: u16) -> bool
    ensures { HandedIf result (wanted_of wants) base from count row.old row.new }
{
    let Wanted::InSlots { to, count: wanted } = wants else {
        return false;
    };
    let first = base as usize + to as usize;
    if row.len() < first + wanted as usize {
        return false;
    }
    if row.len() < from || row.len() - from < count as usize {
        return false;
    }
    hand_down(row, first, wanted, from, count)
}

/// A return of values that are there to the places from `to` on, which are there, if at most one is wanted.
#[inline(always)]
fn hand_down(row: &mut [Value], to: usize, wanted: u16, from: usize, count: u16) -> bool
    requires from { from + count ≤ length row.old }
    requires to { to + wanted ≤ length row.old }
    ensures { HandedTo result wanted to from count row.old row.new }
{
    if wanted > 1 {
        return false;
    }
    if wanted == 1 {
        move_down(row, to, from, count);
    }
    true
}

/// The first of so many values that are there goes to a place that is there, and nil if there is none.
#[inline(always)]
fn move_down(row: &mut [Value], to: usize, from: usize, count: u16)
    requires from { from + count ≤ length row.old }
    requires to { to < length row.old }
    ensures { row.new ≡ slice_set row.old to (value_at (values_from row.old from count) 0) }
{
    if count == 0 {
        row[to] = Value::Nil;
        return;
    }
    let value = value_there(row, from);
    row[to] = value;
}

/// Quick operations of the inner call that runs.
#[inline(always)]
fn hasten(
    code: &[Function],
    _calls: &[CallInfo],
    row: &mut [Value],
    heap: &mut Heap,
    active: Active<'_>,
) -> Reached
    requires valid { IsValid code.now }
    requires ready { Ready code.now heap.old.closures _calls.now row.old active.depth active.function active.closure active.base active.ops.now active.pace.at }
    ensures ran { Nested code.now heap.old.closures _calls.now active.entry.depth row.old heap.old.cells active.entry.pace _calls.now active.entry.depth row.new heap.new.cells result.pace }
    ensures op { op_at code.now (call_at _calls.now active.entry.depth).function result.pace.at ≡ Some result.op }
    ensures pass { IsPass result.pass result.op }
    ensures reaches { Reaches result.pass active.entry.base (length row.new) result.pace.at (length active.entry.ops.now) }
    ensures place { result.pace.at < usize.MAX }
    ensures heap { heap.new ≡ record heap.old { cells = heap.new.cells } }
{
    block_at::<true>(
        code,
        active.function,
        active.ops,
        row,
        active.base,
        heap,
        Owner::Closure(active.closure),
        active.pace,
    )
}

/// A call of a closure that needs no frame of its own, where there is a place for it.
#[inline(always)]
fn nest_call<'a>(
    code: &'a [Function],
    calls: &mut [CallInfo],
    here: Active<'a>,
    row: &[Value],
    heap: &Heap,
    base: u16,
    args: u16,
    results: u16,
    pace: Pace,
) -> Option<Active<'a>>
    requires valid { IsValid code.now }
    requires ready { Ready code.now heap.now.closures calls.old row.now here.depth here.function here.closure here.base here.ops.now here.pace.at }
    requires slot { here.base + base < length row.now }
    requires results { here.base + base + results ≤ length row.now }
    requires next { pace.at + 1 < length here.ops.now }
    ensures nests { IfSome result (λ a. Nests code.now heap.now.closures (op.Call base args results) calls.old here.entry.depth row.now pace calls.new a.depth row.now a.pace) }
    ensures ready { IfSome result (λ a. Ready code.now heap.now.closures calls.new row.now a.depth a.function a.closure a.base a.ops.now a.pace.at) }
    ensures none { IfNone result (calls.new ≡ calls.old) }
{
    let next = here.depth + 1;
    if calls.len() <= next {
        return None;
    }
    let Some(begun) = entry(code, row, heap, here.base, base, args, pace.left) else {
        return None;
    };
    let callee = &mut calls[next];
    callee.begin(begun.function, begun.closure, begun.base);
    let caller = &mut calls[here.depth];
    caller.wait(pace.at + 1, base, results);
    Some(Active {
        depth: next,
        function: begun.function,
        closure: begun.closure,
        base: begun.base,
        ops: begun.ops,
        pace: Pace {
            at: 0,
            left: begun.left,
        },
    })
}

/// A return from one inner call to another.
#[inline(always)]
fn nest_return<'a>(
    code: &'a [Function],
    calls: &[CallInfo],
    here: Active<'a>,
    row: &mut [Value],
    _heap: &Heap,
    from: u16,
    count: u16,
    pace: Pace,
) -> Option<Active<'a>>
    requires ready { Ready code.now _heap.now.closures calls.now row.old here.depth here.function here.closure here.base here.ops.now here.pace.at }
    requires values { here.base + from + count ≤ length row.old }
    ensures nests { IfSome result (λ a. Nests code.now _heap.now.closures (op.Return from count) calls.now here.entry.depth row.old pace calls.now a.depth row.new a.pace) }
    ensures ready { IfSome result (λ a. Ready code.now _heap.now.closures calls.now row.new a.depth a.function a.closure a.base a.ops.now a.pace.at) }
    ensures none { IfNone result (row.new ≡ row.old) }
{
    if here.depth == 0 {
        return None;
    }
    let depth = here.depth - 1;
    let caller = &calls[depth];
    let routine = function_there(code, caller.function);
    let place = here.base + from as usize;
    let to = caller.base + caller.to as usize;
    if !hand_down(row, to, caller.count, place, count) {
        return None;
    }
    Some(Active {
        depth,
        function: caller.function,
        closure: caller.closure,
        base: caller.base,
        ops: routine.ops(),
        pace: Pace {
            at: caller.at,
            left: pace.left,
        },
    })
}

/// The call or return that was reached, where it stays among inner calls.
#[inline(always)]
fn nest_pass<'a>(
    code: &'a [Function],
    calls: &mut [CallInfo],
    here: Active<'a>,
    row: &mut [Value],
    heap: &Heap,
    reached: Reached,
) -> Option<Active<'a>>
    requires valid { IsValid code.now }
    requires ready { Ready code.now heap.now.closures calls.old row.old here.depth here.function here.closure here.base here.ops.now here.pace.at }
    requires reaches { Reaches reached.pass here.base (length row.old) reached.pace.at (length here.ops.now) }
    requires pass { IsPass reached.pass reached.op }
    ensures nests { IfSome result (λ a. Nests code.now heap.now.closures reached.op calls.old here.entry.depth row.old reached.pace calls.new a.depth row.new a.pace) }
    ensures ready { IfSome result (λ a. Ready code.now heap.now.closures calls.new row.new a.depth a.function a.closure a.base a.ops.now a.pace.at) }
    ensures none { IfNone result ((calls.new ≡ calls.old) × (row.new ≡ row.old)) }
{
    let pace = reached.pace;
    match reached.pass {
        Pass::Call {
            base,
            args,
            results,
        } => nest_call(code, calls, here, row, heap, base, args, results, pace),
        Pass::Return { from, count } => nest_return(
            code, calls, here, row, heap, from, count, pace,
        ),
        Pass::Neither => None,
    }
}

/// Runs the inner call at a depth, and those that it calls and returns to, up to an operation that is not quick, or that comes to a stop.
pub fn nest<'a>(
    code: &'a [Function],
    calls: &mut [CallInfo],
    row: &mut [Value],
    heap: &mut Heap,
    start: Active<'a>,
) -> NestEnd
    requires valid { IsValid code.now }
    requires ready { Ready code.now heap.old.closures calls.old row.old start.depth start.function start.closure start.base start.ops.now start.pace.at }
    ensures ran { Nested code.now heap.old.closures calls.old start.entry.depth row.old heap.old.cells start.entry.pace calls.new result.depth row.new heap.new.cells result.reached.pace }
    ensures within { result.depth < length calls.new }
    ensures op { op_at code.now (call_at calls.new result.depth).function result.reached.pace.at ≡ Some result.reached.op }
    ensures pass { IsPass result.reached.pass result.reached.op }
    ensures place { result.reached.pace.at < usize.MAX }
    ensures heap { heap.new ≡ record heap.old { cells = heap.new.cells } }
{
    law_measure_falls();
    let mut here = start;
    'calls: loop {
        let reached = hasten(code, calls, row, heap, here);
        let Some(next) = nest_pass(code, calls, here, row, heap, reached) else {
            return NestEnd {
                depth: here.depth,
                reached,
            };
        };
        here = next;
    }
}
