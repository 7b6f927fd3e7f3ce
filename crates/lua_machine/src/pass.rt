//! Calls and returns that take nothing new: the arguments and the results stay in the row, and a dead frame serves.

ghost use Rattle.std.specs.Prelude.{◌≡◌, ◌+◌, ◌<◌, ◌≤◌, length, IfSome, IfNone, Some, slice_get, option_copied};
ghost use Rattle.lua_code.specs.Valid.{IsValid};
ghost use Rattle.lua_code.specs.declared.op.Op.TheVariants as op;
ghost use Rattle.lua_steps.specs.Exec.{op_at};
ghost use Rattle.lua_machine.specs.Nests.{over, Advanced};
ghost use Rattle.lua_machine.specs.Passes.{FitsIf};
ghost use Rattle.lua_machine.specs.Quick.{IsPass};
ghost use Rattle.lua_machine.specs.Stack.{plain, stacked};
ghost use Rattle.lua_machine.specs.Stretch.{Enters, Goes};
ghost use Rattle.lua_machine.specs.Wants.{wanted_of};

use crate::call_info::CallInfo;
use crate::calls::room;
use crate::frame::{Frame, Wanted};
use crate::inner::run_inner;
use crate::nest::hand_over;
use crate::pace::{Halt, Pace, Pass, Reached};
use crate::state::value_at;
use lua_code::{Function, Shape};
use lua_heap::{Closure, Heap};
use lua_value::Value;

/// Whether a body can begin with so many arguments at a place of the row, which is so long, and so many ticks.
#[inline(always)]
pub fn fits(shape: Shape, args: u16, place: usize, long: usize, left: u64) -> bool
    requires { place ≤ long }
    ensures { FitsIf result shape args place long left }
{
    if shape.has_dots {
        return false;
    }
    if args < shape.params {
        return false;
    }
    if long - place < room(shape) {
        return false;
    }
    left >= u64::from(shape.pay)
}

/// The function with this number.
#[inline(always)]
pub fn function_at(code: &[Function], number: u64) -> Option<&Function>
    ensures { option_copied result ≡ slice_get code.now number }
{
    code.get(number as usize)
}

/// The function with a number that is there.
#[inline(always)]
pub fn function_there(code: &[Function], number: u64) -> &Function
    requires { number < length code.now }
    ensures { slice_get code.now number ≡ Some result.now }
{
    &code[number as usize]
}

/// A call of a closure begins in the dead frame after the one at a depth, where there is one. The one at the depth, which has come to
/// that place, waits for its values.
#[inline(always)]
pub fn enter(
    frames: &mut [Frame],
    depth: usize,
    at: usize,
    wants: Wanted,
    closure: &Closure,
    cells: u16,
    base: u32,
) -> bool
    requires within { depth < length frames.old }
    requires place { at < usize.MAX }
    ensures { Enters result (wanted_of wants) (plain closure.now cells base) at frames.old depth frames.new }
{
    let next = depth + 1;
    if frames.len() <= next {
        return false;
    }
    let dead = &mut frames[next];
    let Ok(()) = dead.reopen(closure.function(), closure.cells(), cells, base) else {
        return false;
    };
    let top = &mut frames[depth];
    top.wait_at(at, wants);
    true
}

/// A call of a closure whose arguments stand where it takes them.
#[inline(always)]
fn pass_call(
    code: &[Function],
    frames: &mut [Frame],
    depth: usize,
    row: &[Value],
    heap: &Heap,
    base: u16,
    args: u16,
    results: u16,
    pace: Pace,
) -> Option<Pace>
    requires within { depth < length frames.old }
    requires place { pace.at < usize.MAX }
    ensures goes { IfSome result (λ p. Goes code.now heap.now.closures (op.Call base args results) (stacked frames.old depth) row.now pace (stacked frames.new (depth + 1)) row.now p) }
    ensures depth { IfSome result (λ p. depth + 1 < length frames.new) }
    ensures none { IfNone result (stacked frames.new depth ≡ stacked frames.old depth) }
{
    let top = &frames[depth];
    let Some(place) = top.base.checked_add(u32::from(base) + 1) else {
        return None;
    };
    let Value::Func(number) = value_at(row, top.base as usize + base as usize) else {
        return None;
    };
    let Some(closure) = heap.closure_at(number) else {
        return None;
    };
    let Some(function) = function_at(code, closure.function()) else {
        return None;
    };
    let shape = function.shape();
    let from = place as usize;
    if row.len() < from || !fits(shape, args, from, row.len(), pace.left) {
        return None;
    }
    let wants = Wanted::InSlots {
        to: u32::from(base),
        count: results,
    };
    if !enter(frames, depth, pace.at, wants, closure, shape.cells, place) {
        return None;
    }
    Some(Pace {
        at: 0,
        left: pace.left - u64::from(shape.pay),
    })
}

/// A call of a closure, in an inner call where that will do, and else in a dead frame.
#[inline(always)]
fn pass_any_call(
    code: &[Function],
    frames: &mut [Frame],
    depth: usize,
    calls: &mut [CallInfo],
    row: &mut [Value],
    heap: &mut Heap,
    base: u16,
    args: u16,
    results: u16,
    pace: Pace,
) -> Option<Halt>
    requires valid { IsValid code.now }
    requires within { depth < length frames.old }
    requires place { pace.at < usize.MAX }
    requires op { op_at code.now (stacked frames.old depth).top.function pace.at ≡ Some (op.Call base args results) }
    ensures advanced { IfSome result (λ h. Advanced code.now heap.old.closures (stacked frames.old depth) row.old heap.old.cells pace (over heap.old.closures calls.new h.inner (stacked frames.new h.depth)) row.new heap.new.cells h.pace) }
    ensures depth { IfSome result (λ h. h.depth < length frames.new) }
    ensures inner { IfSome result (λ h. h.inner ≤ length calls.new) }
    ensures heap { heap.new ≡ record heap.old { cells = heap.new.cells } }
    ensures none { IfNone result ((stacked frames.new depth ≡ stacked frames.old depth) × (row.new ≡ row.old) × (heap.new ≡ heap.old)) }
{
    let inner = run_inner(
        code, frames, depth, calls, row, heap, base, args, results, pace,
    );
    if let Some(halt) = inner {
        return Some(halt);
    }
    let Some(pace) = pass_call(code, frames, depth, row, heap, base, args, results, pace) else {
        return None;
    };
    Some(Halt {
        depth: depth + 1,
        inner: 0,
        pace,
    })
}

/// A return from one frame to another.
#[inline(always)]
fn pass_return(
    _code: &[Function],
    frames: &[Frame],
    depth: usize,
    row: &mut [Value],
    _heap: &Heap,
    from: u16,
    count: u16,
    pace: Pace,
) -> Option<Halt>
    requires within { depth < length frames.now }
    ensures goes { IfSome result (λ h. Goes _code.now _heap.now.closures (op.Return from count) (stacked frames.now depth) row.old pace (stacked frames.now h.depth) row.new h.pace) }
    ensures depth { IfSome result (λ h. h.depth < length frames.now) }
    ensures inner { IfSome result (λ h. h.inner ≡ 0) }
    ensures none { IfNone result (row.new ≡ row.old) }
{
    if depth == 0 {
        return None;
    }
    let caller = &frames[depth - 1];
    let top = &frames[depth];
    let place = top.base as usize + from as usize;
    if !hand_over(row, caller.wants, caller.base, place, count) {
        return None;
    }
    Some(Halt {
        depth: depth - 1,
        inner: 0,
        pace: Pace {
            at: caller.at,
            left: pace.left,
        },
    })
}

/// The operation that was reached, where it is such a call or return, and what inner calls it leads to.
#[inline(always)]
pub fn pass(
    code: &[Function],
    frames: &mut [Frame],
    depth: usize,
    calls: &mut [CallInfo],
    row: &mut [Value],
    heap: &mut Heap,
    reached: Reached,
) -> Option<Halt>
    requires valid { IsValid code.now }
    requires within { depth < length frames.old }
    requires place { reached.pace.at < usize.MAX }
    requires op { op_at code.now (stacked frames.old depth).top.function reached.pace.at ≡ Some reached.op }
    requires pass { IsPass reached.pass reached.op }
    ensures advanced { IfSome result (λ h. Advanced code.now heap.old.closures (stacked frames.old depth) row.old heap.old.cells reached.pace (over heap.old.closures calls.new h.inner (stacked frames.new h.depth)) row.new heap.new.cells h.pace) }
    ensures depth { IfSome result (λ h. h.depth < length frames.new) }
    ensures inner { IfSome result (λ h. h.inner ≤ length calls.new) }
    ensures heap { heap.new ≡ record heap.old { cells = heap.new.cells } }
    ensures none { IfNone result ((stacked frames.new depth ≡ stacked frames.old depth) × (row.new ≡ row.old) × (heap.new ≡ heap.old)) }
{
    let pace = reached.pace;
    match reached.pass {
        Pass::Call {
            base,
            args,
            results,
        } => pass_any_call(
            code, frames, depth, calls, row, heap, base, args, results, pace,
        ),
        Pass::Return { from, count } => pass_return(
            code, frames, depth, row, heap, from, count, pace,
        ),
        Pass::Neither => None,
    }
}
