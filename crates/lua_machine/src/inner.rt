//! From a frame into inner calls, and back.

ghost use Rattle.std.specs.Prelude.{◌≡◌, ◌+◌, ◌<◌, ◌≤◌, length, IfSome, IfNone, Some};
ghost use Rattle.lua_code.specs.Valid.{IsValid};
ghost use Rattle.lua_code.specs.declared.op.Op.TheVariants as op;
ghost use Rattle.lua_steps.specs.Exec.{op_at};
ghost use Rattle.lua_machine.specs.Nests.{call_at, nested, over, Ready, Advanced};
ghost use Rattle.lua_machine.specs.Quick.{IsPass};
ghost use Rattle.lua_machine.specs.Stack.{stacked};
ghost use Rattle.lua_machine.specs.Stretch.{Goes, Stretched};

use crate::call_info::CallInfo;
use crate::frame::{Frame, Wanted};
use crate::nest::{Active, NestEnd, entry, hand_over, nest};
use crate::pace::{Halt, Pace, Pass};
use lua_code::Function;
use lua_heap::Heap;
use lua_value::Value;

/// A call of a closure that needs no frame of its own, from the frame at a depth, which waits for its values.
#[inline(always)]
fn call_inner<'a>(
    code: &'a [Function],
    frames: &mut [Frame],
    depth: usize,
    calls: &mut [CallInfo],
    row: &[Value],
    heap: &Heap,
    base: u16,
    args: u16,
    results: u16,
    pace: Pace,
) -> Option<Active<'a>>
    requires valid { IsValid code.now }
    requires within { depth < length frames.old }
    requires place { pace.at < usize.MAX }
    ensures goes { IfSome result (λ a. Goes code.now heap.now.closures (op.Call base args results) (stacked frames.old depth) row.now pace (nested heap.now.closures calls.new a.depth (stacked frames.new depth)) row.now a.pace) }
    ensures ready { IfSome result (λ a. Ready code.now heap.now.closures calls.new row.now a.depth a.function a.closure a.base a.ops.now a.pace.at) }
    ensures none { IfNone result (frames.new ≡ frames.old) }
{
    let top = &frames[depth];
    if calls.is_empty() || row.len() <= top.base as usize + base as usize {
        return None;
    }
    let Some(begun) = entry(code, row, heap, top.base as usize, base, args, pace.left) else {
        return None;
    };
    let callee = &mut calls[0];
    callee.begin(begun.function, begun.closure, begun.base);
    let wants = Wanted::InSlots {
        to: u32::from(base),
        count: results,
    };
    let top = &mut frames[depth];
    top.wait_at(pace.at, wants);
    Some(Active {
        depth: 0,
        function: begun.function,
        closure: begun.closure,
        base: begun.base,
        ops: begun.ops,
        pace: Pace {
            at: 0,
            left: begun.left,
        },
    })
}

/// A return from the outermost inner call to the frame at a depth.
#[inline(always)]
fn return_to_frame(
    _code: &[Function],
    frames: &[Frame],
    depth: usize,
    calls: &[CallInfo],
    row: &mut [Value],
    _heap: &Heap,
    from: u16,
    count: u16,
    pace: Pace,
) -> Option<Halt>
    requires within { depth < length frames.now }
    requires inner { 0 < length calls.now }
    ensures goes { IfSome result (λ h. Goes _code.now _heap.now.closures (op.Return from count) (nested _heap.now.closures calls.now 0 (stacked frames.now depth)) row.old pace (stacked frames.now depth) row.new h.pace) }
    ensures depth { IfSome result (λ h. h.depth ≡ depth) }
    ensures inner { IfSome result (λ h. h.inner ≡ 0) }
    ensures none { IfNone result (row.new ≡ row.old) }
{
    let caller = &frames[depth];
    let top = &calls[0];
    let Some(place) = top.base.checked_add(from as usize) else {
        return None;
    };
    if !hand_over(row, caller.wants, caller.base, place, count) {
        return None;
    }
    Some(Halt {
        depth,
        inner: 0,
        pace: Pace {
            at: caller.at,
            left: pace.left,
        },
    })
}

/// Where a run of inner calls leaves the frame at a depth: where the outermost of them returns, the frame goes on.
#[inline(always)]
fn leave_nest(
    code: &[Function],
    frames: &[Frame],
    depth: usize,
    calls: &[CallInfo],
    row: &mut [Value],
    heap: &Heap,
    end: NestEnd,
) -> Halt
    requires within { depth < length frames.now }
    requires inner { end.depth < length calls.now }
    requires op { op_at code.now (call_at calls.now end.depth).function end.reached.pace.at ≡ Some end.reached.op }
    requires pass { IsPass end.reached.pass end.reached.op }
    ensures ran { Stretched code.now heap.now.closures (nested heap.now.closures calls.now end.depth (stacked frames.now depth)) row.old heap.now.cells end.reached.pace (over heap.now.closures calls.now result.inner (stacked frames.now result.depth)) row.new heap.now.cells result.pace }
    ensures depth { result.depth ≡ depth }
    ensures inner { result.inner ≤ length calls.now }
{
    let halt = Halt {
        depth,
        inner: end.depth + 1,
        pace: end.reached.pace,
    };
    if end.depth > 0 {
        return halt;
    }
    let Pass::Return { from, count } = end.reached.pass else {
        return halt;
    };
    let pace = end.reached.pace;
    match return_to_frame(code, frames, depth, calls, row, heap, from, count, pace) {
        Some(back) => back,
        None => halt,
    }
}

/// A call of a closure that needs no frame of its own, from the frame at a depth, and all that it leads to within the stretch.
#[inline(always)]
pub fn run_inner(
    code: &[Function],
    frames: &mut [Frame],
    depth: usize,
    calls: &mut [CallInfo],
    row: &mut [Value],
    heap: &mut Heap,
    base: u16,
    args: u16,
    results: u16,
    pace: Pace,
) -> Option<Halt>
    requires valid { IsValid code.now }
    requires within { depth < length frames.old }
    requires place { pace.at < usize.MAX }
    requires op { op_at code.now (stacked frames.old depth).top.function pace.at ≡ Some (op.Call base args results) }
    ensures advanced { IfSome result (λ h. Advanced code.now heap.old.closures (stacked frames.old depth) row.old heap.old.cells pace (over heap.old.closures calls.new h.inner (stacked frames.new h.depth)) row.new heap.new.cells h.pace) }
    ensures depth { IfSome result (λ h. h.depth ≡ depth) }
    ensures inner { IfSome result (λ h. h.inner ≤ length calls.new) }
    ensures heap { heap.new ≡ record heap.old { cells = heap.new.cells } }
    ensures none { IfNone result ((frames.new ≡ frames.old) × (row.new ≡ row.old) × (heap.new ≡ heap.old)) }
{
    let Some(active) = call_inner(
        code, frames, depth, calls, row, heap, base, args, results, pace,
    ) else {
        return None;
    };
    let end = nest(code, calls, row, heap, active);
    Some(leave_nest(code, frames, depth, calls, row, heap, end))
}
