//! Quick operations, and calls and returns that take nothing new, with the frames and the row in hand.

ghost use Rattle.std.specs.Prelude.{◌≡◌, ◌<◌, ◌≤◌, length, IfSome, IfNone, Some};
ghost use Rattle.lua_code.specs.Valid.{IsValid};
ghost use Rattle.lua_steps.specs.Exec.{op_at};
ghost use Rattle.lua_machine.specs.Stack.{stacked};
ghost use Rattle.lua_machine.specs.Nests.{over};
ghost use Rattle.lua_machine.specs.Quick.{IsPass};
ghost use Rattle.lua_machine.specs.Stretch.{Stretched};

use crate::call_info::{CallInfo, Owner};
use crate::frame::Frame;
use crate::pace::{Halt, Pace, Reached};
use crate::pass::{function_at, pass};
use crate::quick::block_at;
use lua_code::Function;
use lua_heap::Heap;
use lua_steps::law_measure_falls;
use lua_value::Value;

/// Quick operations of the frame at a depth, if the row has its slots.
#[inline(always)]
fn hasten(
    code: &[Function],
    frames: &[Frame],
    depth: usize,
    row: &mut [Value],
    heap: &mut Heap,
    start: Pace,
) -> Option<Reached>
    requires valid { IsValid code.now }
    requires depth { depth < length frames.now }
    ensures ran { IfSome result (λ r. Stretched code.now heap.old.closures (stacked frames.now depth) row.old heap.old.cells start (stacked frames.now depth) row.new heap.new.cells r.pace) }
    ensures op { IfSome result (λ r. op_at code.now (stacked frames.now depth).top.function r.pace.at ≡ Some r.op) }
    ensures pass { IfSome result (λ r. IsPass r.pass r.op) }
    ensures place { IfSome result (λ r. r.pace.at < usize.MAX) }
    ensures heap { heap.new ≡ record heap.old { cells = heap.new.cells } }
    ensures none { IfNone result ((row.new ≡ row.old) × (heap.new ≡ heap.old)) }
{
    let top = &frames[depth];
    let Some(routine) = function_at(code, top.function) else {
        return None;
    };
    let base = top.base as usize;
    let end = base + routine.shape().slots as usize;
    let ops = routine.ops();
    if start.at >= ops.len() || row.len() < end {
        return None;
    }
    Some(block_at::<false>(
        code,
        top.function,
        ops,
        row,
        base,
        heap,
        Owner::Frame(top),
        start,
    ))
}

/// Runs the frame at a depth, and those that it calls and returns to, up to an operation that is not quick, or that comes to a stop.
pub fn stretch(
    code: &[Function],
    frames: &mut [Frame],
    depth: usize,
    calls: &mut [CallInfo],
    row: &mut [Value],
    heap: &mut Heap,
    start: Pace,
) -> Halt
    requires valid { IsValid code.now }
    requires depth { depth < length frames.old }
    ensures ran { Stretched code.now heap.old.closures (stacked frames.old depth) row.old heap.old.cells start (over heap.old.closures calls.new result.inner (stacked frames.new result.depth)) row.new heap.new.cells result.pace }
    ensures within { result.depth < length frames.new }
    ensures inner { result.inner ≤ length calls.new }
    ensures heap { heap.new ≡ record heap.old { cells = heap.new.cells } }
{
    law_measure_falls();
    let mut here = Halt {
        depth,
        inner: 0,
        pace: start,
    };
    'frames: loop {
        let Some(reached) = hasten(code, frames, here.depth, row, heap, here.pace) else {
            return here;
        };
        let Some(next) = pass(code, frames, here.depth, calls, row, heap, reached) else {
            return Halt {
                depth: here.depth,
                inner: 0,
                pace: reached.pace,
            };
        };
        if next.inner > 0 {
            return next;
        }
        here = next;
    }
}
