ghost use Rattle.std.specs.Prelude.{◌≡◌, [], ◌∷◌, ◌<◌, ◌≤◌, length, IfOk, OnOk, slice_get, option_copied};
ghost use Rattle.std.specs.Borrow.{sem};
ghost use Rattle.lua_code.specs.Valid.{IsValid};
ghost use Rattle.lua_steps.specs.Calls.{waiting};
ghost use Rattle.lua_machine.specs.Lends.{LendsTop};
ghost use Rattle.lua_machine.specs.Nests.{frame_of, over};
ghost use Rattle.lua_machine.specs.Stack.{stacked, plain, Left, Reentered};
ghost use Rattle.lua_machine.specs.Settle.{KeepsPlace};
ghost use Rattle.lua_machine.specs.Stretch.{Hurried};
ghost use Rattle.lua_machine.specs.Wants.{wanted_of};

use crate::call_info::CallInfo;
use crate::cells::closure_cells;
use crate::frame::{Frame, Wanted};
use crate::pace::{Halt, Hurry, Pace};
use crate::pass::enter;
use crate::stretch::stretch;
use lua_code::Function;
use lua_heap::{Closure, Heap};
use lua_value::Value;
use sk_types::NoMemory;
use std::alloc::Global;
use std::marker::Model;

/// The frames of the running thread. Those past the depth are dead, and kept for the next calls.
#[derive(Drop)]
pub struct CallStack {
    frames: Vec<Frame>,
    depth: usize,
}

impl Model for CallStack {
    ghost use Rattle.std.specs.Prelude.{◌<◌, vec_len};
    ghost use Rattle.lua_machine.specs.Stack.{Stacked, stacked};

    ghost Value = { Stacked };

    ghost view = { λ s. stacked s.frames.items s.depth };

    ghost invariant = { λ s. s.depth < vec_len s.frames };
}

/// The place that a stretch has come to is kept where what runs is: in the last inner call, or in its frame if there is none.
#[inline(always)]
fn keep_place(frames: &mut [Frame], calls: &mut [CallInfo], halt: Halt)
    requires depth { halt.depth < length frames.old }
    requires inner { halt.inner ≤ length calls.old }
    ensures { KeepsPlace halt.inner halt.pace.at calls.old (stacked frames.old halt.depth) calls.new (stacked frames.new halt.depth) }
{
    if halt.inner == 0 {
        let top = &mut frames[halt.depth];
        top.at = halt.pace.at;
        return;
    }
    let last = &mut calls[halt.inner - 1];
    last.at = halt.pace.at;
}

impl CallStack {
    /// The frame that runs.
    #[inline(always)]
    pub fn top(&self) -> &Frame
        ensures { result.now ≡ self.now.top }
    {
        &self.frames[self.depth]
    }

    #[inline(always)]
    pub fn top_mut(&mut self) -> &mut Frame
        ensures* lends { sem 𝓛 (LendsTop self.entry result) }
        ensures value { result.now ≡ self.old.top }
    {
        &mut self.frames[self.depth]
    }

    /// A thread's frames begin with one.
    pub fn new(alloc: Global, frame: Frame) -> Result<CallStack, NoMemory>
        ensures { IfOk result (λ stack. stack ≡ record { top = frame; below = [] }) }
    {
        let mut frames = Vec::new(alloc);
        frames.push(frame)?;
        Ok(CallStack { frames, depth: 0 })
    }

    /// A call begins: the frame that ran waits for it.
    pub fn enter(&mut self, frame: Frame) -> Result<(), NoMemory>
        ensures { OnOk result (self.new ≡ record { top = frame; below = self.old.top ∷ self.old.below }) }
    {
        let next = self.depth + 1;
        if next < self.frames.len() {
            self.frames[next] = frame;
            self.depth = next;
            return Ok(());
        }
        self.frames.push(frame)?;
        self.depth = next;
        Ok(())
    }

    /// The frame that waits for the one that runs.
    pub fn caller(&self) -> Option<&Frame>
        ensures { option_copied result ≡ slice_get self.now.below 0 }
    {
        if self.depth == 0 {
            return None;
        }
        Some(&self.frames[self.depth - 1])
    }

    /// The frame that ran ends, and the one that waits for it goes on, where there is one.
    #[inline(always)]
    pub fn leave(&mut self) -> bool
        ensures { Left result self.old self.new }
    {
        if self.depth == 0 {
            return false;
        }
        self.depth -= 1;
        true
    }

    /// Runs quick operations, calls and returns over this row and this heap, with so many ticks; answers how many are left, and how many
    /// inner calls run over the frames.
    #[inline(always)]
    pub fn hurry(
        &mut self,
        code: &[Function],
        calls: &mut [CallInfo],
        row: &mut [Value],
        heap: &mut Heap,
        left: u64,
    ) -> Hurry
        requires { IsValid code.now }
        ensures ran { Hurried code.now heap.old.closures self.old row.old heap.old.cells left (over heap.old.closures calls.new result.inner self.new) row.new heap.new.cells result.left }
        ensures inner { result.inner ≤ length calls.new }
        ensures heap { heap.new ≡ record heap.old { cells = heap.new.cells } }
    {
        let frames = self.frames.as_mut_slice();
        let top = &frames[self.depth];
        let start = Pace { at: top.at, left };
        let halt = stretch(code, frames, self.depth, calls, row, heap, start);
        keep_place(frames, calls, halt);
        self.depth = halt.depth;
        Hurry {
            inner: halt.inner,
            left: halt.pace.left,
        }
    }

    /// An inner call over the frames becomes a frame of its own.
    fn settle_one(&mut self, alloc: Global, heap: &Heap, call: CallInfo) -> Result<(), NoMemory>
        ensures { OnOk result (self.new ≡ record { top = frame_of heap.now.closures call; below = self.old.top ∷ self.old.below }) }
    {
        let ups = closure_cells(heap, call.closure);
        let next = self.depth + 1;
        if next < self.frames.len() {
            let dead = &mut self.frames[next];
            dead.take(call, ups)?;
            self.depth = next;
            return Ok(());
        }
        let frame = Frame::of_call(alloc, call, ups)?;
        self.enter(frame)
    }

    /// These inner calls over the frames become frames of their own, so that operations of every kind can go on.
    pub fn settle(&mut self, alloc: Global, heap: &Heap, calls: &[CallInfo]) -> Result<(), NoMemory>
        ensures { OnOk result (self.new ≡ over heap.now.closures calls.now (length calls.now) self.old) }
    {
        'calls: for call in calls {
            self.settle_one(alloc, heap, *call)?;
        }
        Ok(())
    }

    /// The first `inner` of these do so. Mostly there are none.
    #[inline(always)]
    pub fn settle_inner(
        &mut self,
        alloc: Global,
        heap: &Heap,
        calls: &[CallInfo],
        inner: usize,
    ) -> Result<(), NoMemory>
        requires { inner ≤ length calls.now }
        ensures { OnOk result (self.new ≡ over heap.now.closures calls.now inner self.old) }
    {
        if inner == 0 {
            return Ok(());
        }
        self.settle(alloc, heap, &calls[..inner])
    }

    /// How many frames there are, with the dead ones.
    #[inline(always)]
    pub fn frame_count(&self) -> usize {
        self.frames.len()
    }

    /// A call of a closure begins in the dead frame after the one that runs, where there is one. The one that ran waits for its values.
    fn reenter(&mut self, wants: Wanted, closure: &Closure, cells: u16, base: u32) -> bool
        requires { self.old.top.at < usize.MAX }
        ensures { Reentered result (wanted_of wants) (plain closure.now cells base) self.old self.new }
    {
        let frames = self.frames.as_mut_slice();
        let top = &frames[self.depth];
        let at = top.at;
        if !enter(frames, self.depth, at, wants, closure, cells, base) {
            return false;
        }
        self.depth += 1;
        true
    }

    /// A call of a closure begins, in a dead frame where there is one, and else in a new one. The frame that ran waits for its values.
    pub fn begin(
        &mut self,
        alloc: Global,
        wants: Wanted,
        closure: &Closure,
        cells: u16,
        base: u32,
    ) -> Result<(), NoMemory>
        requires { self.old.top.at < usize.MAX }
        ensures { OnOk result (self.new ≡ record { top = plain closure.now cells base; below = waiting (wanted_of wants) self.old.top ∷ self.old.below }) }
    {
        if self.reenter(wants, closure, cells, base) {
            return Ok(());
        }
        let frame = Frame::open(alloc, closure.function(), closure.cells(), cells, base)?;
        let top = self.top_mut();
        top.wait(wants);
        self.enter(frame)?;
        Ok(())
    }
}
