ghost use Rattle.std.specs.Prelude.{◌≡◌, [], ◌∷◌, ◌<◌, IfOk, OnOk, replicate};
ghost use Rattle.lua_steps.specs.Moves.{at_next};
ghost use Rattle.lua_steps.specs.Calls.{waiting};
ghost use Rattle.lua_machine.specs.Wants.{wanted_of};
ghost use Rattle.lua_machine.specs.Nests.{frame_of};
ghost use Rattle.lua_machine.specs.Stack.{plain};

use crate::call_info::CallInfo;
use lua_value::Values;
use sk_types::NoMemory;
use std::alloc::Global;
use std::collections::VecDeque;
use std::marker::Model;

/// Where the values go that a frame waits for.
#[derive(Clone, Copy)]
pub enum Wanted {
    /// The first `count` of them, filled with nil, to the slots from `to` on.
    InSlots { to: u32, count: u16 },
    /// All of them, as a list on top of the lists.
    OnTop,
}

/// A call of a function: where it is, and what it has beside its slots.
#[derive(Drop)]
pub struct Frame {
    pub function: u64,
    /// The operation that comes next.
    pub at: usize,
    /// Where its slots begin in the row.
    pub base: u32,
    /// The cells of its captured locals, and those of its closure.
    pub cells: Vec<u64>,
    pub ups: Vec<u64>,
    /// The further arguments, which `...` gives.
    pub dots: Values,
    /// Lists under construction, the last one first.
    pub lists: VecDeque<Values>,
    pub wants: Wanted,
}

impl Model for Frame {
    ghost use Rattle.lua_steps.specs.Machine as steps;
    ghost use Rattle.lua_machine.specs.Wants.{wanted_of};

    ghost Value = { steps.Frame };

    ghost view = { λ f. record {
      function = f.function;
      at = f.at;
      base = f.base;
      cells = f.cells.items;
      ups = f.ups.items;
      dots = f.dots;
      lists = f.lists.items;
      wants = wanted_of f.wants;
    } };
}

/// So many cells that nothing was put into.
#[inline(always)]
fn forget_cells(kept: &mut Vec<u64>, count: u16) -> Result<(), NoMemory>
    ensures { OnOk result (kept.new.items ≡ replicate count 0) }
{
    kept.clear();
    if count == 0 {
        return Ok(());
    }
    kept.resize(count as usize, 0)?;
    Ok(())
}

/// These cells, in place of those that were kept. One cell in the place of one makes no call.
#[inline(always)]
fn take_over(kept: &mut Vec<u64>, cells: &[u64]) -> Result<(), NoMemory>
    ensures { OnOk result (kept.new.items ≡ cells.now) }
{
    if kept.len() == 1 && cells.len() == 1 {
        kept[0] = cells[0];
        return Ok(());
    }
    kept.clear();
    kept.extend_from_slice(cells)?;
    Ok(())
}

#[inline(always)]
fn forget_lists(kept: &mut VecDeque<Values>)
    ensures { kept.new.items ≡ [] }
{
    if !kept.is_empty() {
        kept.clear();
    }
}

impl Frame {
    /// The cells of its captured locals.
    #[inline(always)]
    pub fn own_cells(&self) -> &[u64]
        ensures { result.now ≡ self.now.cells }
    {
        self.cells.as_slice()
    }

    /// The cells of its closure.
    #[inline(always)]
    pub fn up_cells(&self) -> &[u64]
        ensures { result.now ≡ self.now.ups }
    {
        self.ups.as_slice()
    }

    pub fn advance(&mut self)
        requires { self.old.at < usize.MAX }
        ensures { self.new ≡ at_next self.old }
    {
        self.at += 1;
    }

    pub fn jump(&mut self, to: u32)
        ensures { self.new ≡ record self.old { at = to } }
    {
        self.at = to as usize;
    }

    /// It has come to this place, and goes on after a call, whose values it wants so.
    #[inline(always)]
    pub fn wait_at(&mut self, at: usize, wants: Wanted)
        requires { at < usize.MAX }
        ensures { self.new ≡ waiting (wanted_of wants) (record self.old { at = at }) }
    {
        self.at = at + 1;
        self.wants = wants;
    }

    /// It goes on after a call, whose values it wants so.
    pub fn wait(&mut self, wants: Wanted)
        requires { self.old.at < usize.MAX }
        ensures { self.new ≡ waiting (wanted_of wants) self.old }
    {
        self.advance();
        self.wants = wants;
    }
}

impl Frame {
    /// A dead frame serves the call of a closure over these cells, whose function has so many cells of its own, and no `...`.
    #[inline(always)]
    pub fn reopen(
        &mut self,
        function: u64,
        ups: &[u64],
        cells: u16,
        base: u32,
    ) -> Result<(), NoMemory>
        ensures { OnOk result (self.new ≡ plain (record { function = function; cells = ups.now }) cells base) }
    {
        self.function = function;
        self.at = 0;
        self.base = base;
        forget_cells(&mut self.cells, cells)?;
        take_over(&mut self.ups, ups)?;
        self.dots.clear();
        forget_lists(&mut self.lists);
        self.wants = Wanted::OnTop;
        Ok(())
    }

    /// A new frame for such a call.
    pub fn open(
        alloc: Global,
        function: u64,
        ups: &[u64],
        cells: u16,
        base: u32,
    ) -> Result<Frame, NoMemory>
        ensures { IfOk result (λ frame. frame ≡ plain (record { function = function; cells = ups.now }) cells base) }
    {
        let mut frame = Frame {
            function,
            at: 0,
            base,
            cells: Vec::new(alloc),
            ups: Vec::new(alloc),
            dots: Values::new(alloc),
            lists: VecDeque::new(alloc),
            wants: Wanted::OnTop,
        };
        frame.reopen(function, ups, cells, base)?;
        Ok(frame)
    }

    /// A dead frame stands for an inner call, whose closure has these cells.
    #[inline(always)]
    pub fn take(&mut self, call: CallInfo, ups: &[u64]) -> Result<(), NoMemory>
        ensures { OnOk result (self.new ≡ record (frame_of [] call) { ups = ups.now }) }
    {
        let base = call.first_slot()?;
        self.reopen(call.function, ups, 0, base)?;
        self.at = call.at;
        self.wants = call.wants();
        Ok(())
    }

    /// A new frame for such a call.
    pub fn of_call(alloc: Global, call: CallInfo, ups: &[u64]) -> Result<Frame, NoMemory>
        ensures { IfOk result (λ frame. frame ≡ record (frame_of [] call) { ups = ups.now }) }
    {
        let base = call.first_slot()?;
        let mut frame = Frame::open(alloc, call.function, ups, 0, base)?;
        frame.at = call.at;
        frame.wants = call.wants();
        Ok(frame)
    }
}
