ghost use Rattle.std.specs.Prelude.{◌≡◌, ◌+◌, ◌<◌, [], ◌∷◌, ◌++◌, ◌≤◌, IfOk, OnOk, Some, slice_get, option_copied, replicate};
ghost use Rattle.lua_value.specs.declared.value.Value.TheVariants as value;
ghost use Rattle.lua_value.specs.Lists.{adjusted};
ghost use Rattle.lua_steps.specs.Machine as steps;
ghost use Rattle.lua_steps.specs.Moves.{received, written, values_from};
ghost use Rattle.lua_steps.specs.Calls.{room, grown, rest_of, opened, begins, enter, asked, calls, tail_calls, waiting, hand};
ghost use Rattle.lua_machine.specs.Passes.{Passed};
ghost use Rattle.lua_machine.specs.Views.{says, opened_as};
ghost use Rattle.lua_machine.specs.Wants.{wanted_of};

use crate::frame::{Frame, Wanted};
use crate::pass::function_at;
use crate::state::{Span, State, push_span};
use crate::stop::{NativeCall, Stop, Went};
use lua_code::{Function, Shape};
use lua_heap::Closure;
use lua_model::Refusal;
use lua_value::{Value, Values};
use sk_types::NoMemory;
use std::alloc::Global;
use std::collections::VecDeque;

/// How many slots a frame has: at least those that a short operand can name.
#[inline(always)]
pub fn room(shape: Shape) -> usize
    ensures { result ≡ room shape }
{
    if shape.slots < 256 {
        256
    } else {
        shape.slots as usize
    }
}

/// The arguments after the parameters, where the function keeps them.
fn rest_of(alloc: Global, shape: Shape, args: &[Value]) -> Result<Values, NoMemory>
    ensures { IfOk result (λ vs. vs ≡ rest_of shape.has_dots shape.params args.now) }
{
    let params = shape.params as usize;
    if shape.has_dots && params < args.len() {
        Values::from_slice(alloc, &args[params..])
    } else {
        Ok(Values::new(alloc))
    }
}

/// So many cells that nothing was put into.
fn no_cells(alloc: Global, count: u16) -> Result<Vec<u64>, NoMemory>
    ensures { IfOk result (λ cells. cells.items ≡ replicate count 0) }
{
    let mut cells = Vec::new(alloc);
    cells.resize(count as usize, 0)?;
    Ok(cells)
}

/// The frame of a closure's call, whose slots begin at `base`.
fn opened(
    alloc: Global,
    closure: &Closure,
    function: &Function,
    args: &[Value],
    base: u32,
) -> Result<Frame, NoMemory>
    ensures { IfOk result (λ frame. frame ≡ opened closure.now function.now args.now base) }
{
    let shape = function.shape();
    Ok(Frame {
        function: closure.function(),
        at: 0,
        base,
        cells: no_cells(alloc, shape.cells)?,
        ups: Vec::from_slice(alloc, closure.cells())?,
        dots: rest_of(alloc, shape, args)?,
        lists: VecDeque::new(alloc),
        wants: Wanted::OnTop,
    })
}

/// A frame that can be entered, and what its function needs.
#[derive(Drop)]
struct Callee {
    frame: Frame,
    shape: Shape,
}

impl State {
    /// The frame of a call of a closure; none where the code has no such function.
    fn open(
        &self,
        code: &[Function],
        closure: &Closure,
        args: &[Value],
        base: u32,
    ) -> Result<Option<Callee>, NoMemory>
        ensures { IfOk result (λ call. opened_as (slice_get code.now closure.now.function) closure.now args.now base call) }
    {
        let Some(function) = code.get(closure.function() as usize) else {
            return Ok(None);
        };
        Ok(Some(Callee {
            frame: opened(self.alloc, closure, function, args, base)?,
            shape: function.shape(),
        }))
    }

    /// The row has so many values at least.
    fn grow(&mut self, count: usize) -> Result<(), NoMemory>
        ensures { OnOk result (self.new ≡ record self.old { row = grown count self.old.row }) }
    {
        if self.row.len() < count {
            self.row.resize(count, Value::Nil)?;
        }
        Ok(())
    }

    /// The arguments become the first slots of a frame.
    fn place_args(&mut self, shape: Shape, args: &[Value], base: u32) -> Result<(), NoMemory>
        ensures { OnOk result (self.new ≡ record self.old { row = written (grown (base + room shape) self.old.row) base (adjusted shape.params args.now) }) }
    {
        self.grow(base as usize + room(shape))?;
        self.write(base as usize, shape.params as usize, args);
        Ok(())
    }

    /// A closure is called; the frame that runs waits for its values.
    fn call_closure(
        &mut self,
        code: &[Function],
        line: Option<u32>,
        closure: u64,
        args: &[Value],
        base: u32,
        wants: Wanted,
    ) -> Result<Went, NoMemory>
        requires { self.old.top.at < usize.MAX }
        ensures { IfOk result (λ went. enter code.now (slice_get self.old.closures closure) line (value.Func closure) args.now base (waiting (wanted_of wants) self.old.top ∷ self.old.below) self.old ≡ says went self.new) }
    {
        let Some(made) = self.heap.closure_at(closure) else {
            return self.refuse(line, Refusal::Call(Value::Func(closure)));
        };
        let Some(call) = self.open(code, made, args, base)? else {
            return Ok(Went::Stuck);
        };
        let Ok(()) = self.pay(u64::from(call.shape.pay)) else {
            return Ok(Went::Off(Stop::Budget));
        };
        self.place_args(call.shape, args, base)?;
        let top = self.stack.top_mut();
        top.wait(wants);
        self.stack.enter(call.frame)?;
        Ok(Went::On)
    }

    /// A closure's body takes the place of the one that runs.
    fn replace_body(
        &mut self,
        code: &[Function],
        line: u32,
        closure: u64,
        args: &[Value],
    ) -> Result<Went, NoMemory>
        ensures { IfOk result (λ went. enter code.now (slice_get self.old.closures closure) (Some line) (value.Func closure) args.now self.old.top.base self.old.below self.old ≡ says went self.new) }
    {
        let top = self.stack.top();
        let base = top.base;
        let Some(made) = self.heap.closure_at(closure) else {
            return self.refuse(Some(line), Refusal::Call(Value::Func(closure)));
        };
        let Some(call) = self.open(code, made, args, base)? else {
            return Ok(Went::Stuck);
        };
        let Ok(()) = self.pay(u64::from(call.shape.pay)) else {
            return Ok(Went::Off(Stop::Budget));
        };
        self.place_args(call.shape, args, base)?;
        let top = self.stack.top_mut();
        *top = call.frame;
        Ok(Went::On)
    }

    /// The further arguments, where the function keeps them, become those of the frame that runs.
    fn keep_dots(&mut self, shape: Shape, args: Span) -> Result<(), NoMemory>
        requires from { args.from < 10000000000 }
        requires none { self.old.top.dots ≡ [] }
        ensures { OnOk result (self.new ≡ record self.old { top = record self.old.top { dots = rest_of shape.has_dots shape.params (values_from self.old.row args.from args.count) } }) }
    {
        if !shape.has_dots {
            return Ok(());
        }
        let rest = Span {
            from: args.from + shape.params as usize,
            count: args.count.saturating_sub(shape.params),
        };
        let top = self.stack.top_mut();
        push_span(&mut top.dots, self.row.as_slice(), rest)?;
        Ok(())
    }

    /// Arguments that stand in the row become those of the frame that runs.
    fn take_args(&mut self, shape: Shape, args: Span, base: u32) -> Result<(), NoMemory>
        requires from { args.from < 10000000000 }
        requires none { self.old.top.dots ≡ [] }
        requires apart { args.from < base → args.from + args.count ≤ base }
        ensures { OnOk result (self.new ≡ record self.old { top = record self.old.top { dots = rest_of shape.has_dots shape.params (values_from self.old.row args.from args.count) }; row = written (grown (base + room shape) self.old.row) base (adjusted shape.params (values_from self.old.row args.from args.count)) }) }
    {
        self.keep_dots(shape, args)?;
        self.grow(base as usize + room(shape))?;
        self.shift(args, base as usize, shape.params);
        Ok(())
    }

    /// A closure is called with arguments that stand in the row; the frame that runs waits for its values.
    fn call_closure_with(
        &mut self,
        code: &[Function],
        line: Option<u32>,
        closure: u64,
        args: Span,
        base: u32,
        wants: Wanted,
    ) -> Result<Went, NoMemory>
        requires place { self.old.top.at < usize.MAX }
        requires from { args.from < 10000000000 }
        requires apart { args.from < base → args.from + args.count ≤ base }
        ensures { IfOk result (λ went. enter code.now (slice_get self.old.closures closure) line (value.Func closure) (values_from self.old.row args.from args.count) base (waiting (wanted_of wants) self.old.top ∷ self.old.below) self.old ≡ says went self.new) }
    {
        let Some(closure) = self.heap.closure_at(closure) else {
            return self.refuse(line, Refusal::Call(Value::Func(closure)));
        };
        let Some(function) = function_at(code, closure.function()) else {
            return Ok(Went::Stuck);
        };
        let shape = function.shape();
        if self.left < u64::from(shape.pay) {
            return Ok(Went::Off(Stop::Budget));
        }
        self.stack
            .begin(self.alloc, wants, closure, shape.cells, base)?;
        self.left -= u64::from(shape.pay);
        self.take_args(shape, args, base)?;
        Ok(Went::On)
    }

    /// A closure's body takes the place of the one that runs, with arguments that stand in the row.
    fn replace_body_with(
        &mut self,
        code: &[Function],
        line: u32,
        closure: u64,
        args: Span,
    ) -> Result<Went, NoMemory>
        requires from { args.from < 10000000000 }
        requires after { self.old.top.base ≤ args.from }
        ensures { IfOk result (λ went. enter code.now (slice_get self.old.closures closure) (Some line) (value.Func closure) (values_from self.old.row args.from args.count) self.old.top.base self.old.below self.old ≡ says went self.new) }
    {
        let Some(closure) = self.heap.closure_at(closure) else {
            return self.refuse(Some(line), Refusal::Call(Value::Func(closure)));
        };
        let Some(function) = function_at(code, closure.function()) else {
            return Ok(Went::Stuck);
        };
        let shape = function.shape();
        if self.left < u64::from(shape.pay) {
            return Ok(Went::Off(Stop::Budget));
        }
        let top = self.stack.top_mut();
        let base = top.base;
        top.reopen(closure.function(), closure.cells(), shape.cells, base)?;
        self.left -= u64::from(shape.pay);
        self.take_args(shape, args, base)?;
        Ok(Went::On)
    }

    /// The host is called, which costs a tick.
    fn ask(&mut self, called: Value, args: Values, wants: Wanted) -> Went
        requires { self.old.top.at < usize.MAX }
        ensures { asked self.old.left (record { called = called; args = args }) (record self.old { top = waiting (wanted_of wants) self.old.top }) ≡ says result self.new }
    {
        let top = self.stack.top_mut();
        top.wait(wants);
        if self.left == 0 {
            return Went::Off(Stop::Budget);
        }
        self.left -= 1;
        Went::Off(Stop::Native(NativeCall { called, args }))
    }

    /// A call with these arguments; the callee's slots begin at `base`.
    pub fn call(
        &mut self,
        code: &[Function],
        line: Option<u32>,
        called: Value,
        args: Values,
        base: u32,
        wants: Wanted,
    ) -> Result<Went, NoMemory>
        requires { self.old.top.at < usize.MAX }
        ensures { IfOk result (λ went. calls code.now line called args base (waiting (wanted_of wants) self.old.top) self.old ≡ says went self.new) }
    {
        match called {
            Value::Func(closure) => {
                self.call_closure(code, line, closure, args.as_slice(), base, wants)
            },
            Value::Native(_) => Ok(self.ask(called, args, wants)),
            _ => self.refuse(line, Refusal::Call(called)),
        }
    }

    /// A tail call with these arguments.
    pub fn tail_call(
        &mut self,
        code: &[Function],
        line: u32,
        called: Value,
        args: Values,
        base: u32,
    ) -> Result<Went, NoMemory>
        requires { self.old.top.at < usize.MAX }
        ensures { IfOk result (λ went. tail_calls code.now line called args base (waiting steps.OnTop self.old.top) self.old ≡ says went self.new) }
    {
        match called {
            Value::Func(closure) => self.replace_body(code, line, closure, args.as_slice()),
            _ => self.call(code, Some(line), called, args, base, Wanted::OnTop),
        }
    }

    /// The frame that waits gets these values.
    pub fn receive(&mut self, values: Values) -> Result<(), NoMemory>
        ensures { OnOk result (self.new ≡ received self.old.top.wants values self.old) }
    {
        let top = self.stack.top();
        match top.wants {
            Wanted::InSlots { to, count } => {
                let place = top.base as usize + to as usize;
                self.write(place, count as usize, values.as_slice());
            }
            Wanted::OnTop => {
                let top = self.stack.top_mut();
                top.lists.push_front(values)?;
            }
        }
        Ok(())
    }

    /// These values are the results of the body that runs.
    pub fn hand(&mut self, values: Values) -> Result<Went, NoMemory>
        ensures { IfOk result (λ went. hand values self.old.below self.old ≡ says went self.new) }
    {
        if !self.stack.leave() {
            return Ok(Went::Off(Stop::Return(values)));
        }
        self.receive(values)?;
        Ok(Went::On)
    }

    /// A call with arguments that stand in the row.
    pub fn call_with(
        &mut self,
        code: &[Function],
        line: Option<u32>,
        called: Value,
        args: Span,
        base: u32,
        wants: Wanted,
    ) -> Result<Went, NoMemory>
        requires place { self.old.top.at < usize.MAX }
        requires from { args.from < 10000000000 }
        requires apart { args.from < base → args.from + args.count ≤ base }
        ensures { IfOk result (λ went. calls code.now line called (values_from self.old.row args.from args.count) base (waiting (wanted_of wants) self.old.top) self.old ≡ says went self.new) }
    {
        if let Value::Func(closure) = called {
            return self.call_closure_with(code, line, closure, args, base, wants);
        }
        let values = self.values_of(args)?;
        self.call(code, line, called, values, base, wants)
    }

    /// A tail call with arguments that stand in the row.
    pub fn tail_call_with(
        &mut self,
        code: &[Function],
        line: u32,
        called: Value,
        args: Span,
        base: u32,
    ) -> Result<Went, NoMemory>
        requires place { self.old.top.at < usize.MAX }
        requires from { args.from < 10000000000 }
        requires after { self.old.top.base ≤ args.from }
        ensures { IfOk result (λ went. tail_calls code.now line called (values_from self.old.row args.from args.count) base (waiting steps.OnTop self.old.top) self.old ≡ says went self.new) }
    {
        if let Value::Func(closure) = called {
            return self.replace_body_with(code, line, closure, args);
        }
        let values = self.values_of(args)?;
        self.tail_call(code, line, called, values, base)
    }

    /// A return of values that stand in the row, where the frame that waits wants them in slots at the same place or before.
    pub fn hand_back(&mut self, values: Span) -> bool
        requires { values.from < 10000000000 }
        ensures { Passed result (hand (values_from self.old.row values.from values.count) self.old.below self.old) self.old self.new }
    {
        let Some(caller) = self.stack.caller() else {
            return false;
        };
        let Wanted::InSlots { to, count } = caller.wants else {
            return false;
        };
        let place = caller.base as usize + to as usize;
        if values.from < place {
            return false;
        }
        if !self.stack.leave() {
            return false;
        }
        self.shift(values, place, count);
        true
    }
}
