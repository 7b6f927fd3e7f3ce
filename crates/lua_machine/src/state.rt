ghost use Rattle.std.specs.Prelude.{◌≡◌, ◌+◌, ◌-◌, ◌<◌, ◌≤◌, if◌then◌else◌, ltb, true, false, [], ◌++◌, slice_set, IfOk, OnOk, OnErr};
ghost use Rattle.lua_value.specs.declared.value.Value.TheVariants as value;
ghost use Rattle.lua_steps.specs.Machine as steps;
ghost use Rattle.lua_steps.specs.Moves.{next, jump, slot, with_slot, written, values_from, gives, made, raised, place, refused, answered};
ghost use Rattle.lua_steps.specs.Exec.{chosen, unless};
ghost use Rattle.lua_value.specs.Lists.{value_at, adjusted};
ghost use Rattle.lua_operators.specs.Answers.{told};
ghost use Rattle.lua_machine.specs.Views.{says, IsMade};

use crate::call_info::CallInfo;
use crate::stack::CallStack;
use crate::stop::{Stop, Went};
use lua_heap::{Heap, HeapFault};
use lua_model::{Refusal, position};
use lua_operators::Answer;
use lua_value::{Value, Values};
use sk_types::{Bytes, NoMemory};
use std::alloc::Global;
use std::marker::Model;

/// The thread that runs, and what it has made.
#[derive(Drop)]
pub struct State {
    pub alloc: Global,
    pub name: Bytes,
    pub heap: Heap,
    pub row: Vec<Value>,
    pub stack: CallStack,
    /// Places for the inner calls of a stretch; none of them lasts past it.
    pub calls: Vec<CallInfo>,
    pub left: u64,
}

impl Model for State {
    ghost use Rattle.std.specs.Prelude.{[], ◌∷◌};
    ghost use Rattle.lua_steps.specs.Machine as steps;

    ghost Value = { steps.Machine };

    ghost view = { λ s. record {
      top = s.stack.top;
      below = s.stack.below;
      row = s.row.items;
      cells = s.heap.cells;
      closures = s.heap.closures;
      left = s.left;
      aside = record { name = s.name; heap = s.heap.shared; running = 0; resumers = []; threads = steps.Busy ∷ [] };
    } };
}

/// The value at a place of a list, and nil past its end.
#[inline(always)]
pub fn value_at(values: &[Value], place: usize) -> Value
    ensures { result ≡ value_at values.now place }
{
    match values.get(place) {
        Some(value) => *value,
        None => Value::Nil,
    }
}

/// What stands before an error's text.
fn place(alloc: Global, name: &Bytes, line: Option<u32>) -> Result<Bytes, NoMemory>
    ensures { IfOk result (λ text. text ≡ place name.now line) }
{
    match line {
        None => Ok(Bytes::new(alloc)),
        Some(line) => {
            let text = position(alloc, name, line)?;
            Ok(text)
        }
    }
}

/// So many values of the row, from a place on.
#[derive(Clone, Copy)]
pub struct Span {
    pub from: usize,
    pub count: u16,
}

/// How many values of a span stand already from a place on.
fn standing(span: Span, to: usize) -> usize
    ensures within { result ≤ span.count }
    ensures there { 0 < result → span.from ≡ to }
{
    if span.from == to {
        span.count as usize
    } else {
        0
    }
}

/// The values of a span of the row go last into a list.
pub fn push_span(list: &mut Values, row: &[Value], span: Span) -> Result<(), NoMemory>
    requires { span.from < 100000000000 }
    ensures { OnOk result (list.new ≡ list.old ++ values_from row.now span.from span.count) }
{
    'values: for i in 0..span.count as usize {
        list.push(value_at(row, span.from + i))?;
    }
    Ok(())
}

/// The ticks pass the budget.
#[derive(Clone, Copy)]
pub struct Unpaid;

/// What comes of a string that is to be made.
#[derive(Clone, Copy)]
pub enum Made {
    Text(Value),
    Budget,
    HeapFull,
}

impl State {
    /// The next operation follows.
    pub fn goes_on(&mut self)
        requires { self.old.top.at < usize.MAX }
        ensures { next self.old ≡ steps.On self.new }
    {
        let top = self.stack.top_mut();
        top.advance();
    }

    pub fn jump(&mut self, to: u32)
        ensures { jump to self.old ≡ steps.On self.new }
    {
        let top = self.stack.top_mut();
        top.jump(to);
    }

    pub fn function(&self) -> u64
        ensures { result ≡ self.now.top.function }
    {
        let top = self.stack.top();
        top.function
    }

    pub fn base(&self) -> usize
        ensures sum { result ≡ self.now.top.base }
        ensures fits { result < 10000000000 }
    {
        let top = self.stack.top();
        top.base as usize
    }

    pub fn slot(&self, i: u16) -> Value
        ensures { result ≡ slot self.now i }
    {
        self.row_at(self.base() + i as usize)
    }

    /// The slot so many after another.
    pub fn slot_after(&self, base: u16, i: u16) -> Value
        ensures { result ≡ slot self.now (base + i) }
    {
        self.row_at(self.base() + base as usize + i as usize)
    }

    pub fn set_slot_after(&mut self, base: u16, i: u16, value: Value)
        ensures { self.new ≡ with_slot (base + i) value self.old }
    {
        self.set_row(self.base() + base as usize + i as usize, value);
    }

    /// Where a slot stands in the row.
    pub fn place_of(&self, slot: u32) -> usize
        ensures sum { result ≡ self.now.top.base + slot }
        ensures fits { result < 10000000000 }
    {
        let top = self.stack.top();
        top.base as usize + slot as usize
    }

    fn row_at(&self, place: usize) -> Value
        ensures { result ≡ value_at self.now.row place }
    {
        value_at(self.row.as_slice(), place)
    }

    pub fn set_row(&mut self, place: usize, value: Value)
        ensures { self.new ≡ record self.old { row = slice_set self.old.row place value } }
    {
        if let Some(kept) = self.row.get_mut(place) {
            *kept = value;
        }
    }

    pub fn set_slot(&mut self, i: u16, value: Value)
        ensures { self.new ≡ with_slot i value self.old }
    {
        self.set_row(self.base() + i as usize, value);
    }

    /// The value goes to a slot, and the next operation follows.
    pub fn gives(&mut self, to: u16, value: Value)
        requires { self.old.top.at < usize.MAX }
        ensures { gives to value self.old ≡ steps.On self.new }
    {
        self.set_slot(to, value);
        self.goes_on();
    }

    /// The first `count` of these values, filled with nil, stand from a place of the row on.
    pub fn write(&mut self, place: usize, count: usize, values: &[Value])
        requires { place + count < 100000000000 }
        ensures { self.new ≡ record self.old { row = written self.old.row place (adjusted count values.now) } }
    {
        'values: for i in 0..count {
            self.set_row(place + i, value_at(values, i));
        }
    }

    /// A value of a span, and nil past its end.
    fn value_in(&self, span: Span, i: usize) -> Value
        requires { span.from < 10000000000 }
        ensures { result ≡ (if ltb i span.count then value_at self.now.row (span.from + i) else value.Nil) }
    {
        if i < span.count as usize {
            self.row_at(span.from + i)
        } else {
            Value::Nil
        }
    }

    /// The first `count` values of a span, filled with nil, move to a place of the row and those after it. It lies not within the span.
    pub fn shift(&mut self, span: Span, to: usize, count: u16)
        requires from { span.from < 10000000000 }
        requires to { to < 10000000000 }
        requires apart { span.from < to → span.from + span.count ≤ to }
        ensures { self.new ≡ record self.old { row = written self.old.row to (adjusted count (values_from self.old.row span.from span.count)) } }
    {
        'values: for i in standing(span, to)..count as usize {
            self.set_row(to + i, self.value_in(span, i));
        }
    }

    /// The values of a span, as a list.
    pub fn values_of(&self, span: Span) -> Result<Values, NoMemory>
        requires { span.from < 10000000000 }
        ensures { IfOk result (λ vs. vs ≡ values_from self.now.row span.from span.count) }
    {
        let mut values = Values::new(self.alloc);
        push_span(&mut values, self.row.as_slice(), span)?;
        Ok(values)
    }

    /// So many ticks are paid, or they pass the budget.
    pub fn pay(&mut self, ticks: u64) -> Result<(), Unpaid>
        ensures ok { OnOk result ((ltb self.old.left ticks ≡ false) × (self.new ≡ record self.old { left = self.old.left - ticks })) }
        ensures err { OnErr result ((ltb self.old.left ticks ≡ true) × (self.new ≡ self.old)) }
        ensures alone { self.new.aside.resumers ≡ [] }
    {
        if self.left < ticks {
            return Err(Unpaid);
        }
        self.left -= ticks;
        Ok(())
    }

    /// A new string, whose ticks come before its units.
    pub fn make(&mut self, bytes: &[u8]) -> Result<Made, NoMemory>
        ensures { IfOk result (λ text. IsMade bytes.now self.old text self.new) }
    {
        let Ok(()) = self.pay(bytes.len() as u64 / 64) else {
            return Ok(Made::Budget);
        };
        match self.heap.text(bytes) {
            Ok(text) => Ok(Made::Text(text)),
            Err(HeapFault::Fault(_)) => Ok(Made::HeapFull),
            Err(HeapFault::Memory) => Err(NoMemory),
        }
    }

    /// The error is raised with its position, where a term of the script makes it.
    pub fn refuse(&mut self, line: Option<u32>, why: Refusal) -> Result<Went, NoMemory>
        ensures { IfOk result (λ went. refused line why self.old ≡ says went self.new) }
    {
        let mut text = place(self.alloc, &self.name, line)?;
        let end = why.text(self.alloc)?;
        text.push_slice(end.as_slice())?;
        self.raise_made(&text)
    }

    fn raise_made(&mut self, bytes: &Bytes) -> Result<Went, NoMemory>
        ensures { IfOk result (λ went. made bytes.now self.old (λ v t. raised v t) ≡ says went self.new) }
    {
        match self.make(bytes.as_slice())? {
            Made::Text(text) => Ok(Went::Off(Stop::Raise(text))),
            Made::Budget => Ok(Went::Off(Stop::Budget)),
            Made::HeapFull => Ok(Went::Off(Stop::HeapFull)),
        }
    }

    fn give_made(&mut self, to: u16, bytes: &Bytes) -> Result<Went, NoMemory>
        requires { self.old.top.at < usize.MAX }
        ensures { IfOk result (λ went. made bytes.now self.old (λ v t. gives to v t) ≡ says went self.new) }
    {
        match self.make(bytes.as_slice())? {
            Made::Text(text) => {
                self.gives(to, text);
                Ok(Went::On)
            }
            Made::Budget => Ok(Went::Off(Stop::Budget)),
            Made::HeapFull => Ok(Went::Off(Stop::HeapFull)),
        }
    }

    /// An operation's answer goes to a slot.
    pub fn answer(&mut self, answer: Answer, to: u16, line: u32) -> Result<Went, NoMemory>
        requires { self.old.top.at < usize.MAX }
        ensures { IfOk result (λ went. answered (told answer) to line self.old ≡ says went self.new) }
    {
        match answer {
            Answer::Plain(value) => {
                self.gives(to, value);
                Ok(Went::On)
            }
            Answer::Fresh(bytes) => self.give_made(to, &bytes),
            Answer::Refused(why) => self.refuse(Some(line), why),
        }
    }

    /// Pays and goes on where it holds, and else jumps.
    pub fn choose(&mut self, holds: bool, pay: u8, to: u32) -> Went
        requires { self.old.top.at < usize.MAX }
        ensures { chosen holds pay to self.old ≡ says result self.new }
    {
        if !holds {
            self.jump(to);
            return Went::On;
        }
        let Ok(()) = self.pay(u64::from(pay)) else {
            return Went::Off(Stop::Budget);
        };
        self.goes_on();
        Went::On
    }

    /// The same where an operator answers whether it holds.
    pub fn unless(&mut self, answer: Answer, line: u32, pay: u8, to: u32) -> Result<Went, NoMemory>
        requires { self.old.top.at < usize.MAX }
        ensures { IfOk result (λ went. unless (told answer) line pay to self.old ≡ says went self.new) }
    {
        match answer {
            Answer::Plain(value) => Ok(self.choose(value.is_true(), pay, to)),
            Answer::Fresh(_) => Ok(Went::Stuck),
            Answer::Refused(why) => self.refuse(Some(line), why),
        }
    }
}
