ghost use Rattle.std.specs.Prelude.{◌≡◌, ◌+◌, ◌<◌, if◌then◌else◌, slice_set, IfOk, Some, None};
ghost use Rattle.lua_value.specs.declared.value.Value.TheVariants as value;
ghost use Rattle.lua_model.specs.Operators as lua;
ghost use Rattle.lua_steps.specs.Machine as steps;
ghost use Rattle.lua_steps.specs.Moves.{next, jump, slot, gives, paid, answered, slots_from, on_list, with_lists};
ghost use Rattle.lua_steps.specs.Calls.{calls, tail_calls, waiting, hand};
ghost use Rattle.lua_steps.specs.Exec.{line, unless, applied, cell_of, new_cell, calls_listed, tail_calls_listed, perform};
ghost use Rattle.lua_machine.specs.Views.{says};
ghost use Rattle.lua_machine.specs.Wants.{wanted_of};

use crate::frame::Wanted;
use crate::loops::Operands;
use crate::state::{Span, State};
use crate::stop::{Stop, Went};
use lua_code::{Function, Op};
use lua_model::{Binary, Unary};
use lua_operators::{binary, unary};
use lua_value::{Value, Values};
use sk_types::NoMemory;

impl State {
    /// The line of the operation that runs.
    fn line(&self, code: &[Function]) -> u32
        ensures { result ≡ line code.now self.now }
    {
        let top = self.stack.top();
        let Some(function) = code.get(top.function as usize) else {
            return 0;
        };
        match function.lines().get(top.at) {
            Some(line) => *line,
            None => 0,
        }
    }

    fn operate(
        &mut self,
        code: &[Function],
        op: Binary,
        to: u16,
        left: u16,
        right: Value,
    ) -> Result<Went, NoMemory>
        requires { self.old.top.at < usize.MAX }
        ensures { IfOk result (λ went. answered (lua.binary self.old.aside.heap.texts op (slot self.old left) right) to (line code.now self.old) self.old ≡ says went self.new) }
    {
        let line = self.line(code);
        let answer = binary(self.alloc, &self.heap, op, self.slot(left), right)?;
        self.answer(answer, to, line)
    }

    fn operate_on_one(
        &mut self,
        code: &[Function],
        op: Unary,
        to: u16,
        from: u16,
    ) -> Result<Went, NoMemory>
        requires { self.old.top.at < usize.MAX }
        ensures { IfOk result (λ went. answered (lua.unary self.old.aside.heap.texts op (slot self.old from)) to (line code.now self.old) self.old ≡ says went self.new) }
    {
        let line = self.line(code);
        let answer = unary(&self.heap, op, self.slot(from));
        self.answer(answer, to, line)
    }

    fn compare(
        &mut self,
        code: &[Function],
        op: Binary,
        left: u8,
        right: Value,
        pay: u8,
        to: u32,
    ) -> Result<Went, NoMemory>
        requires { self.old.top.at < usize.MAX }
        ensures { IfOk result (λ went. unless (lua.binary self.old.aside.heap.texts op (slot self.old left) right) (line code.now self.old) pay to self.old ≡ says went self.new) }
    {
        let line = self.line(code);
        let answer = binary(
            self.alloc,
            &self.heap,
            op,
            self.slot(u16::from(left)),
            right,
        )?;
        self.unless(answer, line, pay, to)
    }

    /// A call of a slot with those after it; the callee's slots begin with its arguments.
    fn call_slots(
        &mut self,
        code: &[Function],
        base: u16,
        args: u16,
        wants: Wanted,
    ) -> Result<Went, NoMemory>
        requires { self.old.top.at < usize.MAX }
        ensures { IfOk result (λ went. calls code.now (Some (line code.now self.old)) (slot self.old base) (slots_from self.old (base + 1) args) (self.old.top.base + base + 1) (waiting (wanted_of wants) self.old.top) self.old ≡ says went self.new) }
    {
        let line = self.line(code);
        let called = self.slot(base);
        let top = self.stack.top();
        let Some(place) = top.base.checked_add(u32::from(base) + 1) else {
            return Err(NoMemory);
        };
        let args = Span {
            from: place as usize,
            count: args,
        };
        self.call_with(code, Some(line), called, args, place, wants)
    }

    fn tail_call_slots(&mut self, code: &[Function], base: u16, args: u16) -> Result<Went, NoMemory>
        requires { self.old.top.at < usize.MAX }
        ensures { IfOk result (λ went. tail_calls code.now (line code.now self.old) (slot self.old base) (slots_from self.old (base + 1) args) (self.old.top.base + base + 1) (waiting steps.OnTop self.old.top) self.old ≡ says went self.new) }
    {
        let line = self.line(code);
        let called = self.slot(base);
        let top = self.stack.top();
        let Some(place) = top.base.checked_add(u32::from(base) + 1) else {
            return Err(NoMemory);
        };
        let args = Span {
            from: place as usize,
            count: args,
        };
        self.tail_call_with(code, line, called, args, place)
    }
}

/// Small operations, each as one call.
impl State {
    fn puts(&mut self, to: u16, value: Value) -> Result<Went, NoMemory>
        requires { self.old.top.at < usize.MAX }
        ensures { IfOk result (λ went. gives to value self.old ≡ says went self.new) }
    {
        self.gives(to, value);
        Ok(Went::On)
    }

    fn makes_cell(&mut self, cell: u16, from: u16) -> Result<Went, NoMemory>
        requires { self.old.top.at < usize.MAX }
        ensures { IfOk result (λ went. next (new_cell cell (slot self.old from) self.old) ≡ says went self.new) }
    {
        let value = self.slot(from);
        self.new_cell(cell, value)?;
        self.goes_on();
        Ok(Went::On)
    }

    fn puts_in_cell(&mut self, cell: u16, from: u16) -> Result<Went, NoMemory>
        requires { self.old.top.at < usize.MAX }
        ensures { IfOk result (λ went. next (record self.old { cells = slice_set self.old.cells (cell_of self.old.top.cells cell) (slot self.old from) }) ≡ says went self.new) }
    {
        let value = self.slot(from);
        self.set_own_cell(cell, value);
        self.goes_on();
        Ok(Went::On)
    }

    fn puts_in_up(&mut self, up: u16, from: u16) -> Result<Went, NoMemory>
        requires { self.old.top.at < usize.MAX }
        ensures { IfOk result (λ went. next (record self.old { cells = slice_set self.old.cells (cell_of self.old.top.ups up) (slot self.old from) }) ≡ says went self.new) }
    {
        let value = self.slot(from);
        self.set_up(up, value);
        self.goes_on();
        Ok(Went::On)
    }

    fn jumps(&mut self, to: u32) -> Went
        ensures { jump to self.old ≡ says result self.new }
    {
        self.jump(to);
        Went::On
    }

    fn jumps_if(&mut self, holds: bool, to: u32) -> Went
        requires { self.old.top.at < usize.MAX }
        ensures { (if holds then jump to self.old else next self.old) ≡ says result self.new }
    {
        if holds {
            self.jump(to);
        } else {
            self.goes_on();
        }
        Went::On
    }

    fn pays_and_jumps(&mut self, pay: u8, to: u32) -> Went
        ensures { paid pay self.old (λ t. jump to t) ≡ says result self.new }
    {
        let Ok(()) = self.pay(u64::from(pay)) else {
            return Went::Off(Stop::Budget);
        };
        self.jump(to);
        Went::On
    }

    /// The iterator of a generic loop is called with the state and the control value.
    fn call_iterator(
        &mut self,
        code: &[Function],
        base: u16,
        results: u16,
    ) -> Result<Went, NoMemory>
        requires { self.old.top.at < usize.MAX }
        ensures { IfOk result (λ went. calls code.now (Some (line code.now self.old)) (slot self.old base) (slots_from self.old (base + 1) 2) (self.old.top.base + base + 3) (waiting (steps.InSlots (base + 3) results) self.old.top) self.old ≡ says went self.new) }
    {
        let line = self.line(code);
        let called = self.slot(base);
        let args = Span {
            from: self.place_of(u32::from(base) + 1),
            count: 2,
        };
        let top = self.stack.top();
        let Some(place) = top.base.checked_add(u32::from(base) + 3) else {
            return Err(NoMemory);
        };
        let wants = Wanted::InSlots {
            to: u32::from(base) + 3,
            count: results,
        };
        self.call_with(code, Some(line), called, args, place, wants)
    }

    fn hand_slots(&mut self, from: u16, count: u16) -> Result<Went, NoMemory>
        ensures { IfOk result (λ went. hand (slots_from self.old from count) self.old.below self.old ≡ says went self.new) }
    {
        let values = Span {
            from: self.place_of(u32::from(from)),
            count,
        };
        if self.hand_back(values) {
            return Ok(Went::On);
        }
        let values = self.values_of(values)?;
        self.hand(values)
    }

    fn hand_list(&mut self) -> Result<Went, NoMemory>
        ensures { IfOk result (λ went. on_list self.old.top.lists (λ vs ls. hand vs self.old.below (with_lists ls self.old)) ≡ says went self.new) }
    {
        let top = self.stack.top_mut();
        let Some(values) = top.lists.pop_front() else {
            return Ok(Went::Stuck);
        };
        self.hand(values)
    }

    fn call_list(&mut self, code: &[Function], base: u16) -> Result<Went, NoMemory>
        requires { self.old.top.at < usize.MAX }
        ensures { IfOk result (λ went. on_list self.old.top.lists (λ l ls. applied l (λ f vs. calls_listed code.now (Some (line code.now self.old)) f vs (self.old.top.base + base) (with_lists ls self.old))) ≡ says went self.new) }
    {
        let line = self.line(code);
        let top = self.stack.top();
        let Some(place) = top.base.checked_add(u32::from(base)) else {
            return Err(NoMemory);
        };
        let top = self.stack.top_mut();
        let Some(list) = top.lists.pop_front() else {
            return Ok(Went::Stuck);
        };
        let [called, args @ ..] = list.as_slice() else {
            return Ok(Went::Stuck);
        };
        let args = Values::from_slice(self.alloc, args)?;
        self.call(code, Some(line), *called, args, place, Wanted::OnTop)
    }

    fn tail_call_list(&mut self, code: &[Function], base: u16) -> Result<Went, NoMemory>
        requires { self.old.top.at < usize.MAX }
        ensures { IfOk result (λ went. on_list self.old.top.lists (λ l ls. applied l (λ f vs. tail_calls_listed code.now (line code.now self.old) f vs (self.old.top.base + base) (with_lists ls self.old))) ≡ says went self.new) }
    {
        let line = self.line(code);
        let top = self.stack.top();
        let Some(place) = top.base.checked_add(u32::from(base)) else {
            return Err(NoMemory);
        };
        let top = self.stack.top_mut();
        let Some(list) = top.lists.pop_front() else {
            return Ok(Went::Stuck);
        };
        let [called, args @ ..] = list.as_slice() else {
            return Ok(Went::Stuck);
        };
        let args = Values::from_slice(self.alloc, args)?;
        self.tail_call(code, line, *called, args, place)
    }

    /// The call with which a thread begins.
    fn start(&mut self, code: &[Function]) -> Result<Went, NoMemory>
        requires { self.old.top.at < usize.MAX }
        ensures { IfOk result (λ went. on_list self.old.top.lists (λ l ls. applied l (λ f vs. calls_listed code.now None f vs self.old.top.base (with_lists ls self.old))) ≡ says went self.new) }
    {
        let top = self.stack.top();
        let place = top.base;
        let top = self.stack.top_mut();
        let Some(list) = top.lists.pop_front() else {
            return Ok(Went::Stuck);
        };
        let [called, args @ ..] = list.as_slice() else {
            return Ok(Went::Stuck);
        };
        let args = Values::from_slice(self.alloc, args)?;
        self.call(code, None, *called, args, place, Wanted::OnTop)
    }
}

impl State {
    /// What an operation does.
    pub fn perform(&mut self, code: &[Function], op: Op) -> Result<Went, NoMemory>
        requires { self.old.top.at < usize.MAX }
        ensures { IfOk result (λ went. perform code.now op self.old ≡ says went self.new) }
    {
        match op {
            Op::Nil { to } => self.puts(to, Value::Nil),
            Op::Bool { to, value } => self.puts(to, Value::Bool(value)),
            Op::Int { to, value } => self.puts(to, Value::Int(i64::from(value))),
            Op::Constant { to, index } => self.constant(code, to, index),
            Op::Move { to, from } => self.puts(to, self.slot(from)),
            Op::NewCell { cell, from } => self.makes_cell(cell, from),
            Op::GetCell { to, cell } => self.puts(to, self.own_cell(cell)),
            Op::SetCell { cell, from } => self.puts_in_cell(cell, from),
            Op::GetUp { to, up } => self.puts(to, self.up(up)),
            Op::SetUp { up, from } => self.puts_in_up(up, from),
            Op::Close { to, function } => self.close(code, to, function),
            Op::CloseCell { cell, function } => self.close_cell(code, cell, function),
            Op::Add { to, left, right } => self.operate(
                code,
                Binary::Add,
                u16::from(to),
                u16::from(left),
                self.slot(u16::from(right)),
            ),
            Op::Sub { to, left, right } => self.operate(
                code,
                Binary::Sub,
                u16::from(to),
                u16::from(left),
                self.slot(u16::from(right)),
            ),
            Op::Mul { to, left, right } => self.operate(
                code,
                Binary::Mul,
                u16::from(to),
                u16::from(left),
                self.slot(u16::from(right)),
            ),
            Op::AddInt { to, left, value } => self.operate(
                code,
                Binary::Add,
                u16::from(to),
                u16::from(left),
                Value::Int(i64::from(value)),
            ),
            Op::MulInt { to, left, value } => self.operate(
                code,
                Binary::Mul,
                u16::from(to),
                u16::from(left),
                Value::Int(i64::from(value)),
            ),
            Op::BinaryInt {
                op,
                to,
                left,
                value,
            } => self.operate(
                code,
                op,
                u16::from(to),
                u16::from(left),
                Value::Int(i64::from(value)),
            ),
            Op::Binary {
                op,
                to,
                left,
                right,
            } => self.operate(code, op, to, left, self.slot(right)),
            Op::Unary { op, to, from } => self.operate_on_one(code, op, to, from),
            Op::Tick { pay } => Ok(self.choose(true, pay, 0)),
            Op::Jump { at } => Ok(self.jumps(at)),
            Op::Loop { pay, at } => Ok(self.pays_and_jumps(pay, at)),
            Op::Test { from, at } => Ok(self.choose(self.slot(from).is_true(), 0, at)),
            Op::TestNot { from, at } => Ok(self.jumps_if(self.slot(from).is_true(), at)),
            Op::UnlessLess {
                left,
                right,
                pay,
                at,
            } => self.compare(
                code,
                Binary::Less,
                left,
                self.slot(u16::from(right)),
                pay,
                at,
            ),
            Op::UnlessLessEqual {
                left,
                right,
                pay,
                at,
            } => self.compare(
                code,
                Binary::LessEqual,
                left,
                self.slot(u16::from(right)),
                pay,
                at,
            ),
            Op::UnlessEqual {
                left,
                right,
                pay,
                at,
            } => self.compare(
                code,
                Binary::Equal,
                left,
                self.slot(u16::from(right)),
                pay,
                at,
            ),
            Op::UnlessNotEqual {
                left,
                right,
                pay,
                at,
            } => self.compare(
                code,
                Binary::NotEqual,
                left,
                self.slot(u16::from(right)),
                pay,
                at,
            ),
            Op::UnlessLessInt {
                left,
                value,
                pay,
                at,
            } => self.compare(
                code,
                Binary::Less,
                left,
                Value::Int(i64::from(value)),
                pay,
                at,
            ),
            Op::UnlessLessEqualInt {
                left,
                value,
                pay,
                at,
            } => self.compare(
                code,
                Binary::LessEqual,
                left,
                Value::Int(i64::from(value)),
                pay,
                at,
            ),
            Op::UnlessGreaterInt {
                left,
                value,
                pay,
                at,
            } => self.compare(
                code,
                Binary::Greater,
                left,
                Value::Int(i64::from(value)),
                pay,
                at,
            ),
            Op::UnlessGreaterEqualInt {
                left,
                value,
                pay,
                at,
            } => self.compare(
                code,
                Binary::GreaterEqual,
                left,
                Value::Int(i64::from(value)),
                pay,
                at,
            ),
            Op::UnlessEqualInt {
                left,
                value,
                pay,
                at,
            } => self.compare(
                code,
                Binary::Equal,
                left,
                Value::Int(i64::from(value)),
                pay,
                at,
            ),
            Op::UnlessNotEqualInt {
                left,
                value,
                pay,
                at,
            } => self.compare(
                code,
                Binary::NotEqual,
                left,
                Value::Int(i64::from(value)),
                pay,
                at,
            ),
            Op::ForPrep { pay, base, at } => self.begin_loop(
                Operands { pay, base, to: at },
                self.line(code),
            ),
            Op::ForLoop { pay, base, at } => Ok(self.next_turn(Operands { pay, base, to: at })),
            Op::ForCall { base, results } => self.call_iterator(code, base, results),
            Op::ForEach { pay, base, at } => Ok(self.next_values(Operands { pay, base, to: at })),
            Op::Call {
                base,
                args,
                results,
            } => self.call_slots(
                code,
                base,
                args,
                Wanted::InSlots {
                    to: u32::from(base),
                    count: results,
                },
            ),
            Op::CallAll { base, args } => self.call_slots(code, base, args, Wanted::OnTop),
            Op::TailCall { base, args } => self.tail_call_slots(code, base, args),
            Op::Return { from, count } => self.hand_slots(from, count),
            Op::Begin => self.begin(),
            Op::Push { from } => self.push(from),
            Op::Append => self.append(),
            Op::Dots => self.dots(),
            Op::DotsTo { to, count } => self.dots_to(to, count),
            Op::Spread { to, count } => Ok(self.spread(to, count)),
            Op::Item { to, index } => Ok(self.item(to, index)),
            Op::CallList { base } => self.call_list(code, base),
            Op::TailCallList { base } => self.tail_call_list(code, base),
            Op::ReturnList => self.hand_list(),
            Op::Start => self.start(code),
        }
    }
}
