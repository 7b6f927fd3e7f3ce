ghost use Rattle.std.specs.Prelude.{◌≡◌, ◌≢◌, ◌+◌, ◌<◌, pos, IfOk};
ghost use Rattle.lua_meaning.specs.Loops.{turns_of};
ghost use Rattle.lua_value.specs.Same.{is_nil};
ghost use Rattle.lua_steps.specs.Machine as steps;
ghost use Rattle.lua_steps.specs.Moves.{jump, paid, slot};
ghost use Rattle.lua_steps.specs.Loops.{counted, turn, first_turn, numeric_by, numeric_from, next_turn, numeric_next, generic_next};
ghost use Rattle.lua_value.specs.declared.value.Value.TheVariants as value;
ghost use Rattle.lua_machine.specs.Views.{says, turns_after};

use crate::state::State;
use crate::stop::{Stop, Went};
use lua_model::Refusal;
use lua_operators::integer;
use lua_value::Value;
use sk_types::NoMemory;

/// The operands of a loop's operation: a count of ticks, the loop's first slot, and a place to go to.
#[derive(Clone, Copy)]
pub struct Operands {
    pub pay: u8,
    pub base: u16,
    pub to: u32,
}

/// How many turns a loop has after its first; none where it has no turn.
fn turns_after_first(first: i64, limit: i64, step: i64) -> Option<u64>
    requires { step ≢ pos 0 }
    ensures { turns_of first limit step ≡ turns_after result }
{
    let none = if step > 0 {
        limit < first
    } else {
        first < limit
    };
    if none {
        None
    } else {
        Some(limit.abs_diff(first) / step.unsigned_abs())
    }
}

impl State {
    /// A turn with this value, after which `left` are to come.
    fn set_turn(&mut self, left: u64, value: i64, step: i64, base: u16)
        ensures { self.new ≡ turn left value step base self.old }
    {
        let place = self.base() + base as usize;
        let slots = [
            Value::Int(left.cast_signed()),
            Value::Int(value),
            Value::Int(step),
            Value::Int(value),
        ];
        self.write(place, 4, &slots);
    }

    /// Pays for a turn and makes it, where there is one, and else leaves the loop.
    fn first_turn(&mut self, left: Option<u64>, value: i64, step: i64, operands: Operands) -> Went
        requires { self.old.top.at < usize.MAX }
        ensures { first_turn (turns_after left) value step operands.pay operands.base operands.to self.old ≡ says result self.new }
    {
        let Some(left) = left else {
            self.jump(operands.to);
            return Went::On;
        };
        let Ok(()) = self.pay(u64::from(operands.pay)) else {
            return Went::Off(Stop::Budget);
        };
        self.set_turn(left, value, step, operands.base);
        self.goes_on();
        Went::On
    }

    /// A numeric loop of integers begins.
    fn begin_by(
        &mut self,
        first: i64,
        limit: i64,
        step: i64,
        line: u32,
        operands: Operands,
    ) -> Result<Went, NoMemory>
        requires { self.old.top.at < usize.MAX }
        ensures { IfOk result (λ went. numeric_from (value.Int first) (value.Int limit) (value.Int step) line operands.pay operands.base operands.to self.old ≡ says went self.new) }
    {
        if step == 0 {
            return self.refuse(Some(line), Refusal::ForStep);
        }
        let left = turns_after_first(first, limit, step);
        Ok(self.first_turn(left, first, step, operands))
    }

    /// A numeric loop begins, or is left at once.
    pub fn begin_loop(&mut self, operands: Operands, line: u32) -> Result<Went, NoMemory>
        requires { self.old.top.at < usize.MAX }
        ensures { IfOk result (λ went. numeric_from (slot self.old operands.base) (slot self.old (operands.base + 1)) (slot self.old (operands.base + 2)) line operands.pay operands.base operands.to self.old ≡ says went self.new) }
    {
        let base = operands.base;
        let (Value::Int(first), Value::Int(limit), Value::Int(step)) = (
            self.slot_after(base, 0),
            self.slot_after(base, 1),
            self.slot_after(base, 2),
        ) else {
            return self.refuse(Some(line), Refusal::ForValues);
        };
        self.begin_by(first, limit, step, line, operands)
    }

    /// Pays for a turn and goes back to make it.
    fn turn_back(&mut self, left: u64, value: i64, step: i64, operands: Operands) -> Went
        ensures { paid operands.pay self.old (λ t. jump operands.to (turn left value step operands.base t)) ≡ says result self.new }
    {
        let Ok(()) = self.pay(u64::from(operands.pay)) else {
            return Went::Off(Stop::Budget);
        };
        self.set_turn(left, value, step, operands.base);
        self.jump(operands.to);
        Went::On
    }

    fn next_by(&mut self, left: u64, value: i64, step: i64, operands: Operands) -> Went
        requires { self.old.top.at < usize.MAX }
        ensures { next_turn left value step operands.pay operands.base operands.to self.old ≡ says result self.new }
    {
        if left == 0 {
            self.goes_on();
            return Went::On;
        }
        self.turn_back(left - 1, integer::add(value, step), step, operands)
    }

    /// The next turn of a numeric loop, or its end.
    pub fn next_turn(&mut self, operands: Operands) -> Went
        requires { self.old.top.at < usize.MAX }
        ensures { numeric_next (slot self.old operands.base) (slot self.old (operands.base + 1)) (slot self.old (operands.base + 2)) operands.pay operands.base operands.to self.old ≡ says result self.new }
    {
        let base = operands.base;
        let (Value::Int(left), Value::Int(value), Value::Int(step)) = (
            self.slot_after(base, 0),
            self.slot_after(base, 1),
            self.slot_after(base, 2),
        ) else {
            return Went::Stuck;
        };
        self.next_by(left.cast_unsigned(), value, step, operands)
    }

    /// A generic loop ends where the first of its values is nil.
    pub fn next_values(&mut self, operands: Operands) -> Went
        requires { self.old.top.at < usize.MAX }
        ensures { generic_next (is_nil (slot self.old (operands.base + 3))) (slot self.old (operands.base + 3)) operands.pay operands.base operands.to self.old ≡ says result self.new }
    {
        let value = self.slot_after(operands.base, 3);
        if value.is_nil() {
            self.goes_on();
            return Went::On;
        }
        let Ok(()) = self.pay(u64::from(operands.pay)) else {
            return Went::Off(Stop::Budget);
        };
        self.set_slot_after(operands.base, 2, value);
        self.jump(operands.to);
        Went::On
    }
}
