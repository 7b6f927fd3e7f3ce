ghost use Rattle.std.specs.Prelude.{◌≡◌, List, ℕ};
ghost use Rattle.lua_model.specs.Operators.{length_of, unary};
ghost use Rattle.lua_operators.specs.Answers.{told};

use crate::answer::Answer;
use crate::integer;
use lua_heap::Heap;
use lua_model::{Refusal, Unary};
use lua_value::Value;

fn length_of(heap: &Heap, value: Value) -> Answer
    ensures { told result ≡ length_of heap.now.shared.texts value }
{
    match value {
        Value::Text(k) => Answer::Plain(Value::Int(heap.bytes(k).len() as i64)),
        _ => Answer::Refused(Refusal::Length(value)),
    }
}

fn minus(value: Value) -> Answer
    ensures { (texts : List (List ℕ)) → told result ≡ unary texts Unary.Minus value }
{
    match value {
        Value::Int(n) => Answer::Plain(Value::Int(integer::minus(n))),
        _ => Answer::Refused(Refusal::Arithmetic(value)),
    }
}

fn bit_not(value: Value) -> Answer
    ensures { (texts : List (List ℕ)) → told result ≡ unary texts Unary.BitNot value }
{
    match value {
        Value::Int(n) => Answer::Plain(Value::Int(integer::bit_not(n))),
        _ => Answer::Refused(Refusal::Bitwise(value)),
    }
}

/// What an operator of one operand answers (manual, sections 3.4.1, 3.4.2, 3.4.5 and 3.4.7); the strings are those of the heap.
pub fn unary(heap: &Heap, op: Unary, value: Value) -> Answer
    ensures { told result ≡ unary heap.now.shared.texts op value }
{
    match op {
        Unary::Minus => minus(value),
        Unary::BitNot => bit_not(value),
        Unary::Not => Answer::Plain(Value::Bool(!value.is_true())),
        Unary::Length => length_of(heap, value),
    }
}
