ghost use Rattle.std.specs.Prelude.{◌≡◌, ◌≢◌, IfOk, ℤ};
ghost use Rattle.lua_value.specs.declared.value.Value.{Value as LuaValue};
ghost use Rattle.lua_value.specs.declared.value.Value.TheVariants as value;
ghost use Rattle.lua_model.specs.declared.refusal.Refusal.{Refusal as Why};
ghost use Rattle.lua_model.specs.Answer as model;
ghost use Rattle.lua_model.specs.Integer as lua;
ghost use Rattle.lua_model.specs.Texts.{spelled};
ghost use Rattle.lua_model.specs.Operators.{on_integers, by_divisor, concat, less, less_equal, binary};
ghost use Rattle.lua_operators.specs.Answers.{told, NotBothIntegers};

use crate::answer::Answer;
use crate::integer;
use itoa::Buffer;
use lua_heap::Heap;
use lua_model::{Binary, Refusal};
use lua_value::Value;
use sk_types::{Bytes, NoMemory};
use std::alloc::Global;

fn plain(n: i64) -> Answer
    ensures { told result ≡ model.Plain (value.Int n) }
{
    Answer::Plain(Value::Int(n))
}

fn truth(b: bool) -> Answer
    ensures { told result ≡ model.truth b }
{
    Answer::Plain(Value::Bool(b))
}

fn floor_div(a: i64, b: i64) -> Answer
    ensures { told result ≡ by_divisor lua.floor_div a b }
{
    if b == 0 {
        Answer::Refused(Refusal::DivideByZero)
    } else {
        plain(integer::floor_div(a, b))
    }
}

fn modulo(a: i64, b: i64) -> Answer
    ensures { told result ≡ by_divisor lua.modulo a b }
{
    if b == 0 {
        Answer::Refused(Refusal::DivideByZero)
    } else {
        plain(integer::modulo(a, b))
    }
}

/// What an operator but `..` answers of two integers.
fn of_integers(heap: &Heap, op: Binary, a: i64, b: i64) -> Answer
    requires { op ≢ Binary.Concat }
    ensures { told result ≡ binary heap.now.shared.texts op (value.Int a) (value.Int b) }
{
    match op {
        Binary::Add => plain(integer::add(a, b)),
        Binary::Sub => plain(integer::sub(a, b)),
        Binary::Mul => plain(integer::mul(a, b)),
        Binary::FloorDiv => floor_div(a, b),
        Binary::Mod => modulo(a, b),
        Binary::BitAnd => plain(integer::bit_and(a, b)),
        Binary::BitOr => plain(integer::bit_or(a, b)),
        Binary::BitXor => plain(integer::bit_xor(a, b)),
        Binary::ShiftLeft => plain(integer::shift_left(a, b)),
        Binary::ShiftRight => plain(integer::shift_right(a, b)),
        Binary::Concat => unreachable!(),
        Binary::Equal => truth(a == b),
        Binary::NotEqual => truth(a != b),
        Binary::Less => truth(a < b),
        Binary::LessEqual => truth(a <= b),
        Binary::Greater => truth(a > b),
        Binary::GreaterEqual => truth(a >= b),
    }
}

/// The first of two values that is no integer.
fn no_integer(left: Value, right: Value) -> Value
    requires { NotBothIntegers left right }
    ensures { (why : LuaValue → Why) (go : ℤ → ℤ → model.Answer) → on_integers why go left right ≡ model.Refused (why result) }
{
    match left {
        Value::Int(_) => right,
        _ => left,
    }
}

fn less(heap: &Heap, left: Value, right: Value) -> Answer
    ensures { told result ≡ less heap.now.shared.texts left right }
{
    match (left, right) {
        (Value::Int(a), Value::Int(b)) => truth(a < b),
        (Value::Text(j), Value::Text(k)) => truth(heap.bytes(j).cmp(heap.bytes(k)).is_lt()),
        _ => Answer::Refused(Refusal::Compare(left, right)),
    }
}

fn less_equal(heap: &Heap, left: Value, right: Value) -> Answer
    ensures { told result ≡ less_equal heap.now.shared.texts left right }
{
    match (left, right) {
        (Value::Int(a), Value::Int(b)) => truth(a <= b),
        (Value::Text(j), Value::Text(k)) => truth(heap.bytes(j).cmp(heap.bytes(k)).is_le()),
        _ => Answer::Refused(Refusal::Compare(left, right)),
    }
}

/// What an operator but `..` answers where one value is no integer.
fn of_others(heap: &Heap, op: Binary, left: Value, right: Value) -> Answer
    requires not_concat { op ≢ Binary.Concat }
    requires others { NotBothIntegers left right }
    ensures { told result ≡ binary heap.now.shared.texts op left right }
{
    match op {
        Binary::Add | Binary::Sub | Binary::Mul | Binary::FloorDiv | Binary::Mod => {
            Answer::Refused(Refusal::Arithmetic(no_integer(left, right)))
        }
        Binary::BitAnd | Binary::BitOr | Binary::BitXor | Binary::ShiftLeft | Binary::ShiftRight =>
            Answer::Refused(Refusal::Bitwise(no_integer(left, right))),
        Binary::Concat => unreachable!(),
        Binary::Equal => truth(left.same(&right)),
        Binary::NotEqual => truth(!left.same(&right)),
        Binary::Less => less(heap, left, right),
        Binary::LessEqual => less_equal(heap, left, right),
        Binary::Greater => less(heap, right, left),
        Binary::GreaterEqual => less_equal(heap, right, left),
    }
}

/// The bytes of a string, and an integer in decimal.
fn spell(alloc: Global, heap: &Heap, value: Value) -> Result<Option<Bytes>, NoMemory>
    ensures { IfOk result (λ text. text ≡ spelled heap.now.shared.texts value) }
{
    let text = match value {
        Value::Text(k) => Bytes::from_slice(alloc, heap.bytes(k))?,
        Value::Int(n) => Bytes::from_slice(alloc, Buffer::new().format(n).as_bytes())?,
        _ => return Ok(None),
    };
    Ok(Some(text))
}

fn concat(alloc: Global, heap: &Heap, left: Value, right: Value) -> Result<Answer, NoMemory>
    ensures { IfOk result (λ a. told a ≡ concat heap.now.shared.texts left right) }
{
    let Some(mut text) = spell(alloc, heap, left)? else {
        return Ok(Answer::Refused(Refusal::Concatenate(left)));
    };
    let Some(end) = spell(alloc, heap, right)? else {
        return Ok(Answer::Refused(Refusal::Concatenate(right)));
    };
    text.push_slice(end.as_slice())?;
    Ok(Answer::Fresh(text))
}

/// What an operator of two operands answers (manual, sections 3.4.1 to 3.4.6); the strings are those of the heap.
pub fn binary(
    alloc: Global,
    heap: &Heap,
    op: Binary,
    left: Value,
    right: Value,
) -> Result<Answer, NoMemory>
    ensures { IfOk result (λ a. told a ≡ binary heap.now.shared.texts op left right) }
{
    if op == Binary::Concat {
        return concat(alloc, heap, left, right);
    }
    match (left, right) {
        (Value::Int(a), Value::Int(b)) => Ok(of_integers(heap, op, a, b)),
        _ => Ok(of_others(heap, op, left, right)),
    }
}
