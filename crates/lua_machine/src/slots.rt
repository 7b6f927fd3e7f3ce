//! Slots in hand: the row from a frame's first slot on. Valid code names no slot past its end, so none of these tests an index.

ghost use Rattle.std.specs.Prelude.{◌≡◌, ◌+◌, ◌<◌, [], ◌∷◌, length, IfSome, slice_set};
ghost use Rattle.lua_value.specs.declared.value.Value.TheVariants as value;
ghost use Rattle.lua_value.specs.Lists.{value_at};
ghost use Rattle.lua_model.specs.declared.operator.Binary.TheVariants as binary_op;
ghost use Rattle.lua_steps.specs.Moves.{written};
ghost use Rattle.lua_steps.specs.Loops.{counted};
ghost use Rattle.lua_machine.specs.Quick.{Computes, ComputesOne, Gives, Chooses, Pays};

use crate::pace::Pace;
use lua_model::{Binary, Unary};
use lua_operators::integer;
use lua_value::Value;

#[inline(always)]
pub fn slot(row: &[Value], i: u16) -> Value
    requires { i < length row.now }
    ensures { result ≡ value_at row.now i }
{
    row[i as usize]
}

/// The value at a place of the row.
#[inline(always)]
pub fn value_there(row: &[Value], place: usize) -> Value
    requires { place < length row.now }
    ensures { result ≡ value_at row.now place }
{
    row[place]
}

/// The slot so many after another.
#[inline(always)]
pub fn slot_after(row: &[Value], base: u16, i: usize) -> Value
    requires within { base + i < length row.now }
    requires near { i < 4 }
    ensures { result ≡ value_at row.now (base + i) }
{
    row[base as usize + i]
}

#[inline(always)]
pub fn put(row: &mut [Value], i: u16, value: Value)
    requires { i < length row.old }
    ensures { row.new ≡ slice_set row.old i value }
{
    row[i as usize] = value;
}

/// An integer goes to a place. Where one stands there already, its kind is not written anew.
#[inline(always)]
fn put_int(row: &mut [Value], place: usize, n: i64)
    requires { place < length row.old }
    ensures { row.new ≡ slice_set row.old place (value.Int n) }
{
    match &mut row[place] {
        Value::Int(held) => *held = n,
        other => *other = Value::Int(n),
    }
}

/// The slots of a turn. The step stays.
#[inline(always)]
pub fn put_turn(row: &mut [Value], base: u16, left: u64, at: i64)
    requires { base + 3 < length row.old }
    ensures { row.new ≡ written row.old base (counted left ∷ value.Int at ∷ value_at row.old (base + 2) ∷ value.Int at ∷ []) }
{
    let first = base as usize;
    put_int(row, first, left.cast_signed());
    put_int(row, first + 1, at);
    row[first + 3] = Value::Int(at);
}

/// The quotient of two integers, but of one by 0.
#[inline(always)]
fn quotient(a: i64, b: i64) -> Option<Value>
    ensures { IfSome result (λ w. Computes binary_op.FloorDiv (value.Int a) (value.Int b) w) }
{
    if b == 0 {
        return None;
    }
    Some(Value::Int(integer::floor_div(a, b)))
}

/// What the quotient leaves.
#[inline(always)]
fn remainder(a: i64, b: i64) -> Option<Value>
    ensures { IfSome result (λ w. Computes binary_op.Mod (value.Int a) (value.Int b) w) }
{
    if b == 0 {
        return None;
    }
    Some(Value::Int(integer::modulo(a, b)))
}

/// What an operator answers of two integers, where it is quick.
#[inline(always)]
fn of_integers(op: Binary, a: i64, b: i64) -> Option<Value>
    ensures { IfSome result (λ w. Computes op (value.Int a) (value.Int b) w) }
{
    match op {
        Binary::Add => Some(Value::Int(integer::add(a, b))),
        Binary::Sub => Some(Value::Int(integer::sub(a, b))),
        Binary::Mul => Some(Value::Int(integer::mul(a, b))),
        Binary::FloorDiv => quotient(a, b),
        Binary::Mod => remainder(a, b),
        Binary::BitAnd => Some(Value::Int(integer::bit_and(a, b))),
        Binary::BitOr => Some(Value::Int(integer::bit_or(a, b))),
        Binary::BitXor => Some(Value::Int(integer::bit_xor(a, b))),
        Binary::ShiftLeft => Some(Value::Int(integer::shift_left(a, b))),
        Binary::ShiftRight => Some(Value::Int(integer::shift_right(a, b))),
        Binary::Equal => Some(Value::Bool(a == b)),
        Binary::NotEqual => Some(Value::Bool(a != b)),
        Binary::Less => Some(Value::Bool(a < b)),
        Binary::LessEqual => Some(Value::Bool(a <= b)),
        Binary::Greater => Some(Value::Bool(b < a)),
        Binary::GreaterEqual => Some(Value::Bool(b <= a)),
        Binary::Concat => None,
    }
}

#[inline(always)]
pub fn computed(op: Binary, left: Value, right: Value) -> Option<Value>
    ensures { IfSome result (λ w. Computes op left right w) }
{
    match (left, right) {
        (Value::Int(a), Value::Int(b)) => of_integers(op, a, b),
        _ => None,
    }
}

/// What an operator answers of one operand, where it is quick.
#[inline(always)]
pub fn computed_of_one(op: Unary, operand: Value) -> Option<Value>
    ensures { IfSome result (λ w. ComputesOne op operand w) }
{
    match (op, operand) {
        (Unary::Minus, Value::Int(a)) => Some(Value::Int(integer::minus(a))),
        (Unary::BitNot, Value::Int(a)) => Some(Value::Int(integer::bit_not(a))),
        (Unary::Not, _) => Some(Value::Bool(!operand.is_true())),
        _ => None,
    }
}

#[inline(always)]
pub fn tiny(n: i8) -> Value
    ensures { result ≡ value.Int n }
{
    Value::Int(i64::from(n))
}

#[inline(always)]
pub fn short(n: i32) -> Value
    ensures { result ≡ value.Int n }
{
    Value::Int(i64::from(n))
}

#[inline(always)]
pub fn long(n: i64) -> Value
    ensures { result ≡ value.Int n }
{
    Value::Int(n)
}

/// The value goes to a slot, and the next operation follows.
#[inline(always)]
pub fn gives(row: &mut [Value], to: u16, value: Value, pace: Pace) -> Pace
    requires slot { to < length row.old }
    requires place { pace.at < usize.MAX }
    ensures gives { Gives row.old pace to value row.new result }
    ensures place { result.at ≡ pace.at + 1 }
{
    put(row, to, value);
    Pace {
        at: pace.at + 1,
        left: pace.left,
    }
}

/// The ticks are paid, if they do not pass the budget.
#[inline(always)]
pub fn pays(pay: u8, pace: Pace) -> Option<Pace>
    ensures { IfSome result (λ p. Pays pay pace p) }
{
    let ticks = u64::from(pay);
    if pace.left < ticks {
        return None;
    }
    Some(Pace {
        at: pace.at,
        left: pace.left - ticks,
    })
}

/// Pays and goes on where it holds, and else jumps, to one of so many operations. A jump's place is read only where it is taken, so that no register holds it beside the place at hand.
#[inline(always)]
pub fn chooses(holds: bool, pay: u8, to: &u32, pace: Pace, _count: usize) -> Option<Pace>
    requires next { pace.at + 1 < _count }
    requires jump { to.now < _count }
    ensures ok { IfSome result (λ p. Chooses holds pay to.now pace p) }
    ensures place { IfSome result (λ p. p.at < _count) }
{
    if holds {
        let Some(paid) = pays(pay, pace) else {
            return None;
        };
        return Some(Pace {
            at: paid.at + 1,
            left: paid.left,
        });
    }
    Some(Pace {
        at: *to as usize,
        left: pace.left,
    })
}
