//! What each kind of quick operation does, with the slots, the cells, the place and the ticks in hand.

ghost use Rattle.std.specs.Prelude.{◌≡◌, ◌+◌, ◌<◌, length, IfSome, IfNone, Some, slice_get};
ghost use Rattle.lua_value.specs.declared.value.Value.TheVariants as value;
ghost use Rattle.lua_value.specs.Lists.{value_at};
ghost use Rattle.lua_code.specs.declared.op.Op.TheVariants as op;
ghost use Rattle.lua_steps.specs.Exec.{cell_of, constants_of, constant_at};
ghost use Rattle.lua_machine.specs.Nests.{own_in, ups_in, IsThere};
ghost use Rattle.lua_machine.specs.Quick.{OnSlots, IsGiven, IsOfSlots, IsOfInt, IsTestOfSlots, IsTestOfInt, Turns, Gives, GivesConstant};

use crate::call_info::Owner;
use crate::cells::cells_there;
use crate::pace::Pace;
use crate::pass::function_there;
use crate::slots::{
    chooses, computed, computed_of_one, gives, long, pays, put_turn, short, slot, slot_after, tiny,
};
use lua_code::{Constant, Function, Op};
use lua_heap::Heap;
use lua_model::{Binary, Unary};
use lua_operators::integer;
use lua_value::Value;

/// A value that is known goes to a slot.
#[inline(always)]
pub fn given(_op: Op, row: &mut [Value], to: u16, value: Value, pace: Pace) -> Pace
    requires slot { to < length row.old }
    requires place { pace.at < usize.MAX }
    requires op { IsGiven _op to value }
    ensures ok { OnSlots _op row.old pace row.new result }
    ensures place { result.at ≡ pace.at + 1 }
{
    gives(row, to, value, pace)
}

/// An operator on two slots.
#[inline(always)]
pub fn of_slots(
    _op: Op,
    o: Binary,
    row: &mut [Value],
    to: u16,
    left: u16,
    right: u16,
    pace: Pace,
) -> Option<Pace>
    requires to { to < length row.old }
    requires left { left < length row.old }
    requires right { right < length row.old }
    requires place { pace.at < usize.MAX }
    requires op { IsOfSlots _op o to left right }
    ensures ok { IfSome result (λ p. OnSlots _op row.old pace row.new p) }
    ensures place { IfSome result (λ p. p.at ≡ pace.at + 1) }
    ensures none { IfNone result (row.new ≡ row.old) }
{
    let u = slot(row, left);
    let v = slot(row, right);
    let Some(value) = computed(o, u, v) else {
        return None;
    };
    Some(gives(row, to, value, pace))
}

/// An operator on one slot.
#[inline(always)]
pub fn of_slot(_op: Op, o: Unary, row: &mut [Value], to: u16, from: u16, pace: Pace) -> Option<Pace>
    requires to { to < length row.old }
    requires from { from < length row.old }
    requires place { pace.at < usize.MAX }
    requires op { _op ≡ op.Unary o to from }
    ensures ok { IfSome result (λ p. OnSlots _op row.old pace row.new p) }
    ensures place { IfSome result (λ p. p.at ≡ pace.at + 1) }
    ensures none { IfNone result (row.new ≡ row.old) }
{
    let v = slot(row, from);
    let Some(value) = computed_of_one(o, v) else {
        return None;
    };
    Some(gives(row, to, value, pace))
}

/// An operator on a slot and an integer.
#[inline(always)]
pub fn of_int(
    _op: Op,
    o: Binary,
    row: &mut [Value],
    to: u16,
    left: u16,
    right: i32,
    pace: Pace,
) -> Option<Pace>
    requires to { to < length row.old }
    requires left { left < length row.old }
    requires place { pace.at < usize.MAX }
    requires op { IsOfInt _op o to left right }
    ensures ok { IfSome result (λ p. OnSlots _op row.old pace row.new p) }
    ensures place { IfSome result (λ p. p.at ≡ pace.at + 1) }
    ensures none { IfNone result (row.new ≡ row.old) }
{
    let u = slot(row, left);
    let v = short(right);
    let Some(value) = computed(o, u, v) else {
        return None;
    };
    Some(gives(row, to, value, pace))
}

/// A comparison of two slots.
#[inline(always)]
pub fn test_of_slots(
    _op: Op,
    o: Binary,
    row: &[Value],
    left: u8,
    right: u8,
    pay: u8,
    to: &u32,
    pace: Pace,
    _count: usize,
) -> Option<Pace>
    requires left { left < length row.now }
    requires right { right < length row.now }
    requires next { pace.at + 1 < _count }
    requires jump { to.now < _count }
    requires op { IsTestOfSlots _op o left right pay to.now }
    ensures ok { IfSome result (λ p. OnSlots _op row.now pace row.now p) }
    ensures place { IfSome result (λ p. p.at < _count) }
{
    let u = slot(row, u16::from(left));
    let v = slot(row, u16::from(right));
    let Some(value) = computed(o, u, v) else {
        return None;
    };
    chooses(value.is_true(), pay, to, pace, _count)
}

/// A comparison of a slot with an integer.
#[inline(always)]
pub fn test_of_int(
    _op: Op,
    o: Binary,
    row: &[Value],
    left: u16,
    right: i8,
    pay: u8,
    to: &u32,
    pace: Pace,
    _count: usize,
) -> Option<Pace>
    requires left { left < length row.now }
    requires next { pace.at + 1 < _count }
    requires jump { to.now < _count }
    requires op { IsTestOfInt _op o left right pay to.now }
    ensures ok { IfSome result (λ p. OnSlots _op row.now pace row.now p) }
    ensures place { IfSome result (λ p. p.at < _count) }
{
    let u = slot(row, left);
    let v = tiny(right);
    let Some(value) = computed(o, u, v) else {
        return None;
    };
    chooses(value.is_true(), pay, to, pace, _count)
}

/// The next turn of a numeric loop, or its end.
#[inline(always)]
pub fn next_turn(
    row: &mut [Value],
    pay: u8,
    base: u16,
    to: &u32,
    pace: Pace,
    _count: usize,
) -> Option<Pace>
    requires slots { base + 3 < length row.old }
    requires next { pace.at + 1 < _count }
    requires jump { to.now < _count }
    ensures ok { IfSome result (λ p. OnSlots (op.ForLoop pay base to.now) row.old pace row.new p) }
    ensures place { IfSome result (λ p. p.at < _count) }
    ensures none { IfNone result (row.new ≡ row.old) }
{
    let (Value::Int(left), Value::Int(value), Value::Int(step)) = (
        slot(row, base),
        slot_after(row, base, 1),
        slot_after(row, base, 2),
    ) else {
        return None;
    };
    let turns = left.cast_unsigned();
    turn_by(row, pay, base, to, pace, _count, turns, value, step)
}

#[inline(always)]
fn turn_by(
    row: &mut [Value],
    pay: u8,
    base: u16,
    to: &u32,
    pace: Pace,
    _count: usize,
    left: u64,
    at: i64,
    step: i64,
) -> Option<Pace>
    requires slots { base + 3 < length row.old }
    requires step { value_at row.old (base + 2) ≡ value.Int step }
    requires next { pace.at + 1 < _count }
    requires jump { to.now < _count }
    ensures ok { IfSome result (λ p. Turns left at step pay base to.now row.old pace row.new p) }
    ensures place { IfSome result (λ p. p.at < _count) }
    ensures none { IfNone result (row.new ≡ row.old) }
{
    if left == 0 {
        return Some(Pace {
            at: pace.at + 1,
            left: pace.left,
        });
    }
    let Some(paid) = pays(pay, pace) else {
        return None;
    };
    put_turn(row, base, left - 1, integer::add(at, step));
    Some(Pace {
        at: *to as usize,
        left: paid.left,
    })
}

/// A slot whose truth is asked.
#[inline(always)]
pub fn tests(_op: Op, row: &[Value], from: u16, to: &u32, pace: Pace, _count: usize) -> Option<Pace>
    requires from { from < length row.now }
    requires next { pace.at + 1 < _count }
    requires jump { to.now < _count }
    requires op { _op ≡ op.Test from to.now }
    ensures ok { IfSome result (λ p. OnSlots _op row.now pace row.now p) }
    ensures place { IfSome result (λ p. p.at < _count) }
{
    let value = slot(row, from);
    chooses(value.is_true(), 0, to, pace, _count)
}

/// The same, for a jump where it is true.
#[inline(always)]
pub fn tests_not(_op: Op, row: &[Value], from: u16, to: &u32, pace: Pace, _count: usize) -> Pace
    requires from { from < length row.now }
    requires next { pace.at + 1 < _count }
    requires jump { to.now < _count }
    requires op { _op ≡ op.TestNot from to.now }
    ensures ok { OnSlots _op row.now pace row.now result }
    ensures place { result.at < _count }
{
    let value = slot(row, from);
    if value.is_true() {
        return Pace {
            at: *to as usize,
            left: pace.left,
        };
    }
    Pace {
        at: pace.at + 1,
        left: pace.left,
    }
}

/// The ticks are paid, and a jump follows.
#[inline(always)]
pub fn pays_and_jumps(_op: Op, _row: &[Value], pay: u8, to: &u32, pace: Pace) -> Option<Pace>
    requires op { _op ≡ op.Loop pay to.now }
    ensures ok { IfSome result (λ p. OnSlots _op _row.now pace _row.now p) }
    ensures place { IfSome result (λ p. p.at ≡ to.now) }
{
    let Some(paid) = pays(pay, pace) else {
        return None;
    };
    Some(Pace {
        at: *to as usize,
        left: paid.left,
    })
}

/// The ticks are paid, and the next operation follows.
#[inline(always)]
pub fn pays_on(_op: Op, _row: &[Value], pay: u8, pace: Pace) -> Option<Pace>
    requires place { pace.at < usize.MAX }
    requires op { _op ≡ op.Tick pay }
    ensures ok { IfSome result (λ p. OnSlots _op _row.now pace _row.now p) }
    ensures place { IfSome result (λ p. p.at ≡ pace.at + 1) }
{
    let Some(paid) = pays(pay, pace) else {
        return None;
    };
    Some(Pace {
        at: paid.at + 1,
        left: paid.left,
    })
}

/// A slot's value goes to another.
#[inline(always)]
pub fn moves(_op: Op, row: &mut [Value], to: u16, from: u16, pace: Pace) -> Pace
    requires to { to < length row.old }
    requires from { from < length row.old }
    requires place { pace.at < usize.MAX }
    requires op { _op ≡ op.Move to from }
    ensures ok { OnSlots _op row.old pace row.new result }
    ensures place { result.at ≡ pace.at + 1 }
{
    let value = slot(row, from);
    gives(row, to, value, pace)
}

/// An integer of the code goes to a slot.
#[inline(always)]
pub fn constant(_op: Op, row: &mut [Value], to: u16, n: i32, pace: Pace) -> Pace
    requires to { to < length row.old }
    requires place { pace.at < usize.MAX }
    requires op { IsGiven _op to (value.Int n) }
    ensures ok { OnSlots _op row.old pace row.new result }
    ensures place { result.at ≡ pace.at + 1 }
{
    let value = short(n);
    given(_op, row, to, value, pace)
}

/// The constant of a function that is there.
#[inline(always)]
fn constant_there(code: &[Function], function: u64, index: u32) -> &Constant
    requires function { function < length code.now }
    requires index { index < length (constants_of (slice_get code.now function)) }
    ensures { constant_at code.now function index ≡ Some result.now }
{
    let routine = function_there(code, function);
    &routine.constants()[index as usize]
}

/// A constant of the function goes to a slot, if it is an integer.
#[inline(always)]
pub fn constant_of(
    code: &[Function],
    function: u64,
    row: &mut [Value],
    to: u16,
    index: u32,
    pace: Pace,
) -> Option<Pace>
    requires slot { to < length row.old }
    requires place { pace.at < usize.MAX }
    requires function { function < length code.now }
    requires index { index < length (constants_of (slice_get code.now function)) }
    ensures ok { IfSome result (λ p. GivesConstant row.old pace to (constant_at code.now function index) row.new p) }
    ensures place { IfSome result (λ p. p.at ≡ pace.at + 1) }
    ensures none { IfNone result (row.new ≡ row.old) }
{
    let Constant::Int(n) = constant_there(code, function, index) else {
        return None;
    };
    let value = long(*n);
    Some(gives(row, to, value, pace))
}

/// The value of one of these cells goes to a slot, if there is such a cell.
#[inline(always)]
pub fn reads(
    row: &mut [Value],
    heap: &Heap,
    cells: &[u64],
    to: u16,
    i: u16,
    pace: Pace,
) -> Option<Pace>
    requires slot { to < length row.old }
    requires place { pace.at < usize.MAX }
    ensures ok { IfSome result (λ p. Gives row.old pace to (value_at heap.now.cells (cell_of cells.now i)) row.new p) }
    ensures place { IfSome result (λ p. p.at ≡ pace.at + 1) }
    ensures none { IfNone result (row.new ≡ row.old) }
{
    let Some(cell) = cells.get(i as usize) else {
        return None;
    };
    if *cell >= heap.cell_count() as u64 {
        return None;
    }
    let value = heap.cell_get(*cell);
    Some(gives(row, to, value, pace))
}

/// The value of one of the cells of a body's captured locals goes to a slot.
#[inline(always)]
pub fn reads_own(
    row: &mut [Value],
    heap: &Heap,
    owner: Owner,
    to: u16,
    i: u16,
    pace: Pace,
) -> Option<Pace>
    requires slot { to < length row.old }
    requires place { pace.at < usize.MAX }
    ensures ok { IfSome result (λ p. Gives row.old pace to (value_at heap.now.cells (cell_of (own_in owner.entry) i)) row.new p) }
    ensures place { IfSome result (λ p. p.at ≡ pace.at + 1) }
    ensures none { IfNone result (row.new ≡ row.old) }
{
    match owner {
        Owner::Frame(frame) => reads(row, heap, frame.own_cells(), to, i, pace),
        Owner::Closure(_) => None,
    }
}

/// The value of one of the cells of a body's closure goes to a slot.
#[inline(always)]
pub fn reads_up(
    row: &mut [Value],
    heap: &Heap,
    owner: Owner,
    to: u16,
    i: u16,
    pace: Pace,
) -> Option<Pace>
    requires slot { to < length row.old }
    requires place { pace.at < usize.MAX }
    requires there { IsThere owner heap.now.closures }
    ensures ok { IfSome result (λ p. Gives row.old pace to (value_at heap.now.cells (cell_of (ups_in owner.entry heap.now.closures) i)) row.new p) }
    ensures place { IfSome result (λ p. p.at ≡ pace.at + 1) }
    ensures none { IfNone result (row.new ≡ row.old) }
{
    match owner {
        Owner::Frame(frame) => reads(row, heap, frame.up_cells(), to, i, pace),
        Owner::Closure(closure) => reads(row, heap, cells_there(heap, closure), to, i, pace),
    }
}
