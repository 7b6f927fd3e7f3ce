//! Operations that touch slots, cells, the place and ticks alone. A run of them keeps the place and the ticks in hand, and makes no call.

ghost use Rattle.std.specs.Prelude.{◌≡◌, ◌+◌, ◌<◌, length, IfSome, IfNone, Some, None, slice_get};
ghost use Rattle.lua_machine.specs.declared.pace.Pass.TheVariants as pass;
ghost use Rattle.lua_code.specs.Valid.{IsValid};
ghost use Rattle.lua_machine.specs.Nests.{own_in, ups_in, IsOwner, Runnable};
ghost use Rattle.lua_machine.specs.Quick.{Quick, Within, Holds, Near, Ran, Led, IsPass};

use crate::call_info::Owner;
use crate::cells::{function_of, own_of, put_in_cell, up_of};
use crate::kinds::{
    constant, constant_of, given, moves, next_turn, of_int, of_slot, of_slots, pays_and_jumps,
    pays_on, reads_own, reads_up, test_of_int, test_of_slots, tests, tests_not,
};
use crate::pace::{Pace, Pass, Reached};
use crate::slots::slot;
use lua_code::{Function, Op};
use lua_heap::Heap;
use lua_model::Binary;
use lua_steps::law_measure_falls;
use lua_value::Value;

/// The pace that an operation leads to, if it comes to no stop; else it stays.
#[inline(always)]
fn kept(next: Option<Pace>, pace: &mut Pace) -> Option<Pass>
    ensures goes { IfNone result (next ≡ Some pace.new) }
    ensures stays { IfSome result (λ p. (p ≡ pass.Neither) × (pace.new ≡ pace.old) × (next ≡ None)) }
{
    let Some(next) = next else {
        return Some(Pass::Neither);
    };
    *pace = next;
    None
}

/// One operation. Where it is quick and comes to no stop, the pace moves on; else all stays as it was, and a call or a return is answered.
/// Of the heap it touches the cells alone. There are so many operations. `INNER` tells the copy for inner calls from that for frames, so
/// that both are put in line.
#[tactic(auto, using(crate::proofs::QuickLemmas::lifts, crate::proofs::QuickLemmas::lifts_kept, crate::proofs::QuickLemmas::kept_next, crate::proofs::QuickLemmas::kept_near, crate::proofs::QuickLemmas::stays_more))]
#[inline(always)]
fn quick<const INNER: bool>(
    code: &[Function],
    _function: u64,
    op: &Op,
    row: &mut [Value],
    heap: &mut Heap,
    owner: Owner,
    pace: &mut Pace,
    _count: usize,
) -> Option<Pass>
    requires within { Within (length row.old) op.now }
    requires near { Near _count pace.old.at op.now }
    requires place { pace.old.at < _count }
    requires owner { IsOwner owner heap.old.closures _function }
    requires holds { Holds code.now _function op.now }
    ensures ok { IfNone result (Quick code.now _function op.now (own_in owner.entry) (ups_in owner.entry heap.old.closures) row.old heap.old.cells pace.old row.new heap.new.cells pace.new) }
    ensures place { IfNone result (pace.new.at < _count) }
    ensures stays { IfSome result (λ p. (row.new ≡ row.old) × (heap.new ≡ heap.old) × (pace.new ≡ pace.old)) }
    ensures pass { IfSome result (λ p. IsPass p op.now) }
    ensures heap { heap.new ≡ record heap.old { cells = heap.new.cells } }
{
    match *op {
        Op::Nil { to } => {
            *pace = given(*op, row, to, Value::Nil, *pace);
            None
        }
        Op::Bool { to, value } => {
            *pace = given(*op, row, to, Value::Bool(value), *pace);
            None
        }
        Op::Int { to, value } => {
            *pace = constant(*op, row, to, value, *pace);
            None
        }
        Op::Constant { to, index } => {
            let function = function_of(heap, owner, _function);
            kept(constant_of(code, function, row, to, index, *pace), pace)
        }
        Op::Move { to, from } => {
            *pace = moves(*op, row, to, from, *pace);
            None
        }
        Op::Add { to, left, right } => kept(
            of_slots(
                *op,
                Binary::Add,
                row,
                u16::from(to),
                u16::from(left),
                u16::from(right),
                *pace,
            ),
            pace,
        ),
        Op::Sub { to, left, right } => kept(
            of_slots(
                *op,
                Binary::Sub,
                row,
                u16::from(to),
                u16::from(left),
                u16::from(right),
                *pace,
            ),
            pace,
        ),
        Op::Mul { to, left, right } => kept(
            of_slots(
                *op,
                Binary::Mul,
                row,
                u16::from(to),
                u16::from(left),
                u16::from(right),
                *pace,
            ),
            pace,
        ),
        Op::AddInt { to, left, value } => kept(
            of_int(
                *op,
                Binary::Add,
                row,
                u16::from(to),
                u16::from(left),
                value,
                *pace,
            ),
            pace,
        ),
        Op::MulInt { to, left, value } => kept(
            of_int(
                *op,
                Binary::Mul,
                row,
                u16::from(to),
                u16::from(left),
                value,
                *pace,
            ),
            pace,
        ),
        Op::Binary {
            op: o,
            to,
            left,
            right,
        } => kept(of_slots(*op, o, row, to, left, right, *pace), pace),
        Op::BinaryInt {
            op: o,
            to,
            left,
            value,
        } => kept(
            of_int(*op, o, row, u16::from(to), u16::from(left), value, *pace),
            pace,
        ),
        Op::Unary { op: o, to, from } => kept(of_slot(*op, o, row, to, from, *pace), pace),
        Op::Tick { pay } => kept(pays_on(*op, row, pay, *pace), pace),
        Op::Jump { at } => {
            pace.at = at as usize;
            None
        }
        Op::Loop { pay, ref at } => kept(pays_and_jumps(*op, row, pay, at, *pace), pace),
        Op::Test { from, ref at } => kept(tests(*op, row, from, at, *pace, _count), pace),
        Op::TestNot { from, ref at } => {
            *pace = tests_not(*op, row, from, at, *pace, _count);
            None
        }
        Op::UnlessLess {
            left,
            right,
            pay,
            ref at,
        } => kept(
            test_of_slots(*op, Binary::Less, row, left, right, pay, at, *pace, _count),
            pace,
        ),
        Op::UnlessLessEqual {
            left,
            right,
            pay,
            ref at,
        } => kept(
            test_of_slots(
                *op,
                Binary::LessEqual,
                row,
                left,
                right,
                pay,
                at,
                *pace,
                _count,
            ),
            pace,
        ),
        Op::UnlessEqual {
            left,
            right,
            pay,
            ref at,
        } => kept(
            test_of_slots(*op, Binary::Equal, row, left, right, pay, at, *pace, _count),
            pace,
        ),
        Op::UnlessNotEqual {
            left,
            right,
            pay,
            ref at,
        } => kept(
            test_of_slots(
                *op,
                Binary::NotEqual,
                row,
                left,
                right,
                pay,
                at,
                *pace,
                _count,
            ),
            pace,
        ),
        Op::UnlessLessInt {
            left,
            value,
            pay,
            ref at,
        } => kept(
            test_of_int(
                *op,
                Binary::Less,
                row,
                u16::from(left),
                value,
                pay,
                at,
                *pace,
                _count,
            ),
            pace,
        ),
        Op::UnlessLessEqualInt {
            left,
            value,
            pay,
            ref at,
        } => kept(
            test_of_int(
                *op,
                Binary::LessEqual,
                row,
                u16::from(left),
                value,
                pay,
                at,
                *pace,
                _count,
            ),
            pace,
        ),
        Op::UnlessGreaterInt {
            left,
            value,
            pay,
            ref at,
        } => kept(
            test_of_int(
                *op,
                Binary::Greater,
                row,
                u16::from(left),
                value,
                pay,
                at,
                *pace,
                _count,
            ),
            pace,
        ),
        Op::UnlessGreaterEqualInt {
            left,
            value,
            pay,
            ref at,
        } => kept(
            test_of_int(
                *op,
                Binary::GreaterEqual,
                row,
                u16::from(left),
                value,
                pay,
                at,
                *pace,
                _count,
            ),
            pace,
        ),
        Op::UnlessEqualInt {
            left,
            value,
            pay,
            ref at,
        } => kept(
            test_of_int(
                *op,
                Binary::Equal,
                row,
                u16::from(left),
                value,
                pay,
                at,
                *pace,
                _count,
            ),
            pace,
        ),
        Op::UnlessNotEqualInt {
            left,
            value,
            pay,
            ref at,
        } => kept(
            test_of_int(
                *op,
                Binary::NotEqual,
                row,
                u16::from(left),
                value,
                pay,
                at,
                *pace,
                _count,
            ),
            pace,
        ),
        Op::ForLoop { pay, base, ref at } => kept(
            next_turn(row, pay, base, at, *pace, _count),
            pace,
        ),
        Op::GetCell { to, cell } => kept(reads_own(row, heap, owner, to, cell, *pace), pace),
        Op::GetUp { to, up } => kept(reads_up(row, heap, owner, to, up, *pace), pace),
        Op::SetCell { cell, from } => {
            put_in_cell(heap, own_of(owner, cell), slot(row, from));
            pace.at += 1;
            None
        }
        Op::SetUp { up, from } => {
            put_in_cell(heap, up_of(heap, owner, up), slot(row, from));
            pace.at += 1;
            None
        }
        Op::Call {
            base,
            args,
            results,
        } => Some(Pass::Call {
            base,
            args,
            results,
        }),
        Op::Return { from, count } => Some(Pass::Return { from, count }),
        Op::NewCell { .. }
        | Op::Close { .. }
        | Op::CloseCell { .. }
        | Op::ForPrep { .. }
        | Op::ForCall { .. }
        | Op::ForEach { .. }
        | Op::CallAll { .. }
        | Op::TailCall { .. }
        | Op::Begin
        | Op::Push { .. }
        | Op::Append
        | Op::Dots
        | Op::DotsTo { .. }
        | Op::Spread { .. }
        | Op::Item { .. }
        | Op::CallList { .. }
        | Op::TailCallList { .. }
        | Op::ReturnList
        | Op::Start => Some(Pass::Neither),
    }
}

/// The operation at a place that is there.
#[inline(always)]
fn fetch(ops: &[Op], at: usize) -> &Op
    requires { at < length ops.now }
    ensures { slice_get ops.now at ≡ Some result.now }
{
    &ops[at]
}

/// Quick operations of a function, up to one that is not or that comes to a stop. The row begins with the frame's slots.
#[inline(always)]
pub fn block<const INNER: bool>(
    code: &[Function],
    _function: u64,
    ops: &[Op],
    row: &mut [Value],
    heap: &mut Heap,
    owner: Owner,
    start: Pace,
) -> Reached
    requires valid { IsValid code.now }
    requires runs { Runnable code.now _function ops.now 0 (length row.old) }
    requires place { start.at < length ops.now }
    requires owner { IsOwner owner heap.old.closures _function }
    ensures ran { Ran code.now _function (own_in owner.entry) (ups_in owner.entry heap.old.closures) row.old heap.old.cells start row.new heap.new.cells result.pace }
    ensures op { slice_get ops.now result.pace.at ≡ Some result.op }
    ensures pass { IsPass result.pass result.op }
    ensures place { result.pace.at < usize.MAX }
    ensures heap { heap.new ≡ record heap.old { cells = heap.new.cells } }
{
    law_measure_falls();
    let mut pace = start;
    'quick: loop {
        let op = fetch(ops, pace.at);
        if let Some(pass) = quick::<INNER>(
            code,
            _function,
            op,
            row,
            heap,
            owner,
            &mut pace,
            ops.len(),
        ) {
            return Reached {
                pace,
                op: *op,
                pass,
            };
        }
    }
}

/// The same in a whole row, in which the frame's slots begin at `base`.
#[inline(always)]
pub fn block_at<const INNER: bool>(
    code: &[Function],
    _function: u64,
    ops: &[Op],
    row: &mut [Value],
    base: usize,
    heap: &mut Heap,
    owner: Owner,
    start: Pace,
) -> Reached
    requires valid { IsValid code.now }
    requires runs { Runnable code.now _function ops.now base (length row.old) }
    requires place { start.at < length ops.now }
    requires owner { IsOwner owner heap.old.closures _function }
    ensures led { Led code.now _function (own_in owner.entry) (ups_in owner.entry heap.old.closures) base row.old heap.old.cells start row.new heap.new.cells result.pace }
    ensures op { slice_get ops.now result.pace.at ≡ Some result.op }
    ensures pass { IsPass result.pass result.op }
    ensures place { result.pace.at < usize.MAX }
    ensures heap { heap.new ≡ record heap.old { cells = heap.new.cells } }
{
    let (_before, slots) = row.split_at_mut(base);
    block::<INNER>(code, _function, ops, slots, heap, owner, start)
}
