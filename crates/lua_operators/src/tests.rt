//! Values taken from Lua 5.4, and with ample memory no call answers want of it.

use crate::{Answer, binary, unary};
use lua_heap::Heap;
use lua_model::{Binary, Refusal, Unary};
use lua_value::Value;
use sk_types::NoMemory;
use std::alloc::Global;
use std::test::Fail;

#[derive(Drop)]
struct Case {
    op: Binary,
    left: i64,
    right: i64,
    value: i64,
}

fn row(op: Binary, left: i64, right: i64, value: i64) -> Case {
    Case {
        op,
        left,
        right,
        value,
    }
}

fn holds(alloc: Global, heap: &Heap, case: &Case) -> Result<bool, NoMemory> {
    let answer = binary(
        alloc,
        heap,
        case.op,
        Value::Int(case.left),
        Value::Int(case.right),
    )?;
    Ok(matches!(answer, Answer::Plain(Value::Int(n)) if n == case.value))
}

#[test]
fn integers_are_as_in_lua(rt: HostRuntime) -> Result<(), Fail> {
    let heap = Heap::new(rt.alloc(), 100);
    let least = i64::MIN;
    let most = i64::MAX;
    let cases = [
        row(Binary::Add, most, 1, least),
        row(Binary::Sub, least, 1, most),
        row(Binary::Mul, most, 2, -2),
        row(Binary::FloorDiv, 7, -2, -4),
        row(Binary::FloorDiv, -7, 2, -4),
        row(Binary::FloorDiv, -7, -2, 3),
        row(Binary::FloorDiv, 6, -2, -3),
        row(Binary::FloorDiv, 0, -5, 0),
        row(Binary::FloorDiv, least, -1, least),
        row(Binary::FloorDiv, least, least, 1),
        row(Binary::FloorDiv, most, least, -1),
        row(Binary::Mod, 7, -2, -1),
        row(Binary::Mod, -7, 2, 1),
        row(Binary::Mod, -7, -2, -1),
        row(Binary::Mod, least, -1, 0),
        row(Binary::Mod, most, least, -1),
        row(Binary::Mod, least, most, most - 1),
        row(Binary::BitAnd, -2, 7, 6),
        row(Binary::BitOr, -8, 5, -3),
        row(Binary::BitXor, -1, 1, -2),
        row(Binary::ShiftLeft, 1, 63, least),
        row(Binary::ShiftLeft, 1, 64, 0),
        row(Binary::ShiftLeft, 8, -2, 2),
        row(Binary::ShiftLeft, 1, least, 0),
        row(Binary::ShiftRight, -1, 1, most),
        row(Binary::ShiftRight, -1, 63, 1),
        row(Binary::ShiftRight, -1, 64, 0),
        row(Binary::ShiftRight, 1, -3, 8),
    ];
    for case in cases.iter() {
        assert!(rt; holds(rt.alloc(), &heap, case)?);
    }
    Ok(())
}

#[test]
fn refusals_name_the_value(rt: HostRuntime) -> Result<(), Fail> {
    let heap = Heap::new(rt.alloc(), 100);
    let zero = binary(rt.alloc(), &heap, Binary::Mod, Value::Int(1), Value::Int(0))?;
    assert!(rt; matches!(zero, Answer::Refused(Refusal::DivideByZero)));
    let first = binary(
        rt.alloc(),
        &heap,
        Binary::Add,
        Value::Nil,
        Value::Bool(true),
    )?;
    assert!(rt; matches!(first, Answer::Refused(Refusal::Arithmetic(Value::Nil))));
    let second = binary(
        rt.alloc(),
        &heap,
        Binary::BitOr,
        Value::Int(1),
        Value::Bool(true),
    )?;
    assert!(rt; matches!(second, Answer::Refused(Refusal::Bitwise(Value::Bool(true)))));
    let mixed = binary(
        rt.alloc(),
        &heap,
        Binary::Greater,
        Value::Int(1),
        Value::Nil,
    )?;
    assert!(rt;
        matches!(
            mixed,
            Answer::Refused(Refusal::Compare(Value::Nil, Value::Int(1)))
        )
    );
    let length = unary(&heap, Unary::Length, Value::Int(3));
    assert!(rt; matches!(length, Answer::Refused(Refusal::Length(Value::Int(3)))));
    Ok(())
}

#[test]
fn strings_join_and_compare(rt: HostRuntime) -> Result<(), Fail> {
    let mut heap = Heap::new(rt.alloc(), 100);
    let a = heap.text(b"ab")?;
    let b = heap.text(b"ab\0")?;
    let joined = binary(rt.alloc(), &heap, Binary::Concat, a, Value::Int(-12))?;
    assert!(rt; matches!(&joined, Answer::Fresh(text) if text.as_slice() == b"ab-12".as_slice()));
    let refused = binary(rt.alloc(), &heap, Binary::Concat, a, Value::Nil)?;
    assert!(rt; matches!(refused, Answer::Refused(Refusal::Concatenate(Value::Nil))));
    let less = binary(rt.alloc(), &heap, Binary::Less, a, b)?;
    assert!(rt; matches!(less, Answer::Plain(Value::Bool(true))));
    let equal = binary(rt.alloc(), &heap, Binary::GreaterEqual, a, a)?;
    assert!(rt; matches!(equal, Answer::Plain(Value::Bool(true))));
    let length = unary(&heap, Unary::Length, b);
    assert!(rt; matches!(length, Answer::Plain(Value::Int(3))));
    Ok(())
}
