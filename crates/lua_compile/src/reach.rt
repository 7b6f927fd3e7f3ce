//! How many slots and cells an operation needs.

ghost use Rattle.std.specs.Prelude.{◌≡◌, ◌+◌, ◌<◌, ◌^◌, max, IfOk};
ghost use Rattle.lua_compile.specs.Writer.{reach, cell_reach, widened};

use crate::number::slot_of;
use lua_code::{Op, Shape};
use sk_types::NoMemory;

// The slot after so many from this one on.
fn past(from: u16, count: u16) -> usize
    ensures { result ≡ from + count }
{
    from as usize + count as usize
}

// The slot after both.
fn two(a: u16, b: u16) -> usize
    ensures { result ≡ max (a + 1) (b + 1) }
{
    past(a, 1).max(past(b, 1))
}

fn three(a: u16, b: u16, c: u16) -> usize
    ensures { result ≡ max (a + 1) (max (b + 1) (c + 1)) }
{
    past(a, 1).max(two(b, c))
}

// The slot after those that an operation names.
fn reach(op: Op) -> usize
    ensures { result ≡ reach op }
{
    match op {
        Op::Nil { to } => past(to, 1),
        Op::Bool { to, .. } => past(to, 1),
        Op::Int { to, .. } => past(to, 1),
        Op::Constant { to, .. } => past(to, 1),
        Op::Move { to, from } => two(to, from),
        Op::NewCell { from, .. } => past(from, 1),
        Op::GetCell { to, .. } => past(to, 1),
        Op::SetCell { from, .. } => past(from, 1),
        Op::GetUp { to, .. } => past(to, 1),
        Op::SetUp { from, .. } => past(from, 1),
        Op::Close { to, .. } => past(to, 1),
        Op::CloseCell { .. } => 0,
        Op::Add { to, left, right } => three(to as u16, left as u16, right as u16),
        Op::Sub { to, left, right } => three(to as u16, left as u16, right as u16),
        Op::Mul { to, left, right } => three(to as u16, left as u16, right as u16),
        Op::AddInt { to, left, .. } => two(to as u16, left as u16),
        Op::MulInt { to, left, .. } => two(to as u16, left as u16),
        Op::BinaryInt { to, left, .. } => two(to as u16, left as u16),
        Op::Binary {
            to,
            left,
            right,
            ..
        } => three(to, left, right),
        Op::Unary { to, from, .. } => two(to, from),
        Op::Tick { .. } => 0,
        Op::Jump { .. } => 0,
        Op::Loop { .. } => 0,
        Op::Test { from, .. } => past(from, 1),
        Op::TestNot { from, .. } => past(from, 1),
        Op::UnlessLess { left, right, .. } => two(left as u16, right as u16),
        Op::UnlessLessEqual { left, right, .. } => two(left as u16, right as u16),
        Op::UnlessEqual { left, right, .. } => two(left as u16, right as u16),
        Op::UnlessNotEqual { left, right, .. } => two(left as u16, right as u16),
        Op::UnlessLessInt { left, .. } => past(left as u16, 1),
        Op::UnlessLessEqualInt { left, .. } => past(left as u16, 1),
        Op::UnlessGreaterInt { left, .. } => past(left as u16, 1),
        Op::UnlessGreaterEqualInt { left, .. } => past(left as u16, 1),
        Op::UnlessEqualInt { left, .. } => past(left as u16, 1),
        Op::UnlessNotEqualInt { left, .. } => past(left as u16, 1),
        Op::ForPrep { base, .. } => past(base, 4),
        Op::ForLoop { base, .. } => past(base, 4),
        Op::ForCall { base, results } => past(base, 3) + results as usize,
        Op::ForEach { base, .. } => past(base, 4),
        Op::Call {
            base,
            args,
            results,
        } => (past(base, 1) + args as usize).max(past(base, results)),
        Op::CallAll { base, args } => past(base, 1) + args as usize,
        Op::TailCall { base, args } => past(base, 1) + args as usize,
        Op::Return { from, count } => past(from, count),
        Op::Begin => 0,
        Op::Push { from } => past(from, 1),
        Op::Append => 0,
        Op::Dots => 0,
        Op::DotsTo { to, count } => past(to, count),
        Op::Spread { to, count } => past(to, count),
        Op::Item { to, .. } => past(to, 1),
        Op::CallList { .. } => 0,
        Op::TailCallList { .. } => 0,
        Op::ReturnList => 0,
        Op::Start => 0,
    }
}

// The cell after the one that an operation names.
fn cell_reach(op: Op) -> usize
    ensures { result ≡ cell_reach op }
{
    match op {
        Op::NewCell { cell, .. } => past(cell, 1),
        Op::GetCell { cell, .. } => past(cell, 1),
        Op::SetCell { cell, .. } => past(cell, 1),
        Op::CloseCell { cell, .. } => past(cell, 1),
        _ => 0,
    }
}

/// What a function needs with one operation more.
pub fn widened(op: Op, shape: Shape) -> Result<Shape, NoMemory>
    ensures { IfOk result (λ wider. wider ≡ widened op shape) }
{
    let slots = slot_of((shape.slots as usize).max(reach(op)))?;
    let cells = slot_of((shape.cells as usize).max(cell_reach(op)))?;
    Ok(Shape {
        slots,
        cells,
        ..shape
    })
}
