ghost use Rattle.std.specs.Prelude.{◌≡◌, ◌<◌, ◌↔◌, ℕ, [], length, IsTrue, IfSome, slice_get, Some};
ghost use Rattle.lua_code.specs.Valid.{Fits, IsValid, IsValidFunction, AllFit, AllValid, Whole, HasChunk};

use crate::fits::{
    branch, can_close, compare, goes_on, has_cell, has_slots, has_up, is_forward, one, pays, three,
    turn, two,
};
use crate::function::{Code, Function};
use crate::op::Op;

fn fits(code: &[Function], f: &Function, at: usize, op: Op) -> bool
    requires { at < length f.now.ops }
    ensures { IsTrue result ↔ Fits code.now f.now at op }
{
    match op {
        Op::Nil { to } => one(f, at, to),
        Op::Bool { to, .. } => one(f, at, to),
        Op::Int { to, .. } => one(f, at, to),
        Op::Constant { to, index } => has_slots(f, to, 1)
            && (index as usize) < f.constants().len()
            && goes_on(f, at),
        Op::Move { to, from } => two(f, at, to, from),
        Op::NewCell { cell, from } => has_cell(f, cell) && one(f, at, from),
        Op::GetCell { to, cell } => has_slots(f, to, 1) && has_cell(f, cell) && goes_on(f, at),
        Op::SetCell { cell, from } => has_cell(f, cell) && one(f, at, from),
        Op::GetUp { to, up } => has_slots(f, to, 1) && has_up(f, up) && goes_on(f, at),
        Op::SetUp { up, from } => has_up(f, up) && one(f, at, from),
        Op::Close { to, function } => has_slots(f, to, 1)
            && can_close(code, f, function)
            && goes_on(f, at),
        Op::CloseCell { cell, function } => has_cell(f, cell)
            && can_close(code, f, function)
            && goes_on(f, at),
        Op::Add { to, left, right } => three(f, at, to as u16, left as u16, right as u16),
        Op::Sub { to, left, right } => three(f, at, to as u16, left as u16, right as u16),
        Op::Mul { to, left, right } => three(f, at, to as u16, left as u16, right as u16),
        Op::AddInt { to, left, .. } => two(f, at, to as u16, left as u16),
        Op::MulInt { to, left, .. } => two(f, at, to as u16, left as u16),
        Op::BinaryInt { to, left, .. } => two(f, at, to as u16, left as u16),
        Op::Binary {
            to,
            left,
            right,
            ..
        } => three(f, at, to, left, right),
        Op::Unary { to, from, .. } => two(f, at, to, from),
        Op::Tick { .. } => goes_on(f, at),
        Op::Jump { at: to } => is_forward(f, at, to),
        Op::Loop { pay, at: to } => pays(f, pay, to),
        Op::Test { from, at: to } => branch(f, at, from, to),
        Op::TestNot { from, at: to } => branch(f, at, from, to),
        Op::UnlessLess {
            left,
            right,
            at: to,
            ..
        } => compare(f, at, left, right, to),
        Op::UnlessLessEqual {
            left,
            right,
            at: to,
            ..
        } => compare(f, at, left, right, to),
        Op::UnlessEqual {
            left,
            right,
            at: to,
            ..
        } => compare(f, at, left, right, to),
        Op::UnlessNotEqual {
            left,
            right,
            at: to,
            ..
        } => compare(f, at, left, right, to),
        Op::UnlessLessInt { left, at: to, .. } => branch(f, at, left as u16, to),
        Op::UnlessLessEqualInt { left, at: to, .. } => branch(f, at, left as u16, to),
        Op::UnlessGreaterInt { left, at: to, .. } => branch(f, at, left as u16, to),
        Op::UnlessGreaterEqualInt { left, at: to, .. } => branch(f, at, left as u16, to),
        Op::UnlessEqualInt { left, at: to, .. } => branch(f, at, left as u16, to),
        Op::UnlessNotEqualInt { left, at: to, .. } => branch(f, at, left as u16, to),
        Op::ForPrep { base, at: to, .. } => has_slots(f, base, 4)
            && is_forward(f, at, to)
            && goes_on(f, at),
        Op::ForLoop { base, pay, at: to } => turn(f, at, base, pay, to),
        Op::ForCall { base, results } => has_slots(f, base, 3 + results as u32)
            && 0 < results
            && goes_on(f, at),
        Op::ForEach { base, pay, at: to } => turn(f, at, base, pay, to),
        Op::Call {
            base,
            args,
            results,
        } => has_slots(f, base, 1 + args as u32)
            && has_slots(f, base, results as u32)
            && goes_on(f, at),
        Op::CallAll { base, args } => has_slots(f, base, 1 + args as u32) && goes_on(f, at),
        Op::TailCall { base, args } => has_slots(f, base, 1 + args as u32) && goes_on(f, at),
        Op::Return { from, count } => has_slots(f, from, count as u32),
        Op::Begin => goes_on(f, at),
        Op::Push { from } => one(f, at, from),
        Op::Append => goes_on(f, at),
        Op::Dots => goes_on(f, at),
        Op::DotsTo { to, count } => has_slots(f, to, count as u32) && goes_on(f, at),
        Op::Spread { to, count } => has_slots(f, to, count as u32) && goes_on(f, at),
        Op::Item { to, .. } => one(f, at, to),
        Op::CallList { .. } => goes_on(f, at),
        Op::TailCallList { .. } => goes_on(f, at),
        Op::ReturnList => true,
        Op::Start => goes_on(f, at),
    }
}

fn all_fit(code: &[Function], f: &Function) -> bool
    ensures { IsTrue result ↔ AllFit code.now f.now }
{
    for at in 0..f.ops().len() {
        if !fits(code, f, at, f.ops()[at]) {
            return false;
        }
    }
    true
}

// What a function asks besides its operations.
fn is_whole(f: &Function) -> bool
    ensures { IsTrue result ↔ Whole f.now }
{
    let shape = f.shape();
    0 < f.ops().len()
        && f.lines().len() == f.ops().len()
        && shape.params <= shape.slots
        && 0 < shape.pay
}

fn is_valid_function(code: &[Function], f: &Function) -> bool
    ensures { IsTrue result ↔ IsValidFunction code.now f.now }
{
    is_whole(f) && all_fit(code, f)
}

fn all_valid(code: &[Function]) -> bool
    ensures { IsTrue result ↔ AllValid code.now }
{
    for place in 0..code.len() {
        if !is_valid_function(code, &code[place]) {
            return false;
        }
    }
    true
}

fn captures_nothing(f: &Function) -> bool
    ensures { IsTrue result ↔ f.now.captures ≡ [] }
{
    f.captures().is_empty()
}

fn has_chunk(code: &[Function]) -> bool
    ensures { IsTrue result ↔ HasChunk code.now }
{
    match code.get(code.len().saturating_sub(1)) {
        Some(chunk) => captures_nothing(chunk),
        None => false,
    }
}

/// Whether a machine can run this code without a test of its own: each jump, slot, cell, constant and function number is in range,
/// each path ends in a return, and each jump back and each entry of a function pays a tick.
pub fn valid(code: &Code) -> bool
    ensures { IsTrue result ↔ IsValid code.now }
{
    has_chunk(code.functions()) && all_valid(code.functions())
}
