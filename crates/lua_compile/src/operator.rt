//! Operations of operators, and the chains in which they stand.

ghost use Rattle.std.specs.Prelude.{◌≡◌, ◌&&◌, ltb, map, if◌then◌else◌, IfOk, OnOk};
ghost use Rattle.lua_tree.specs.View.{operand_of, operands_of};
ghost use Rattle.lua_meaning.specs.Values.{link_of, unary_of};
ghost use Rattle.lua_steps.specs.Stand.{Reg, Imm, short_op, int_op, test_op};
ghost use Rattle.lua_compile.specs.Forms.{differ, is_unless, is_slot, is_short, on_slot, shown_of, some_written, or_else, binary_written, is_comparison, no_more, tests, room_for, test_written, unary_slot, so_far, last_settled, link_aim, base_aim, and_pay, and_aim, is_both, all_and};
ghost use Rattle.lua_compile.specs.Links.{link_in};

use crate::aim::{Aim, Link, Operand, Room};
use crate::number::{byte_of, negative_of, short_of, word_of};
use crate::value::{is_unless, register};
use crate::writer::Writer;
use lua_code::Op;
use lua_model::{Binary, Unary};
use lua_tree::{BinaryOp, Operand as Operation, UnaryOp};
use sk_types::NoMemory;

pub fn link_of(op: BinaryOp) -> Link
    ensures { link_in result ≡ link_of op }
{
    match op {
        BinaryOp::Or => Link::Either,
        BinaryOp::And => Link::Both,
        BinaryOp::Less => Link::Strict(Binary::Less),
        BinaryOp::Greater => Link::Strict(Binary::Greater),
        BinaryOp::LessEqual => Link::Strict(Binary::LessEqual),
        BinaryOp::GreaterEqual => Link::Strict(Binary::GreaterEqual),
        BinaryOp::NotEqual => Link::Strict(Binary::NotEqual),
        BinaryOp::Equal => Link::Strict(Binary::Equal),
        BinaryOp::BitOr => Link::Strict(Binary::BitOr),
        BinaryOp::BitXor => Link::Strict(Binary::BitXor),
        BinaryOp::BitAnd => Link::Strict(Binary::BitAnd),
        BinaryOp::ShiftLeft => Link::Strict(Binary::ShiftLeft),
        BinaryOp::ShiftRight => Link::Strict(Binary::ShiftRight),
        BinaryOp::Concat => Link::Strict(Binary::Concat),
        BinaryOp::Add => Link::Strict(Binary::Add),
        BinaryOp::Subtract => Link::Strict(Binary::Sub),
        BinaryOp::Multiply => Link::Strict(Binary::Mul),
        BinaryOp::Divide => Link::Strict(Binary::FloorDiv),
        BinaryOp::Remainder => Link::Strict(Binary::Mod),
    }
}

pub fn unary_of(op: UnaryOp) -> Unary
    ensures { result ≡ unary_of op }
{
    match op {
        UnaryOp::Not => Unary::Not,
        UnaryOp::Length => Unary::Length,
        UnaryOp::Negate => Unary::Minus,
        UnaryOp::BitNot => Unary::BitNot,
    }
}

pub fn is_slot(operand: Operand, d: u16) -> bool
    ensures { result ≡ is_slot operand d }
{
    match operand {
        Operand::Slot(slot) => slot == d,
        Operand::Constant(_) => false,
    }
}

// Whether an operation that names the first 256 slots alone can take it.
fn is_short(operand: Operand) -> bool
    ensures { result ≡ is_short operand }
{
    match operand {
        Operand::Slot(slot) => slot < 256,
        Operand::Constant(_) => true,
    }
}

fn all_short(to: u16, left: u16, right: u16) -> bool
    ensures { result ≡ (ltb to 256 && ltb left 256 && ltb right 256) }
{
    to < 256 && left < 256 && right < 256
}

fn short_op(op: Binary, to: u8, left: u8, right: u8) -> Option<Op>
    ensures { result ≡ short_op op to left right }
{
    match op {
        Binary::Add => Some(Op::Add { to, left, right }),
        Binary::Sub => Some(Op::Sub { to, left, right }),
        Binary::Mul => Some(Op::Mul { to, left, right }),
        _ => None,
    }
}

// With an integer as the right operand.
fn int_op(op: Binary, to: u16, left: u16, n: i64) -> Result<Op, NoMemory>
    ensures { IfOk result (λ o. o ≡ int_op op to left n) }
{
    let to = short_of(to)?;
    let left = short_of(left)?;
    match op {
        Binary::Add => {
            let value = word_of(n)?;
            Ok(Op::AddInt { to, left, value })
        }
        Binary::Sub => {
            let value = negative_of(n)?;
            Ok(Op::AddInt { to, left, value })
        }
        Binary::Mul => {
            let value = word_of(n)?;
            Ok(Op::MulInt { to, left, value })
        }
        _ => {
            let value = word_of(n)?;
            Ok(Op::BinaryInt {
                op,
                to,
                left,
                value,
            })
        }
    }
}

fn is_comparison(op: Binary) -> bool
    ensures { result ≡ is_comparison op }
{
    match op {
        Binary::Equal => true,
        Binary::NotEqual => true,
        Binary::Less => true,
        Binary::LessEqual => true,
        Binary::Greater => true,
        Binary::GreaterEqual => true,
        _ => false,
    }
}

pub fn no_more(rest: &[Operation]) -> bool
    ensures { result ≡ no_more (operands_of (map operand_of rest.now)) }
{
    match rest.split_first() {
        Some(_) => false,
        None => true,
    }
}

/// Whether the last operator of a chain is a comparison that jumps by itself.
pub fn is_test(op: Binary, rest: &[Operation], aim: Aim, left: Operand, d: u16) -> bool
    ensures { result ≡ tests op (operands_of (map operand_of rest.now)) aim left d }
{
    is_comparison(op) && no_more(rest) && is_unless(aim) && is_short(left) && d < 255
}

/// Which integers may stay in the operator's operation as its right operand.
pub fn room_for(tested: bool, left: Operand, to: u16) -> Room
    ensures { result ≡ room_for tested left to }
{
    if tested {
        return Room::Byte;
    }
    if is_short(left) && to < 256 {
        Room::Word
    } else {
        Room::Nothing
    }
}

fn slots_test(op: Binary, left: u8, right: u8, pay: u8, at: u32) -> Option<Op>
    ensures { result ≡ test_op op (Reg left) (Reg right) pay at }
{
    match op {
        Binary::Less => Some(Op::UnlessLess {
            left,
            right,
            pay,
            at,
        }),
        Binary::LessEqual => Some(Op::UnlessLessEqual {
            left,
            right,
            pay,
            at,
        }),
        Binary::Greater => Some(Op::UnlessLess {
            left: right,
            right: left,
            pay,
            at,
        }),
        Binary::GreaterEqual => Some(Op::UnlessLessEqual {
            left: right,
            right: left,
            pay,
            at,
        }),
        Binary::Equal => Some(Op::UnlessEqual {
            left,
            right,
            pay,
            at,
        }),
        Binary::NotEqual => Some(Op::UnlessNotEqual {
            left,
            right,
            pay,
            at,
        }),
        _ => None,
    }
}

fn right_int_test(op: Binary, left: u8, value: i8, pay: u8, at: u32) -> Option<Op>
    ensures { result ≡ test_op op (Reg left) (Imm value) pay at }
{
    match op {
        Binary::Less => Some(Op::UnlessLessInt {
            left,
            value,
            pay,
            at,
        }),
        Binary::LessEqual => Some(Op::UnlessLessEqualInt {
            left,
            value,
            pay,
            at,
        }),
        Binary::Greater => Some(Op::UnlessGreaterInt {
            left,
            value,
            pay,
            at,
        }),
        Binary::GreaterEqual => Some(Op::UnlessGreaterEqualInt {
            left,
            value,
            pay,
            at,
        }),
        Binary::Equal => Some(Op::UnlessEqualInt {
            left,
            value,
            pay,
            at,
        }),
        Binary::NotEqual => Some(Op::UnlessNotEqualInt {
            left,
            value,
            pay,
            at,
        }),
        _ => None,
    }
}

fn left_int_test(op: Binary, value: i8, left: u8, pay: u8, at: u32) -> Option<Op>
    ensures { result ≡ test_op op (Imm value) (Reg left) pay at }
{
    match op {
        Binary::Less => Some(Op::UnlessGreaterInt {
            left,
            value,
            pay,
            at,
        }),
        Binary::LessEqual => Some(Op::UnlessGreaterEqualInt {
            left,
            value,
            pay,
            at,
        }),
        Binary::Greater => Some(Op::UnlessLessInt {
            left,
            value,
            pay,
            at,
        }),
        Binary::GreaterEqual => Some(Op::UnlessLessEqualInt {
            left,
            value,
            pay,
            at,
        }),
        Binary::Equal => Some(Op::UnlessEqualInt {
            left,
            value,
            pay,
            at,
        }),
        Binary::NotEqual => Some(Op::UnlessNotEqualInt {
            left,
            value,
            pay,
            at,
        }),
        _ => None,
    }
}

fn no_test(op: Binary, left: i64, right: i64, pay: u8, at: u32) -> Option<Op>
    ensures { result ≡ test_op op (Imm left) (Imm right) pay at }
{
    let _ = (op, left, right, pay, at);
    None
}

// The comparison that pays and goes on where it holds, and else jumps.
fn test_op(
    op: Binary,
    left: Operand,
    right: Operand,
    pay: u8,
    at: u32,
) -> Result<Option<Op>, NoMemory>
    ensures { IfOk result (λ o. o ≡ test_op op (shown_of left) (shown_of right) pay at) }
{
    match left {
        Operand::Slot(x) => match right {
            Operand::Slot(y) => {
                let x = short_of(x)?;
                let y = short_of(y)?;
                Ok(slots_test(op, x, y, pay, at))
            }
            Operand::Constant(n) => {
                let x = short_of(x)?;
                let n = byte_of(n)?;
                Ok(right_int_test(op, x, n, pay, at))
            }
        },
        Operand::Constant(m) => match right {
            Operand::Slot(y) => {
                let m = byte_of(m)?;
                let y = short_of(y)?;
                Ok(left_int_test(op, m, y, pay, at))
            }
            Operand::Constant(n) => Ok(no_test(op, m, n, pay, at)),
        },
    }
}

/// Where the value so far goes.
pub fn so_far(rest: &[Operation], aim: Aim, d: u16) -> u16
    ensures { result ≡ so_far (operands_of (map operand_of rest.now)) aim d }
{
    match rest.split_first() {
        Some(_) => d,
        None => register(aim, d),
    }
}

fn link_aim(link: Link, d: u16) -> Aim
    ensures { result ≡ link_aim (link_in link) d }
{
    match link {
        Link::Both => Aim::Into(d),
        Link::Either => Aim::Into(d),
        Link::Strict(_) => Aim::Anywhere(Room::Nothing),
    }
}

/// Where the first operand of a chain goes.
pub fn base_aim(operations: &[Operation], aim: Aim, d: u16) -> Aim
    ensures { result ≡ base_aim (operands_of (map operand_of operations.now)) aim d }
{
    let _ = aim;
    match operations.split_first() {
        Some((first, _)) => link_aim(link_of(first.op), d),
        None => Aim::Into(d),
    }
}

fn is_both(link: Link) -> bool
    ensures { result ≡ is_both (link_in link) }
{
    match link {
        Link::Both => true,
        Link::Either => false,
        Link::Strict(_) => false,
    }
}

pub fn all_and(operations: &[Operation]) -> bool
    ensures { result ≡ all_and (operands_of (map operand_of operations.now)) }
{
    for operation in operations {
        if !is_both(link_of(operation.op)) {
            return false;
        }
    }
    true
}

fn and_pay(rest: &[Operation], pay: u8) -> u8
    ensures { result ≡ and_pay (operands_of (map operand_of rest.now)) pay }
{
    match rest.split_first() {
        Some(_) => 0,
        None => pay,
    }
}

/// The aim of an operand that only jumps, before these others: the last one pays.
pub fn and_aim(rest: &[Operation], aim: Aim) -> Aim
    ensures { result ≡ and_aim (operands_of (map operand_of rest.now)) aim }
{
    match aim {
        Aim::Unless { at, pay } => Aim::Unless {
            at,
            pay: and_pay(rest, pay),
        },
        Aim::Into(slot) => Aim::Into(slot),
        Aim::Anywhere(room) => Aim::Anywhere(room),
    }
}

/// Whether each operand of a chain only jumps where it is false.
pub fn only_tests(operations: &[Operation], aim: Aim) -> bool
    ensures { result ≡ (is_unless aim && all_and (operands_of (map operand_of operations.now))) }
{
    is_unless(aim) && all_and(operations)
}

// By the operation that names the first 256 slots alone, where there is one.
fn slots_op(op: Binary, to: u16, left: u16, right: u16) -> Result<Op, NoMemory>
    ensures { IfOk result (λ o. o ≡ (if ltb to 256 && ltb left 256 && ltb right 256 then or_else (short_op op to left right) (Op.Binary op to left right) else Op.Binary op to left right)) }
{
    let any = Op::Binary {
        op,
        to,
        left,
        right,
    };
    if !all_short(to, left, right) {
        return Ok(any);
    }
    let to = short_of(to)?;
    let left = short_of(left)?;
    let right = short_of(right)?;
    match short_op(op, to, left, right) {
        Some(short) => Ok(short),
        None => Ok(any),
    }
}

/// An operator that takes both operands, and where its value goes.
#[derive(Clone, Copy)]
pub struct Strict {
    pub op: Binary,
    pub line: u32,
    pub left: Operand,
    /// Whether it jumps by itself.
    pub tested: bool,
    pub to: u16,
    pub d: u16,
    pub aim: Aim,
}

impl<'a> Writer<'a> {
    fn emit_some(&mut self, op: Option<Op>, line: u32) -> Result<(), NoMemory>
        ensures { OnOk result (self.new ≡ some_written op line self.old) }
    {
        match op {
            Some(op) => self.emit(op, line),
            None => {
                self.lose_if(true);
                Ok(())
            }
        }
    }

    pub fn write_binary(
        &mut self,
        op: Binary,
        to: u16,
        left: Operand,
        right: Operand,
        line: u32,
    ) -> Result<(), NoMemory>
        ensures { OnOk result (self.new ≡ binary_written op to left right line self.old) }
    {
        match left {
            Operand::Slot(x) => match right {
                Operand::Slot(y) => {
                    let op = slots_op(op, to, x, y)?;
                    self.emit(op, line)
                }
                Operand::Constant(n) => {
                    let op = int_op(op, to, x, n)?;
                    self.emit(op, line)
                }
            },
            Operand::Constant(_) => {
                self.lose_if(true);
                Ok(())
            }
        }
    }

    pub fn write_test(
        &mut self,
        op: Binary,
        left: Operand,
        right: Operand,
        aim: Aim,
        line: u32,
    ) -> Result<(), NoMemory>
        ensures { OnOk result (self.new ≡ test_written op left right aim line self.old) }
    {
        match aim {
            Aim::Unless { at, pay } => {
                let op = test_op(op, left, right, pay, at)?;
                self.emit_some(op, line)
            }
            Aim::Into(_) => {
                self.lose_if(true);
                Ok(())
            }
            Aim::Anywhere(_) => {
                self.lose_if(true);
                Ok(())
            }
        }
    }

    fn write_not(&mut self, from: u16, d: u16, aim: Aim, line: u32) -> Result<(), NoMemory>
        ensures { OnOk result (self.new ≡ unary_slot Unary.Not from d aim line self.old) }
    {
        match aim {
            Aim::Unless { at, pay } => {
                self.put(Op::TestNot { from, at })?;
                self.pay_here(pay)
            }
            Aim::Into(to) => self.emit(
                Op::Unary {
                    op: Unary::Not,
                    to,
                    from,
                },
                line,
            ),
            Aim::Anywhere(_) => self.emit(
                Op::Unary {
                    op: Unary::Not,
                    to: d,
                    from,
                },
                line,
            ),
        }
    }

    pub fn write_unary(
        &mut self,
        op: Unary,
        from: u16,
        d: u16,
        aim: Aim,
        line: u32,
    ) -> Result<(), NoMemory>
        ensures { OnOk result (self.new ≡ unary_slot op from d aim line self.old) }
    {
        if op == Unary::Not {
            return self.write_not(from, d, aim, line);
        }
        let to = register(aim, d);
        self.emit(Op::Unary { op, to, from }, line)?;
        self.settle(aim, to)
    }

    /// The operator of one operand, by how the operand is shown.
    pub fn write_unary_of(
        &mut self,
        op: Unary,
        operand: Operand,
        d: u16,
        aim: Aim,
        line: u32,
    ) -> Result<(), NoMemory>
        ensures { OnOk result (self.new ≡ on_slot operand self.old (λ x. unary_slot op x d aim line self.old)) }
    {
        match operand {
            Operand::Slot(from) => self.write_unary(op, from, d, aim, line),
            Operand::Constant(_) => {
                self.lose_if(true);
                Ok(())
            }
        }
    }

    /// The last value of a chain is looked at where only its truth is asked.
    pub fn settle_last(
        &mut self,
        rest: &[Operation],
        aim: Aim,
        d: u16,
        slot: u16,
    ) -> Result<(), NoMemory>
        ensures { OnOk result (self.new ≡ last_settled (operands_of (map operand_of rest.now)) aim d slot self.old) }
    {
        match rest.split_first() {
            Some(_) => Ok(()),
            None => {
                self.lose_if(register(aim, d) != slot);
                self.settle(aim, slot)
            }
        }
    }

    /// A strict operator of a chain, before these others. A test jumps by itself.
    pub fn write_strict(
        &mut self,
        strict: Strict,
        rest: &[Operation],
        right: Operand,
    ) -> Result<(), NoMemory>
        ensures { OnOk result (self.new ≡ (if strict.tested then test_written strict.op strict.left right strict.aim strict.line self.old else last_settled (operands_of (map operand_of rest.now)) strict.aim strict.d strict.to (binary_written strict.op strict.to strict.left right strict.line self.old))) }
    {
        if strict.tested {
            return self.write_test(strict.op, strict.left, right, strict.aim, strict.line);
        }
        self.write_binary(strict.op, strict.to, strict.left, right, strict.line)?;
        self.settle_last(rest, strict.aim, strict.d, strict.to)
    }
}
