//! Values of constants and names, by the aim of the expression.

ghost use Rattle.std.specs.Prelude.{◌≡◌, OnOk};
ghost use Rattle.lua_tree.specs.View.{exp_of};
ghost use Rattle.lua_steps.specs.declared.scope.Place.TheVariants.{InSlot};
ghost use Rattle.lua_compile.specs.Forms.{register, is_unless, paid_here, settled, between, has_room, int_written, int_shown, int_aimed, true_written, name_shown, slot_written, name_written, stored, nils_written, shown};

use crate::aim::{Aim, Operand, Room};
use crate::number::{slot_after, word_of};
use crate::scope::Scope;
use crate::writer::Writer;
use lua_code::{Constant, Op};
use lua_steps::Place;
use lua_tree::Expr;
use sk_types::NoMemory;

/// The slot to which a value goes where it goes to one.
pub fn register(aim: Aim, d: u16) -> u16
    ensures { result ≡ register aim d }
{
    match aim {
        Aim::Into(to) => to,
        Aim::Anywhere(_) => d,
        Aim::Unless { .. } => d,
    }
}

pub fn is_unless(aim: Aim) -> bool
    ensures { result ≡ is_unless aim }
{
    match aim {
        Aim::Unless { .. } => true,
        Aim::Into(_) => false,
        Aim::Anywhere(_) => false,
    }
}

fn is_between(low: i64, high: i64, n: i64) -> bool
    ensures { result ≡ between low high n }
{
    low <= n && n <= high
}

/// Whether an operation that takes integers so takes this one.
pub fn has_room(room: Room, n: i64) -> bool
    ensures { result ≡ has_room room n }
{
    match room {
        Room::Nothing => false,
        Room::Byte => is_between(-127, 127, n),
        Room::Word => is_between(-2_147_483_647, 2_147_483_647, n),
    }
}

pub fn int_shown(n: i64, d: u16, aim: Aim) -> Operand
    ensures { result ≡ int_shown n d aim }
{
    match aim {
        Aim::Anywhere(room) => {
            if has_room(room, n) {
                Operand::Constant(n)
            } else {
                Operand::Slot(d)
            }
        }
        Aim::Into(_) => Operand::Slot(register(aim, d)),
        Aim::Unless { .. } => Operand::Slot(register(aim, d)),
    }
}

fn slot_shown(slot: u16, d: u16, aim: Aim) -> Operand
    ensures { result ≡ name_shown (Some (InSlot slot)) d aim }
{
    match aim {
        Aim::Anywhere(_) => Operand::Slot(slot),
        Aim::Into(_) => Operand::Slot(register(aim, d)),
        Aim::Unless { .. } => Operand::Slot(register(aim, d)),
    }
}

fn name_shown(place: Option<Place>, d: u16, aim: Aim) -> Operand
    ensures { result ≡ name_shown place d aim }
{
    match place {
        Some(Place::InSlot(slot)) => slot_shown(slot, d, aim),
        Some(Place::InCell(_)) => Operand::Slot(register(aim, d)),
        Some(Place::InUp(_)) => Operand::Slot(register(aim, d)),
        Some(Place::Hidden) => Operand::Slot(register(aim, d)),
        None => Operand::Slot(register(aim, d)),
    }
}

/// How the value of an expression is shown to the operation that takes it.
pub fn shown(e: &Expr, scope: &Scope, d: u16, aim: Aim) -> Operand
    ensures { result ≡ shown (exp_of e.now) scope.now.names d aim }
{
    match e {
        Expr::Int(n) => int_shown(*n, d, aim),
        Expr::Name(x) => name_shown(scope.place_of(x), d, aim),
        Expr::Paren(inner) => shown(inner.get(), scope, d, aim),
        _ => Operand::Slot(register(aim, d)),
    }
}

impl<'a> Writer<'a> {
    /// So many ticks are paid.
    pub fn pay_here(&mut self, pay: u8) -> Result<(), NoMemory>
        ensures { OnOk result (self.new ≡ paid_here pay self.old) }
    {
        if pay == 0 {
            return Ok(());
        }
        self.put(Op::Tick { pay })
    }

    /// The value of a slot is looked at where only its truth is asked.
    pub fn settle(&mut self, aim: Aim, slot: u16) -> Result<(), NoMemory>
        ensures { OnOk result (self.new ≡ settled aim slot self.old) }
    {
        match aim {
            Aim::Unless { at, pay } => {
                self.put(Op::Test { from: slot, at })?;
                self.pay_here(pay)
            }
            Aim::Into(_) => Ok(()),
            Aim::Anywhere(_) => Ok(()),
        }
    }

    pub fn write_int(&mut self, to: u16, n: i64) -> Result<(), NoMemory>
        ensures { OnOk result (self.new ≡ int_written to n self.old) }
    {
        if has_room(Room::Word, n) {
            let value = word_of(n)?;
            return self.put(Op::Int { to, value });
        }
        let index = self.add_constant(Constant::Int(n))?;
        self.put(Op::Constant { to, index })
    }

    pub fn aim_int(&mut self, n: i64, d: u16, aim: Aim) -> Result<(), NoMemory>
        ensures { OnOk result (self.new ≡ int_aimed n d aim self.old) }
    {
        match aim {
            Aim::Into(to) => self.write_int(to, n),
            Aim::Anywhere(room) => {
                if has_room(room, n) {
                    return Ok(());
                }
                self.write_int(d, n)
            }
            Aim::Unless { pay, .. } => self.pay_here(pay),
        }
    }

    pub fn write_true(&mut self, d: u16, aim: Aim) -> Result<(), NoMemory>
        ensures { OnOk result (self.new ≡ true_written d aim self.old) }
    {
        match aim {
            Aim::Unless { pay, .. } => self.pay_here(pay),
            Aim::Into(to) => self.put(Op::Bool { to, value: true }),
            Aim::Anywhere(_) => self.put(Op::Bool { to: d, value: true }),
        }
    }

    fn write_slot(&mut self, slot: u16, d: u16, aim: Aim) -> Result<(), NoMemory>
        ensures { OnOk result (self.new ≡ slot_written slot d aim self.old) }
    {
        match aim {
            Aim::Into(_) => self.put(Op::Move {
                to: register(aim, d),
                from: slot,
            }),
            Aim::Anywhere(_) => Ok(()),
            Aim::Unless { at, pay } => {
                self.put(Op::Test { from: slot, at })?;
                self.pay_here(pay)
            }
        }
    }

    pub fn write_name(&mut self, place: Option<Place>, d: u16, aim: Aim) -> Result<(), NoMemory>
        ensures { OnOk result (self.new ≡ name_written place d aim self.old) }
    {
        let to = register(aim, d);
        match place {
            Some(Place::InSlot(slot)) => self.write_slot(slot, d, aim),
            Some(Place::InCell(cell)) => {
                self.put(Op::GetCell { to, cell })?;
                self.settle(aim, to)
            }
            Some(Place::InUp(up)) => {
                self.put(Op::GetUp { to, up })?;
                self.settle(aim, to)
            }
            Some(Place::Hidden) => {
                self.lose_if(true);
                Ok(())
            }
            None => {
                self.lose_if(true);
                Ok(())
            }
        }
    }

    /// The value of a slot becomes that of a name.
    pub fn store(&mut self, place: Option<Place>, from: u16) -> Result<(), NoMemory>
        ensures { OnOk result (self.new ≡ stored place from self.old) }
    {
        match place {
            Some(Place::InSlot(to)) => self.put(Op::Move { to, from }),
            Some(Place::InCell(cell)) => self.put(Op::SetCell { cell, from }),
            Some(Place::InUp(up)) => self.put(Op::SetUp { up, from }),
            Some(Place::Hidden) => {
                self.lose_if(true);
                Ok(())
            }
            None => {
                self.lose_if(true);
                Ok(())
            }
        }
    }

    pub fn write_nils(&mut self, from: u16, count: u16) -> Result<(), NoMemory>
        ensures { OnOk result (self.new ≡ nils_written from count self.old) }
    {
        let mut to = from;
        let mut left = count;
        while left > 0 {
            left -= 1;
            self.put(Op::Nil { to })?;
            to = slot_after(to, 1)?;
        }
        Ok(())
    }
}
