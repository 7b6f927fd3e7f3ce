ghost use Rattle.std.specs.Prelude.{◌≡◌, ◌+◌, ◌<◌, ◌≤◌, ◌^◌, ◌↔◌, length, IsTrue, All, IfSome, slice_get, Some};
ghost use Rattle.lua_code.specs.Valid.{Slots, Cell, Up, GoesOn, Forward, Pays, CaptureFits, CanClose, Fits};

use crate::function::{Capture, Function};
use crate::op::Op;

pub fn has_slots(f: &Function, from: u16, count: u32) -> bool
    requires { count < 100000 }
    ensures { IsTrue result ↔ Slots f.now from count }
{
    from as u32 + count <= f.shape().slots as u32
}

pub fn has_slot(f: &Function, slot: u16) -> bool
    ensures { IsTrue result ↔ Slots f.now slot 1 }
{
    has_slots(f, slot, 1)
}

pub fn has_cell(f: &Function, cell: u16) -> bool
    ensures { IsTrue result ↔ Cell f.now cell }
{
    cell < f.shape().cells
}

pub fn has_up(f: &Function, up: u16) -> bool
    ensures { IsTrue result ↔ Up f.now up }
{
    (up as usize) < f.captures().len()
}

pub fn goes_on(f: &Function, at: usize) -> bool
    requires { at < length f.now.ops }
    ensures { IsTrue result ↔ GoesOn f.now at }
{
    f.ops().len() - at > 1
}

pub fn is_forward(f: &Function, at: usize, to: u32) -> bool
    ensures { IsTrue result ↔ Forward f.now at to }
{
    let to = to as usize;
    at < to && to < f.ops().len()
}

pub fn pays(f: &Function, pay: u8, to: u32) -> bool
    ensures { IsTrue result ↔ Pays f.now pay to }
{
    0 < pay && (to as usize) < f.ops().len()
}

pub fn capture_fits(f: &Function, capture: &Capture) -> bool
    ensures { IsTrue result ↔ CaptureFits f.now capture.now }
{
    match capture {
        Capture::Cell(cell) => has_cell(f, *cell),
        Capture::Up(up) => has_up(f, *up),
    }
}

pub fn captures_fit(f: &Function, captures: &[Capture]) -> bool
    ensures { IsTrue result ↔ All (CaptureFits f.now) captures.now }
{
    captures.iter().all(|capture| capture_fits(f, capture))
}

pub fn can_close(code: &[Function], f: &Function, function: u32) -> bool
    ensures { IsTrue result ↔ CanClose code.now f.now function }
{
    let function = function as usize;
    if function < code.len() {
        captures_fit(f, code[function].captures())
    } else {
        false
    }
}

pub fn one(f: &Function, at: usize, slot: u16) -> bool
    requires { at < length f.now.ops }
    ensures { IsTrue result ↔ (Slots f.now slot 1 × GoesOn f.now at) }
{
    has_slot(f, slot) && goes_on(f, at)
}

pub fn two(f: &Function, at: usize, to: u16, from: u16) -> bool
    requires { at < length f.now.ops }
    ensures { IsTrue result ↔ (Slots f.now to 1 × Slots f.now from 1 × GoesOn f.now at) }
{
    has_slot(f, to) && has_slot(f, from) && goes_on(f, at)
}

pub fn three(f: &Function, at: usize, to: u16, left: u16, right: u16) -> bool
    requires { at < length f.now.ops }
    ensures { IsTrue result ↔ (Slots f.now to 1 × Slots f.now left 1 × Slots f.now right 1 × GoesOn f.now at) }
{
    has_slot(f, to) && has_slot(f, left) && has_slot(f, right) && goes_on(f, at)
}

pub fn branch(f: &Function, at: usize, from: u16, to: u32) -> bool
    requires { at < length f.now.ops }
    ensures { IsTrue result ↔ (Slots f.now from 1 × Forward f.now at to × GoesOn f.now at) }
{
    has_slot(f, from) && is_forward(f, at, to) && goes_on(f, at)
}

pub fn compare(f: &Function, at: usize, left: u8, right: u8, to: u32) -> bool
    requires { at < length f.now.ops }
    ensures { IsTrue result ↔ (Slots f.now left 1 × Slots f.now right 1 × Forward f.now at to × GoesOn f.now at) }
{
    has_slot(f, left as u16) && has_slot(f, right as u16) && is_forward(f, at, to) && goes_on(f, at)
}

pub fn turn(f: &Function, at: usize, base: u16, pay: u8, to: u32) -> bool
    requires { at < length f.now.ops }
    ensures { IsTrue result ↔ (Slots f.now base 4 × Pays f.now pay to × GoesOn f.now at) }
{
    has_slots(f, base, 4) && pays(f, pay, to) && goes_on(f, at)
}
