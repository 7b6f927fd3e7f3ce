ghost use Rattle.std.specs.Prelude.{◌≡◌, ◌<◌, length, slice_set, slice_get, map, IfOk, OnOk};
ghost use Rattle.lua_code.specs.Routine.{Routine};
ghost use Rattle.lua_model.specs.Heap as model;
ghost use Rattle.lua_value.specs.Lists.{value_at};
ghost use Rattle.lua_value.specs.declared.value.Value.TheVariants as value;
ghost use Rattle.lua_steps.specs.Machine as steps;
ghost use Rattle.lua_steps.specs.Moves.{next, gives, slot};
ghost use Rattle.lua_steps.specs.Exec.{cell_of, new_cell, captured, taken, closed, close_cell, captures_of, constant_value, constant_at};
ghost use Rattle.lua_heap.specs.Contents.{cell_written};
ghost use Rattle.lua_machine.specs.Nests.{cells_under, own_in, ups_in, IsOwner, IsThere};
ghost use Rattle.lua_machine.specs.Views.{says, IsClosed};

use crate::call_info::Owner;
use crate::frame::Frame;
use crate::state::State;
use crate::stop::{Stop, Went};
use lua_code::{Capture, Constant, Function};
use lua_heap::{Heap, HeapFault};
use lua_value::Value;
use sk_types::NoMemory;
use std::alloc::Global;

/// The cell with this number in a list of cells.
#[inline(always)]
pub fn cell_of(cells: &[u64], i: u16) -> u64
    ensures { result ≡ cell_of cells.now i }
{
    match cells.get(i as usize) {
        Some(cell) => *cell,
        None => 0,
    }
}

/// The cells of a closure; none where the heap gave none.
#[inline(always)]
pub fn closure_cells(heap: &Heap, closure: u64) -> &[u64]
    ensures { result.now ≡ cells_under heap.now.closures closure }
{
    match heap.closure_at(closure) {
        Some(closure) => closure.cells(),
        None => &[],
    }
}

/// The cells of a closure that the heap gave.
#[inline(always)]
pub fn cells_there(heap: &Heap, closure: u64) -> &[u64]
    requires { closure < length heap.now.closures }
    ensures { result.now ≡ cells_under heap.now.closures closure }
{
    heap.cells_of(closure)
}

/// The function of a body.
#[inline(always)]
pub fn function_of(heap: &Heap, owner: Owner, _function: u64) -> u64
    requires { IsOwner owner heap.now.closures _function }
    ensures { result ≡ _function }
{
    match owner {
        Owner::Frame(frame) => frame.function,
        Owner::Closure(closure) => heap.function_of(closure),
    }
}

/// One of the cells of a body's captured locals.
#[inline(always)]
pub fn own_of(owner: Owner, i: u16) -> u64
    ensures { result ≡ cell_of (own_in owner.entry) i }
{
    match owner {
        Owner::Frame(frame) => cell_of(frame.own_cells(), i),
        Owner::Closure(_) => 0,
    }
}

/// One of the cells of a body's closure.
#[inline(always)]
pub fn up_of(heap: &Heap, owner: Owner, i: u16) -> u64
    requires { IsThere owner heap.now.closures }
    ensures { result ≡ cell_of (ups_in owner.entry heap.now.closures) i }
{
    match owner {
        Owner::Frame(frame) => cell_of(frame.up_cells(), i),
        Owner::Closure(closure) => cell_of(cells_there(heap, closure), i),
    }
}

/// The value of a cell, and nil where the heap gave none.
#[inline(always)]
pub fn cell_value(heap: &Heap, cell: u64) -> Value
    ensures { result ≡ value_at heap.now.cells cell }
{
    if cell < heap.cell_count() as u64 {
        heap.cell_get(cell)
    } else {
        Value::Nil
    }
}

/// Writes a cell, where the heap gave it.
#[inline(always)]
pub fn put_in_cell(heap: &mut Heap, cell: u64, value: Value)
    ensures { heap.new ≡ cell_written cell value heap.old }
{
    if cell < heap.cell_count() as u64 {
        heap.cell_set(cell, value);
    }
}

fn captured(frame: &Frame, capture: Capture) -> u64
    ensures { result ≡ captured frame.now capture }
{
    match capture {
        Capture::Cell(i) => cell_of(frame.cells.as_slice(), i),
        Capture::Up(i) => cell_of(frame.ups.as_slice(), i),
    }
}

/// The cells that these captures take.
fn taken(alloc: Global, frame: &Frame, captures: &[Capture]) -> Result<Vec<u64>, NoMemory>
    ensures { IfOk result (λ cells. cells.items ≡ map (captured frame.now) captures.now) }
{
    let mut cells = Vec::new(alloc);
    'captures: for capture in captures {
        cells.push(captured(frame, *capture))?;
    }
    Ok(cells)
}

impl State {
    fn cell(&self, cell: u64) -> Value
        ensures { result ≡ value_at self.now.cells cell }
    {
        cell_value(&self.heap, cell)
    }

    pub fn set_cell(&mut self, cell: u64, value: Value)
        ensures { self.new ≡ record self.old { cells = slice_set self.old.cells cell value } }
    {
        put_in_cell(&mut self.heap, cell, value);
    }

    /// The value of one of the frame's cells.
    pub fn own_cell(&self, i: u16) -> Value
        ensures { result ≡ value_at self.now.cells (cell_of self.now.top.cells i) }
    {
        let top = self.stack.top();
        self.cell(cell_of(top.cells.as_slice(), i))
    }

    /// The value of one of the closure's cells.
    pub fn up(&self, i: u16) -> Value
        ensures { result ≡ value_at self.now.cells (cell_of self.now.top.ups i) }
    {
        let top = self.stack.top();
        self.cell(cell_of(top.ups.as_slice(), i))
    }

    pub fn set_own_cell(&mut self, i: u16, value: Value)
        ensures { self.new ≡ record self.old { cells = slice_set self.old.cells (cell_of self.old.top.cells i) value } }
    {
        let top = self.stack.top();
        let cell = cell_of(top.cells.as_slice(), i);
        self.set_cell(cell, value);
    }

    pub fn set_up(&mut self, i: u16, value: Value)
        ensures { self.new ≡ record self.old { cells = slice_set self.old.cells (cell_of self.old.top.ups i) value } }
    {
        let top = self.stack.top();
        let cell = cell_of(top.ups.as_slice(), i);
        self.set_cell(cell, value);
    }

    /// A new cell with this value, in a place of the frame.
    pub fn new_cell(&mut self, i: u16, value: Value) -> Result<(), NoMemory>
        ensures { OnOk result (self.new ≡ new_cell i value self.old) }
    {
        let cell = self.heap.cell(value)?;
        let top = self.stack.top_mut();
        if let Some(kept) = top.cells.get_mut(i as usize) {
            *kept = cell;
        }
        Ok(())
    }

    /// The cells that a function of the code captures.
    fn taken(&self, code: &[Function], function: u32) -> Result<Vec<u64>, NoMemory>
        ensures { IfOk result (λ cells. cells.items ≡ taken code.now function self.now.top) }
    {
        match code.get(function as usize) {
            Some(function) => taken(self.alloc, self.stack.top(), function.captures()),
            None => Ok(Vec::new(self.alloc)),
        }
    }

    /// A new closure of a function of the code; none where its unit passes the heap.
    fn new_closure(&mut self, code: &[Function], function: u32) -> Result<Option<Value>, NoMemory>
        ensures { IfOk result (λ made. IsClosed code.now function self.old made self.new) }
    {
        let cells = self.taken(code, function)?;
        match self.heap.closure(u64::from(function), cells.as_slice()) {
            Ok(closure) => Ok(Some(closure)),
            Err(HeapFault::Fault(_)) => Ok(None),
            Err(HeapFault::Memory) => Err(NoMemory),
        }
    }

    /// A closure goes to a slot.
    pub fn close(&mut self, code: &[Function], to: u16, function: u32) -> Result<Went, NoMemory>
        requires { self.old.top.at < usize.MAX }
        ensures { IfOk result (λ went. closed (model.charged model.closure_units self.old.aside.heap) code.now function (gives to) self.old ≡ says went self.new) }
    {
        match self.new_closure(code, function)? {
            None => Ok(Went::Off(Stop::HeapFull)),
            Some(closure) => {
                self.gives(to, closure);
                Ok(Went::On)
            }
        }
    }

    /// A closure goes to a new cell, which it may capture.
    pub fn close_cell(&mut self, code: &[Function], i: u16, function: u32) -> Result<Went, NoMemory>
        requires { self.old.top.at < usize.MAX }
        ensures { IfOk result (λ went. close_cell code.now i function self.old ≡ says went self.new) }
    {
        self.new_cell(i, Value::Nil)?;
        match self.new_closure(code, function)? {
            None => Ok(Went::Off(Stop::HeapFull)),
            Some(closure) => {
                self.set_own_cell(i, closure);
                self.goes_on();
                Ok(Went::On)
            }
        }
    }

    /// A constant of the function goes to a slot.
    pub fn constant(&mut self, code: &[Function], to: u16, index: u32) -> Result<Went, NoMemory>
        requires { self.old.top.at < usize.MAX }
        ensures { IfOk result (λ went. constant_value (constant_at code.now self.old.top.function index) to self.old ≡ says went self.new) }
    {
        let Some(function) = code.get(self.function() as usize) else {
            return Ok(Went::Stuck);
        };
        let Some(constant) = function.constants().get(index as usize) else {
            return Ok(Went::Stuck);
        };
        let value = match constant {
            Constant::Int(n) => Value::Int(*n),
            Constant::Text(bytes) => self.heap.constant(bytes.as_slice())?,
        };
        self.gives(to, value);
        Ok(Went::On)
    }
}
