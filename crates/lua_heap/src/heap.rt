ghost use Rattle.std.specs.Prelude.{◌≡◌, [], ◌∷◌, ◌+◌, ◌++◌, ◌<◌, ◌≤◌, length, slice_get, IfOk, OnOk, OnErr, option_copied};
ghost use Rattle.lua_heap.specs.Contents.{empty, started, text_made, closure_made, cell_made, cell_written, function_at, cells_at};
ghost use Rattle.lua_model.specs.Texts.{bytes_at};
ghost use Rattle.lua_model.specs.Heap as model;
ghost use Rattle.lua_model.specs.Heap.{charged, holding, text_value};

use crate::closure::Closure;
use crate::fault::{HeapFault, HeapFull};
use crate::texts::Texts;
use lua_value::Value;
use sk_types::NoMemory;
use std::alloc::Global;
use std::marker::Model;

/// What one service has made: its strings, its closures and their cells, and the units that it has used up.
#[derive(Drop)]
pub struct Heap {
    alloc: Global,
    texts: Texts,
    closures: Vec<Closure>,
    cells: Vec<Value>,
    units: u64,
    limit: u64,
    counts: bool,
}

impl Model for Heap {
    ghost use Rattle.lua_heap.specs.Contents.{Contents};

    ghost Value = { Contents };

    ghost view = { λ h. record {
      shared = record { texts = h.texts; units = h.units; limit = h.limit; counts = h.counts };
      closures = h.closures.items;
      cells = h.cells.items;
    } };
}

impl Heap {
    /// An empty heap, which counts nothing until `start_counting`.
    pub fn new(alloc: Global, limit: u64) -> Heap
        ensures { result ≡ empty limit }
    {
        Heap {
            alloc,
            texts: Texts::new(alloc),
            closures: Vec::new(alloc),
            cells: Vec::new(alloc),
            units: 0,
            limit,
            counts: false,
        }
    }

    /// From here on what is made costs units.
    pub fn start_counting(&mut self)
        ensures { self.new ≡ started self.old }
    {
        self.counts = true;
    }

    /// The units made since counting began.
    pub fn units(&self) -> u64
        ensures { result ≡ self.now.shared.units }
    {
        self.units
    }

    /// The value of the string of these bytes; each call counts the units of a new string.
    pub fn text(&mut self, bytes: &[u8]) -> Result<Value, HeapFault>
        ensures value { IfOk result (λ v. v ≡ text_value bytes.now self.old.shared) }
        ensures ok { OnOk result (text_made bytes.now self.old ≡ Some self.new) }
        ensures full { result ≡ Err (HeapFault.Fault (record {})) → text_made bytes.now self.old ≡ None }
        ensures err { OnErr result (self.new ≡ self.old) }
    {
        let units = self.after(text_units(bytes))?;
        let number = self.texts.number(bytes)?;
        self.units = units;
        Ok(Value::Text(number))
    }

    /// The bytes of a string; none where this heap did not give the number.
    pub fn bytes(&self, text: u64) -> &[u8]
        ensures { result.now ≡ bytes_at self.now.shared.texts text }
    {
        self.texts.bytes(text)
    }

    /// The value of a string of the source: it is no new one, and costs no unit.
    pub fn constant(&mut self, bytes: &[u8]) -> Result<Value, NoMemory>
        ensures value { IfOk result (λ v. v ≡ text_value bytes.now self.old.shared) }
        ensures ok { OnOk result (self.new ≡ record self.old { shared = holding bytes.now self.old.shared }) }
        ensures err { OnErr result (self.new ≡ self.old) }
    {
        let number = self.texts.number(bytes)?;
        Ok(Value::Text(number))
    }

    /// A new closure of a function of the code over these cells.
    pub fn closure(&mut self, function: u64, cells: &[u64]) -> Result<Value, HeapFault>
        ensures value { IfOk result (λ v. v ≡ Value.Func (length self.old.closures)) }
        ensures ok { OnOk result (closure_made (record { function = function; cells = cells.now }) self.old ≡ Some self.new) }
        ensures full { result ≡ Err (HeapFault.Fault (record {})) → closure_made (record { function = function; cells = cells.now }) self.old ≡ None }
        ensures err { OnErr result (self.new ≡ self.old) }
    {
        let units = self.after(1)?;
        let closure = Closure::new(self.alloc, function, cells)?;
        let number = self.closures.len() as u64;
        self.closures.push(closure)?;
        self.units = units;
        Ok(Value::Func(number))
    }

    /// The closure under a number, where this heap gave it.
    pub fn closure_at(&self, closure: u64) -> Option<&Closure>
        ensures { option_copied result ≡ slice_get self.now.closures closure }
    {
        self.closures.as_slice().get(closure as usize)
    }

    /// The function of a closure that this heap gave.
    pub fn function_of(&self, closure: u64) -> u64
        requires { closure < length self.now.closures }
        ensures { Some result ≡ function_at self.now closure }
    {
        self.closures[closure as usize].function()
    }

    /// The cells of a closure that this heap gave.
    pub fn cells_of(&self, closure: u64) -> &[u64]
        requires { closure < length self.now.closures }
        ensures { Some result.now ≡ cells_at self.now closure }
    {
        self.closures[closure as usize].cells()
    }

    /// How many cells there are.
    pub fn cell_count(&self) -> usize
        ensures { result ≡ length self.now.cells }
    {
        self.cells.len()
    }

    /// A new cell with this value, which costs no unit.
    pub fn cell(&mut self, value: Value) -> Result<u64, NoMemory>
        ensures number { IfOk result (λ c. c ≡ length self.old.cells) }
        ensures ok { OnOk result (self.new ≡ cell_made value self.old) }
        ensures err { OnErr result (self.new ≡ self.old) }
    {
        let number = self.cells.len() as u64;
        self.cells.push(value)?;
        Ok(number)
    }

    /// The value in a cell that this heap gave.
    pub fn cell_get(&self, cell: u64) -> Value
        requires { cell < length self.now.cells }
        ensures { slice_get self.now.cells cell ≡ Some result }
    {
        self.cells[cell as usize]
    }

    /// Writes a cell that this heap gave.
    pub fn cell_set(&mut self, cell: u64, value: Value)
        requires { cell < length self.old.cells }
        ensures { self.new ≡ cell_written cell value self.old }
    {
        self.cells[cell as usize] = value;
    }

    // The units after so many more.
    fn after(&self, more: u64) -> Result<u64, HeapFull>
        ensures ok { IfOk result (λ units. charged more self.now.shared ≡ Some (record self.now.shared { units = units })) }
        ensures full { OnErr result (charged more self.now.shared ≡ None) }
    {
        if self.counts {
            return sum_within(self.units, more, self.limit);
        }
        Ok(self.units)
    }
}

// 1 and one more for each 16 bytes.
fn text_units(bytes: &[u8]) -> u64
    ensures { result ≡ model.text_units bytes.now }
{
    1 + bytes.len() as u64 / 16
}

// The sum, where it stays within the limit.
fn sum_within(units: u64, more: u64, limit: u64) -> Result<u64, HeapFull>
    ensures ok { IfOk result (λ sum. (sum ≡ units + more) × (sum ≤ limit)) }
    ensures full { OnErr result (limit < units + more) }
{
    match units.checked_add(more) {
        Some(sum) if sum <= limit => Ok(sum),
        _ => Err(HeapFull),
    }
}
