ghost use Rattle.std.specs.Prelude.{◌≡◌, IfOk};

use sk_types::NoMemory;
use std::alloc::Global;
use std::marker::Model;

/// A function of the code, and the cells of the locals outside that it uses.
#[derive(Debug, Drop)]
pub struct Closure {
    function: u64,
    cells: Vec<u64>,
}

impl Model for Closure {
    ghost use Rattle.lua_heap.specs.Contents.{Made};

    ghost Value = { Made };

    ghost view = { λ c. record { function = c.function; cells = c.cells.items } };
}

impl Closure {
    pub fn new(alloc: Global, function: u64, cells: &[u64]) -> Result<Closure, NoMemory>
        ensures { IfOk result (λ c. c ≡ record { function = function; cells = cells.now }) }
    {
        let cells = Vec::from_slice(alloc, cells)?;
        Ok(Closure { function, cells })
    }

    /// The number of the function in the code.
    pub fn function(&self) -> u64
        ensures { result ≡ self.now.function }
    {
        self.function
    }

    /// The numbers of its cells.
    pub fn cells(&self) -> &[u64]
        ensures { result.now ≡ self.now.cells }
    {
        self.cells.as_slice()
    }
}
