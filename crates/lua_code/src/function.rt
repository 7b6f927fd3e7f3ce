ghost use Rattle.std.specs.Prelude.{◌≡◌, ◌<◌, [], ◌∷◌, ◌++◌, length, slice_set, IfOk, OnOk, OnErr};
ghost use Rattle.lua_code.specs.Routine.{Routine};

use crate::op::Op;
use sk_types::{Bytes, NoMemory};
use std::alloc::Global;
use std::marker::Model;

/// A constant that no operand holds.
#[derive(Drop)]
pub enum Constant {
    Int(i64),
    Text(Bytes),
}

/// Where a closure takes a cell from as it is made: the frame, or the closure that runs.
#[derive(Clone, Copy)]
pub enum Capture {
    Cell(u16),
    Up(u16),
}

/// What a function takes and needs.
#[derive(Clone, Copy, Debug, PartialEq, Eq)]
pub struct Shape {
    pub params: u16,
    /// The ticks of an entry: that of the call, and what the body pays before it acts.
    pub pay: u8,
    /// Whether further arguments are kept for `...`.
    pub has_dots: bool,
    pub slots: u16,
    pub cells: u16,
}

/// A function of the code.
#[derive(Drop)]
pub struct Function {
    ops: Vec<Op>,
    lines: Vec<u32>,
    constants: Vec<Constant>,
    captures: Vec<Capture>,
    shape: Shape,
}

impl Model for Function {
    ghost use Rattle.lua_code.specs.Routine.{Routine};

    ghost Value = { Routine };

    ghost view = { λ f. record {
      ops = f.ops.items;
      lines = f.lines.items;
      constants = f.constants.items;
      captures = f.captures.items;
      shape = f.shape;
    } };
}

impl Function {
    pub fn new(alloc: Global, shape: Shape) -> Function
        ensures { result ≡ record { ops = []; lines = []; constants = []; captures = []; shape = shape } }
    {
        Function {
            ops: Vec::new(alloc),
            lines: Vec::new(alloc),
            constants: Vec::new(alloc),
            captures: Vec::new(alloc),
            shape,
        }
    }

    pub fn ops(&self) -> &[Op]
        ensures { result.now ≡ self.now.ops }
    {
        self.ops.as_slice()
    }

    /// The line of each operation, for the positions of errors.
    pub fn lines(&self) -> &[u32]
        ensures { result.now ≡ self.now.lines }
    {
        self.lines.as_slice()
    }

    pub fn constants(&self) -> &[Constant]
        ensures { result.now ≡ self.now.constants }
    {
        self.constants.as_slice()
    }

    pub fn captures(&self) -> &[Capture]
        ensures { result.now ≡ self.now.captures }
    {
        self.captures.as_slice()
    }

    pub fn shape(&self) -> Shape
        ensures { result ≡ self.now.shape }
    {
        self.shape
    }

    pub fn set_shape(&mut self, shape: Shape)
        ensures { self.new ≡ record self.old { shape = shape } }
    {
        self.shape = shape;
    }

    /// Adds an operation of this line.
    pub fn add(&mut self, op: Op, line: u32) -> Result<(), NoMemory>
        ensures ok { OnOk result (self.new ≡ record self.old { ops = self.old.ops ++ op ∷ []; lines = self.old.lines ++ line ∷ [] }) }
        ensures err { OnErr result (self.new ≡ self.old) }
    {
        self.lines.reserve(1)?;
        self.ops.push(op)?;
        self.lines.push_reserved(line);
        Ok(())
    }

    /// Puts another operation in the place of one; its line stays.
    pub fn set_op(&mut self, at: usize, op: Op)
        requires { at < length self.old.ops }
        ensures { self.new ≡ record self.old { ops = slice_set self.old.ops at op } }
    {
        self.ops[at] = op;
    }

    pub fn add_constant(&mut self, constant: Constant) -> Result<(), NoMemory>
        ensures ok { OnOk result (self.new ≡ record self.old { constants = self.old.constants ++ constant ∷ [] }) }
        ensures err { OnErr result (self.new ≡ self.old) }
    {
        self.constants.push(constant)?;
        Ok(())
    }

    pub fn add_capture(&mut self, capture: Capture) -> Result<(), NoMemory>
        ensures ok { OnOk result (self.new ≡ record self.old { captures = self.old.captures ++ capture ∷ [] }) }
        ensures err { OnErr result (self.new ≡ self.old) }
    {
        self.captures.push(capture)?;
        Ok(())
    }
}

/// The functions of a chunk: in the first a thread begins, and the last is the chunk itself.
#[derive(Drop)]
pub struct Code {
    functions: Vec<Function>,
}

impl Model for Code {
    ghost use Rattle.std.specs.Prelude.{List};
    ghost use Rattle.lua_code.specs.Routine.{Routine};

    ghost Value = { List Routine };

    ghost view = { λ c. c.functions.items };
}

impl Code {
    pub fn new(alloc: Global) -> Code
        ensures { result ≡ [] }
    {
        Code {
            functions: Vec::new(alloc),
        }
    }

    pub fn functions(&self) -> &[Function]
        ensures { result.now ≡ self.now }
    {
        self.functions.as_slice()
    }

    pub fn add(&mut self, function: Function) -> Result<(), NoMemory>
        ensures ok { OnOk result (self.new ≡ self.old ++ function ∷ []) }
        ensures err { OnErr result (self.new ≡ self.old) }
    {
        self.functions.push(function)?;
        Ok(())
    }
}
