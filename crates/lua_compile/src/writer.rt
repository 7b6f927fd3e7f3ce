ghost use Rattle.std.specs.Prelude.{◌≡◌, ◌+◌, [], ◌∷◌, ◌++◌, length, ◌||◌, IfOk, OnOk};
ghost use Rattle.lua_compile.specs.Written.{start_routine, empty_routine, opening};
ghost use Rattle.lua_compile.specs.Writer.{emit, put, labelled, label_of, placed_here, with_constant, lost_if, counted, flag, begun, done, resumed};

use crate::label::place_all;
use crate::number::{index_of, next_of};
use crate::reach::widened;
use crate::scope::Scope;
use lua_code::{Code, Constant, Function, Op, Shape};
use sk_types::{Bytes, NoMemory};
use std::alloc::Global;
use std::marker::Model;
use std::mem;

/// A function that is being written, and what was written before.
#[derive(Drop)]
pub struct Writer<'a> {
    alloc: Global,
    draft: Function,
    // the place of its next operation
    at: u32,
    // the places of its labels
    labels: Vec<u32>,
    made: Code,
    // how many locals of the chunk were declared, and which of them go to cells
    locals: usize,
    flags: &'a [bool],
    lost: bool,
}

// What stays of a function's writer when it is done.
#[derive(Drop)]
struct Finished {
    draft: Function,
    made: Code,
    locals: usize,
    lost: bool,
}

impl<'a> Model for Writer<'a> {
    ghost use Rattle.lua_compile.specs.Writer.{Writer as Written};

    ghost Value = { Written };

    ghost view = { λ w. record {
      draft = w.draft;
      at = w.at;
      labels = w.labels.items;
      made = w.made;
      locals = w.locals;
      flags = w.flags.now;
      lost = w.lost;
    } };
}

// The function in which a thread begins.
fn start_function(alloc: Global) -> Result<Function, NoMemory>
    ensures { IfOk result (λ start. start ≡ start_routine) }
{
    let shape = Shape {
        params: 0,
        pay: 1,
        has_dots: false,
        slots: 0,
        cells: 0,
    };
    let mut start = Function::new(alloc, shape);
    start.add(Op::Append, 0)?;
    start.add(Op::Start, 0)?;
    start.add(Op::ReturnList, 0)?;
    Ok(start)
}

fn empty_function(alloc: Global) -> Function
    ensures { result ≡ empty_routine }
{
    let shape = Shape {
        params: 0,
        pay: 1,
        has_dots: false,
        slots: 0,
        cells: 0,
    };
    Function::new(alloc, shape)
}

impl<'a> Writer<'a> {
    /// Before a chunk, whose locals with these flags go to cells.
    pub fn new(alloc: Global, flags: &'a [bool]) -> Result<Writer<'a>, NoMemory>
        ensures { IfOk result (λ w. w ≡ opening flags.now) }
    {
        let start = start_function(alloc)?;
        let mut made = Code::new(alloc);
        made.add(start)?;
        Ok(Writer {
            alloc,
            draft: empty_function(alloc),
            at: 0,
            labels: Vec::new(alloc),
            made,
            locals: 0,
            flags,
            lost: false,
        })
    }

    pub fn alloc(&self) -> Global {
        self.alloc
    }

    /// The code that was made, and whether something had none.
    pub fn into_parts(self) -> (Code, bool)
        ensures code { result.0 ≡ self.entry.made }
        ensures lost { result.1 ≡ self.entry.lost }
    {
        let Writer {
            alloc: _,
            draft: _,
            at: _,
            labels: _,
            made,
            locals: _,
            flags: _,
            lost,
        } = self;
        (made, lost)
    }

    /// An operation of this line comes last.
    pub fn emit(&mut self, op: Op, line: u32) -> Result<(), NoMemory>
        ensures { OnOk result (self.new ≡ emit op line self.old) }
    {
        let shape = widened(op, self.draft.shape())?;
        let at = next_of(self.at)?;
        self.draft.add(op, line)?;
        self.draft.set_shape(shape);
        self.at = at;
        Ok(())
    }

    /// An operation whose line no error tells.
    pub fn put(&mut self, op: Op) -> Result<(), NoMemory>
        ensures { OnOk result (self.new ≡ put op self.old) }
    {
        self.emit(op, 0)
    }

    pub fn new_label(&mut self) -> Result<u32, NoMemory>
        ensures label { IfOk result (λ l. l ≡ label_of self.old) }
        ensures writer { OnOk result (self.new ≡ labelled self.old) }
    {
        let label = index_of(self.labels.len())?;
        self.labels.push(0)?;
        Ok(label)
    }

    /// The label stands at the next operation.
    pub fn place_here(&mut self, label: u32)
        ensures { self.new ≡ placed_here label self.old }
    {
        let label = label as usize;
        if label < self.labels.len() {
            self.labels[label] = self.at;
        }
    }

    /// The number of a new constant.
    pub fn add_constant(&mut self, constant: Constant) -> Result<u32, NoMemory>
        ensures index { IfOk result (λ i. i ≡ length self.old.draft.constants) }
        ensures writer { OnOk result (self.new ≡ with_constant constant self.old) }
    {
        let index = index_of(self.draft.constants().len())?;
        self.draft.add_constant(constant)?;
        Ok(index)
    }

    /// Where it holds, something had no code.
    pub fn lose_if(&mut self, lost: bool)
        ensures { self.new ≡ lost_if lost self.old }
    {
        self.lost = self.lost || lost;
    }

    pub fn count_local(&mut self) -> Result<(), NoMemory>
        ensures { OnOk result (self.new ≡ counted self.old) }
    {
        match self.locals.checked_add(1) {
            Some(locals) => {
                self.locals = locals;
                Ok(())
            }
            None => Err(NoMemory),
        }
    }

    /// Whether the next local of the chunk goes to a cell.
    pub fn is_shared(&self) -> bool
        ensures { result ≡ flag self.now.flags self.now.locals }
    {
        match self.flags.get(self.locals) {
            Some(shared) => *shared,
            None => true,
        }
    }

    /// The number of a new constant with this text.
    pub fn add_text(&mut self, text: &Bytes) -> Result<u32, NoMemory>
        ensures index { IfOk result (λ i. i ≡ length self.old.draft.constants) }
        ensures writer { OnOk result (self.new ≡ with_constant (Constant.Text text.now) self.old) }
    {
        let copy = text.copy(self.alloc)?;
        self.add_constant(Constant::Text(copy))
    }

    /// A function inside begins, with this shape, and captures all cells that it sees.
    pub fn begin(&mut self, shape: Shape, outside: &Scope) -> Result<Writer<'a>, NoMemory>
        ensures inner { IfOk result (λ inner. inner ≡ begun shape outside.now.names self.old) }
        ensures outer { OnOk result (self.new ≡ record self.old { made = [] }) }
    {
        let mut draft = Function::new(self.alloc, shape);
        outside.capture(&mut draft)?;
        let made = mem::replace(&mut self.made, Code::new(self.alloc));
        Ok(Writer {
            alloc: self.alloc,
            draft,
            at: 0,
            labels: Vec::new(self.alloc),
            made,
            locals: self.locals,
            flags: self.flags,
            lost: self.lost,
        })
    }

    // The function, when it is done, and what was made before it.
    fn finish(self) -> Finished
        ensures draft { result.draft ≡ done self.entry }
        ensures made { result.made ≡ self.entry.made }
        ensures locals { result.locals ≡ self.entry.locals }
        ensures lost { result.lost ≡ self.entry.lost }
    {
        let Writer {
            alloc: _,
            mut draft,
            at: _,
            labels,
            made,
            locals,
            flags: _,
            lost,
        } = self;
        place_all(&mut draft, labels.as_slice());
        Finished {
            draft,
            made,
            locals,
            lost,
        }
    }

    /// A function inside is done, and this one goes on. The function's number.
    pub fn resume(&mut self, inner: Writer<'a>) -> Result<u32, NoMemory>
        ensures function { IfOk result (λ g. g ≡ length inner.entry.made) }
        ensures outer { OnOk result (self.new ≡ resumed inner.entry self.old) }
    {
        let Finished {
            draft,
            mut made,
            locals,
            lost,
        } = inner.finish();
        let function = index_of(made.functions().len())?;
        made.add(draft)?;
        self.made = made;
        self.locals = locals;
        self.lost = lost;
        Ok(function)
    }
}
