//! Statements and blocks.

ghost use Rattle.std.specs.Prelude.{◌≡◌, [], ◌∷◌, ◌++◌, OnOk};
ghost use Rattle.lua_grammar.specs.declared.symbol.Effect.TheVariants as act;
ghost use Rattle.lua_grammar.specs.Parts.{add_stat, effect_of, first};

use super::Trees;
use super::target::target;
use lua_grammar::Part;
use lua_tree::{Block, Branch, Expr, GenericFor, NumericFor, Stat};
use sk_types::{Bytes, NoMemory};
use sqlite_items::{Boxed, Items};
use std::alloc::Global;

/// The first name of a list, or an empty one.
fn first(alloc: Global, mut names: Items<Bytes>) -> Bytes
    ensures { result ≡ first names }
{
    if names.is_empty() {
        Bytes::new(alloc)
    } else {
        names.remove(0)
    }
}

impl Trees {
    fn add_stat(&mut self, stat: Stat) -> Result<(), NoMemory>
        ensures { OnOk result (self.new ≡ add_stat stat self.old) }
    {
        let mut stats = self.stats();
        stats.push(stat)?;
        self.push(Part::Stats(stats))
    }

    /// Begins a list of targets with a prefix.
    pub fn put_first_target(&mut self) -> Result<(), NoMemory>
        ensures { OnOk result (self.new ≡ effect_of None act.FirstTarget self.old) }
    {
        let suffixes = self.suffixes();
        let base = self.expr();
        let mut targets = Items::new(self.alloc);
        targets.push(target(self.alloc, base, suffixes)?)?;
        self.push(Part::Targets(targets))
    }

    /// Adds a prefix to a list of targets.
    pub fn add_target(&mut self) -> Result<(), NoMemory>
        ensures { OnOk result (self.new ≡ effect_of None act.NextTarget self.old) }
    {
        let suffixes = self.suffixes();
        let base = self.expr();
        let mut targets = self.targets();
        targets.push(target(self.alloc, base, suffixes)?)?;
        self.push(Part::Targets(targets))
    }

    /// Adds an assignment.
    pub fn assign(&mut self) -> Result<(), NoMemory>
        ensures { OnOk result (self.new ≡ effect_of None act.Assign self.old) }
    {
        let values = self.exprs();
        let targets = self.targets();
        self.add_stat(Stat::Assign(targets, values))
    }

    /// Adds the assignment of a function.
    pub fn assign_function(&mut self) -> Result<(), NoMemory>
        ensures { OnOk result (self.new ≡ effect_of None act.AssignFunction self.old) }
    {
        let body = Boxed::new(self.alloc, self.body())?;
        let mut values = Items::new(self.alloc);
        values.push(Expr::Function(body))?;
        let targets = self.targets();
        self.add_stat(Stat::Assign(targets, values))
    }

    /// Adds a call as a statement.
    pub fn invoke(&mut self) -> Result<(), NoMemory>
        ensures { OnOk result (self.new ≡ effect_of None act.Invoke self.old) }
    {
        let call = self.expr();
        self.add_stat(Stat::Invoke(call))
    }

    /// Adds a `break`.
    pub fn add_break(&mut self) -> Result<(), NoMemory>
        ensures { OnOk result (self.new ≡ effect_of None act.Break self.old) }
    {
        self.add_stat(Stat::Break)
    }

    /// Adds a block.
    pub fn add_do(&mut self) -> Result<(), NoMemory>
        ensures { OnOk result (self.new ≡ effect_of None act.Do self.old) }
    {
        let block = self.block();
        self.add_stat(Stat::Do(block))
    }

    /// Adds a `while` loop.
    pub fn add_while(&mut self) -> Result<(), NoMemory>
        ensures { OnOk result (self.new ≡ effect_of None act.While self.old) }
    {
        let block = self.block();
        let test = self.expr();
        self.add_stat(Stat::While(test, block))
    }

    /// Adds a `repeat` loop.
    pub fn add_repeat(&mut self) -> Result<(), NoMemory>
        ensures { OnOk result (self.new ≡ effect_of None act.Repeat self.old) }
    {
        let test = self.expr();
        let block = self.block();
        self.add_stat(Stat::Repeat(block, test))
    }

    /// Adds a branch of an `if`.
    pub fn add_branch(&mut self) -> Result<(), NoMemory>
        ensures { OnOk result (self.new ≡ effect_of None act.AddBranch self.old) }
    {
        let block = self.block();
        let test = self.expr();
        let mut branches = self.branches();
        branches.push(Branch { test, block })?;
        self.push(Part::Branches(branches))
    }

    /// Adds an `if` without `else`.
    pub fn add_if(&mut self) -> Result<(), NoMemory>
        ensures { OnOk result (self.new ≡ effect_of None act.If self.old) }
    {
        let branches = self.branches();
        self.add_stat(Stat::If(branches, None))
    }

    /// Adds an `if` with `else`.
    pub fn add_if_else(&mut self) -> Result<(), NoMemory>
        ensures { OnOk result (self.new ≡ effect_of None act.IfElse self.old) }
    {
        let other = self.block();
        let branches = self.branches();
        self.add_stat(Stat::If(branches, Some(other)))
    }

    /// Adds a numeric `for` without a step.
    pub fn add_numeric(&mut self) -> Result<(), NoMemory>
        ensures { OnOk result (self.new ≡ effect_of None act.Numeric self.old) }
    {
        let block = self.block();
        let limit = self.expr();
        let first_value = self.expr();
        let name = first(self.alloc, self.names());
        let line = self.line();
        self.add_stat(Stat::Numeric(NumericFor {
            name,
            first: first_value,
            limit,
            step: None,
            block,
            line,
        }))
    }

    /// Adds a numeric `for` with a step.
    pub fn add_numeric_by(&mut self) -> Result<(), NoMemory>
        ensures { OnOk result (self.new ≡ effect_of None act.NumericBy self.old) }
    {
        let block = self.block();
        let step = self.expr();
        let limit = self.expr();
        let first_value = self.expr();
        let name = first(self.alloc, self.names());
        let line = self.line();
        self.add_stat(Stat::Numeric(NumericFor {
            name,
            first: first_value,
            limit,
            step: Some(step),
            block,
            line,
        }))
    }

    /// Adds a generic `for`.
    pub fn add_generic(&mut self) -> Result<(), NoMemory>
        ensures { OnOk result (self.new ≡ effect_of None act.Generic self.old) }
    {
        let block = self.block();
        let values = self.exprs();
        let names = self.names();
        let line = self.line();
        self.add_stat(Stat::Generic(GenericFor {
            names,
            values,
            block,
            line,
        }))
    }

    /// Adds a `local` statement without values.
    pub fn add_local_alone(&mut self) -> Result<(), NoMemory>
        ensures { OnOk result (self.new ≡ effect_of None act.LocalAlone self.old) }
    {
        let names = self.names();
        self.add_stat(Stat::Local(names, Items::new(self.alloc)))
    }

    /// Adds a `local` statement with values.
    pub fn add_local(&mut self) -> Result<(), NoMemory>
        ensures { OnOk result (self.new ≡ effect_of None act.Local self.old) }
    {
        let values = self.exprs();
        let names = self.names();
        self.add_stat(Stat::Local(names, values))
    }

    /// Adds a `local function`.
    pub fn add_local_function(&mut self) -> Result<(), NoMemory>
        ensures { OnOk result (self.new ≡ effect_of None act.LocalFunction self.old) }
    {
        let body = self.body();
        let name = self.name();
        self.add_stat(Stat::LocalFunction(name, body))
    }

    /// Ends a block.
    pub fn end_block(&mut self) -> Result<(), NoMemory>
        ensures { OnOk result (self.new ≡ effect_of None act.EndBlock self.old) }
    {
        let stats = self.stats();
        self.push(Part::Block(Block {
            stats,
            result: None,
        }))
    }

    /// Ends a block with `return`.
    pub fn end_with_return(&mut self) -> Result<(), NoMemory>
        ensures { OnOk result (self.new ≡ effect_of None act.Return self.old) }
    {
        let values = self.exprs();
        let stats = self.stats();
        self.push(Part::Block(Block {
            stats,
            result: Some(values),
        }))
    }
}
