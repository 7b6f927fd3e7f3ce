ghost use Rattle.std.specs.Prelude.{◌≡◌, [], ◌∷◌, OnOk};
ghost use Rattle.lua_grammar.specs.Parts.{below, block, body, branches, expr, exprs, fields, line, name, names, operands, stats, suffixes, targets};

mod apply;
mod exprs;
mod lists;
mod stats;
mod target;

use lua_grammar::Part;
use lua_tree::{Block, Body, Branch, Expr, Field, Operand, Stat, Suffix, Target};
use sk_types::{Bytes, NoMemory};
use sqlite_items::Items;
use std::alloc::Global;
use std::marker::Model;

/// The parts of trees that are being made, which contracts see as a list, the newest first.
#[derive(Drop)]
pub struct Trees {
    alloc: Global,
    parts: Vec<Part>,
}

impl Model for Trees {
    ghost use Rattle.std.specs.Prelude.{List, reverse};
    ghost use Rattle.lua_grammar.specs.declared.tree.Part.{Part};
    ghost use Rattle.lua_tree.specs.contracts.tree.Block as block_contract;
    ghost use Rattle.lua_tree.specs.contracts.tree.Body as body_contract;
    ghost use Rattle.lua_tree.specs.contracts.tree.Branch as branch_contract;
    ghost use Rattle.lua_tree.specs.contracts.tree.Expr as expr_contract;
    ghost use Rattle.lua_tree.specs.contracts.tree.Field as field_contract;
    ghost use Rattle.lua_tree.specs.contracts.tree.Operand as operand_contract;
    ghost use Rattle.lua_tree.specs.contracts.tree.Stat as stat_contract;
    ghost use Rattle.lua_tree.specs.contracts.tree.Suffix as suffix_contract;
    ghost use Rattle.lua_tree.specs.contracts.tree.Target as target_contract;
    ghost use Rattle.std.specs.Coded.{codes};

    ghost Value = { List Part };

    ghost coded = { Prim.hlevel (codes, block_contract.the_row.coded, body_contract.the_row.coded, branch_contract.the_row.coded, expr_contract.the_row.coded, field_contract.the_row.coded, operand_contract.the_row.coded, stat_contract.the_row.coded, suffix_contract.the_row.coded, target_contract.the_row.coded) };

    ghost view = { λ t. reverse t.parts.items };
}

impl Trees {
    pub fn new(alloc: Global) -> Trees
        ensures { result ≡ [] }
    {
        Trees {
            alloc,
            parts: Vec::new(alloc),
        }
    }

    fn push(&mut self, part: Part) -> Result<(), NoMemory>
        ensures { OnOk result (self.new ≡ part ∷ self.old) }
    {
        self.parts.push(part)?;
        Ok(())
    }

    fn line(&mut self) -> u32
        ensures value { result ≡ line self.old }
        ensures rest { self.new ≡ below self.old }
    {
        match self.parts.pop() {
            Some(Part::Line(line)) => line,
            _ => 0,
        }
    }

    fn name(&mut self) -> Bytes
        ensures value { result ≡ name self.old }
        ensures rest { self.new ≡ below self.old }
    {
        match self.parts.pop() {
            Some(Part::Name(name)) => name,
            _ => Bytes::new(self.alloc),
        }
    }

    fn names(&mut self) -> Items<Bytes>
        ensures value { result ≡ names self.old }
        ensures rest { self.new ≡ below self.old }
    {
        match self.parts.pop() {
            Some(Part::Names(names)) => names,
            _ => Items::new(self.alloc),
        }
    }

    fn expr(&mut self) -> Expr
        ensures value { result ≡ expr self.old }
        ensures rest { self.new ≡ below self.old }
    {
        match self.parts.pop() {
            Some(Part::Expr(expr)) => expr,
            _ => Expr::Nil,
        }
    }

    fn exprs(&mut self) -> Items<Expr>
        ensures value { result ≡ exprs self.old }
        ensures rest { self.new ≡ below self.old }
    {
        match self.parts.pop() {
            Some(Part::Exprs(exprs)) => exprs,
            _ => Items::new(self.alloc),
        }
    }

    fn suffixes(&mut self) -> Items<Suffix>
        ensures value { result ≡ suffixes self.old }
        ensures rest { self.new ≡ below self.old }
    {
        match self.parts.pop() {
            Some(Part::Suffixes(suffixes)) => suffixes,
            _ => Items::new(self.alloc),
        }
    }

    fn operands(&mut self) -> Items<Operand>
        ensures value { result ≡ operands self.old }
        ensures rest { self.new ≡ below self.old }
    {
        match self.parts.pop() {
            Some(Part::Operands(operands)) => operands,
            _ => Items::new(self.alloc),
        }
    }

    fn fields(&mut self) -> Items<Field>
        ensures value { result ≡ fields self.old }
        ensures rest { self.new ≡ below self.old }
    {
        match self.parts.pop() {
            Some(Part::Fields(fields)) => fields,
            _ => Items::new(self.alloc),
        }
    }

    fn targets(&mut self) -> Items<Target>
        ensures value { result ≡ targets self.old }
        ensures rest { self.new ≡ below self.old }
    {
        match self.parts.pop() {
            Some(Part::Targets(targets)) => targets,
            _ => Items::new(self.alloc),
        }
    }

    fn branches(&mut self) -> Items<Branch>
        ensures value { result ≡ branches self.old }
        ensures rest { self.new ≡ below self.old }
    {
        match self.parts.pop() {
            Some(Part::Branches(branches)) => branches,
            _ => Items::new(self.alloc),
        }
    }

    fn stats(&mut self) -> Items<Stat>
        ensures value { result ≡ stats self.old }
        ensures rest { self.new ≡ below self.old }
    {
        match self.parts.pop() {
            Some(Part::Stats(stats)) => stats,
            _ => Items::new(self.alloc),
        }
    }

    pub fn block(&mut self) -> Block
        ensures value { result ≡ block self.old }
        ensures rest { self.new ≡ below self.old }
    {
        match self.parts.pop() {
            Some(Part::Block(block)) => block,
            _ => Block {
                stats: Items::new(self.alloc),
                result: None,
            },
        }
    }

    fn body(&mut self) -> Body
        ensures value { result ≡ body self.old }
        ensures rest { self.new ≡ below self.old }
    {
        match self.parts.pop() {
            Some(Part::Body(body)) => body,
            _ => Body {
                names: Items::new(self.alloc),
                has_dots: false,
                block: Block {
                    stats: Items::new(self.alloc),
                    result: None,
                },
            },
        }
    }
}
