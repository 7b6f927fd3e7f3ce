use lua_tree::{Block, Body, Branch, Expr, Field, Operand, Stat, Suffix, Target};
use sk_types::Bytes;
use sqlite_items::Items;

/// A part of a tree that is being made.
#[derive(Drop)]
pub enum Part {
    Line(u32),
    Name(Bytes),
    Names(Items<Bytes>),
    Expr(Expr),
    Exprs(Items<Expr>),
    Suffixes(Items<Suffix>),
    Operands(Items<Operand>),
    Fields(Items<Field>),
    Targets(Items<Target>),
    Branches(Items<Branch>),
    Stats(Items<Stat>),
    Block(Block),
    Body(Body),
}
