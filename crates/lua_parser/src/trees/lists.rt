//! What a token gives, and lists that begin or grow.

ghost use Rattle.std.specs.Prelude.{◌≡◌, [], ◌∷◌, OnOk, IfOk, option_map, option_copied};
ghost use Rattle.lua_grammar.specs.Lexeme.{lexeme_of};
ghost use Rattle.lua_grammar.specs.declared.symbol.Effect.TheVariants as act;
ghost use Rattle.lua_grammar.specs.Parts.{effect_of, line_at, literal, literal_at, text_at};

use super::Trees;
use lua_grammar::Part;
use lua_tree::{Expr, Sign, Token, TokenKind, Word};
use sk_types::{Bytes, NoMemory};
use sqlite_items::Items;
use std::alloc::Global;

/// The line of a token.
fn line_at(token: Option<&Token>) -> u32
    ensures { result ≡ line_at (option_map lexeme_of (option_copied token.entry)) }
{
    match token {
        Some(token) => token.line,
        None => 0,
    }
}

/// The text of a token that is a name.
pub fn text_at(alloc: Global, token: Option<&Token>) -> Result<Bytes, NoMemory>
    ensures { IfOk result (λ text. text ≡ text_at (option_map lexeme_of (option_copied token.entry))) }
{
    let Some(token) = token else {
        return Ok(Bytes::new(alloc));
    };
    match &token.kind {
        TokenKind::Name(text) => text.copy(alloc),
        _ => Ok(Bytes::new(alloc)),
    }
}

/// The constant that a token is.
fn literal(alloc: Global, kind: &TokenKind) -> Result<Expr, NoMemory>
    ensures { IfOk result (λ expr. expr ≡ literal kind.now) }
{
    match kind {
        TokenKind::Int(value) => Ok(Expr::Int(*value)),
        TokenKind::Text(text) => Ok(Expr::Text(text.copy(alloc)?)),
        TokenKind::Word(Word::False) => Ok(Expr::False),
        TokenKind::Word(Word::True) => Ok(Expr::True),
        TokenKind::Sign(Sign::Dots) => Ok(Expr::Dots),
        _ => Ok(Expr::Nil),
    }
}

fn literal_at(alloc: Global, token: Option<&Token>) -> Result<Expr, NoMemory>
    ensures { IfOk result (λ expr. expr ≡ literal_at (option_map lexeme_of (option_copied token.entry))) }
{
    match token {
        Some(token) => literal(alloc, &token.kind),
        None => Ok(Expr::Nil),
    }
}

impl Trees {
    /// Keeps the line of a token.
    pub fn keep_line(&mut self, token: Option<&Token>) -> Result<(), NoMemory>
        ensures { OnOk result (self.new ≡ effect_of (option_map lexeme_of (option_copied token.entry)) act.Line self.old) }
    {
        self.push(Part::Line(line_at(token)))
    }

    /// Puts the constant that a token is.
    pub fn put_literal(&mut self, token: Option<&Token>) -> Result<(), NoMemory>
        ensures { OnOk result (self.new ≡ effect_of (option_map lexeme_of (option_copied token.entry)) act.Literal self.old) }
    {
        let expr = literal_at(self.alloc, token)?;
        self.push(Part::Expr(expr))
    }

    /// Puts the variable that a token names, and no suffix yet.
    pub fn put_variable(&mut self, token: Option<&Token>) -> Result<(), NoMemory>
        ensures { OnOk result (self.new ≡ effect_of (option_map lexeme_of (option_copied token.entry)) act.Variable self.old) }
    {
        let name = text_at(self.alloc, token)?;
        self.push(Part::Expr(Expr::Name(name)))?;
        self.open_suffixes()
    }

    /// Puts the name that a token is.
    pub fn put_name(&mut self, token: Option<&Token>) -> Result<(), NoMemory>
        ensures { OnOk result (self.new ≡ effect_of (option_map lexeme_of (option_copied token.entry)) act.Name self.old) }
    {
        let name = text_at(self.alloc, token)?;
        self.push(Part::Name(name))
    }

    /// Begins a list of names with the one that a token is.
    pub fn put_first_name(&mut self, token: Option<&Token>) -> Result<(), NoMemory>
        ensures { OnOk result (self.new ≡ effect_of (option_map lexeme_of (option_copied token.entry)) act.FirstName self.old) }
    {
        let name = text_at(self.alloc, token)?;
        let mut names = Items::new(self.alloc);
        names.push(name)?;
        self.push(Part::Names(names))
    }

    /// Adds the name that a token is to a list.
    pub fn add_name(&mut self, token: Option<&Token>) -> Result<(), NoMemory>
        ensures { OnOk result (self.new ≡ effect_of (option_map lexeme_of (option_copied token.entry)) act.NextName self.old) }
    {
        let name = text_at(self.alloc, token)?;
        let mut names = self.names();
        names.push(name)?;
        self.push(Part::Names(names))
    }

    /// Begins the suffixes of a prefix.
    pub fn open_suffixes(&mut self) -> Result<(), NoMemory>
        ensures { OnOk result (self.new ≡ Part.Suffixes [] ∷ self.old) }
    {
        self.push(Part::Suffixes(Items::new(self.alloc)))
    }

    /// Begins a list of expressions.
    pub fn open_exprs(&mut self) -> Result<(), NoMemory>
        ensures { OnOk result (self.new ≡ effect_of None act.OpenExprs self.old) }
    {
        self.push(Part::Exprs(Items::new(self.alloc)))
    }

    /// Begins a list of operands.
    pub fn open_operands(&mut self) -> Result<(), NoMemory>
        ensures { OnOk result (self.new ≡ effect_of None act.OpenOperands self.old) }
    {
        self.push(Part::Operands(Items::new(self.alloc)))
    }

    /// Begins a list of fields.
    pub fn open_fields(&mut self) -> Result<(), NoMemory>
        ensures { OnOk result (self.new ≡ effect_of None act.OpenFields self.old) }
    {
        self.push(Part::Fields(Items::new(self.alloc)))
    }

    /// Begins a list of names.
    pub fn open_names(&mut self) -> Result<(), NoMemory>
        ensures { OnOk result (self.new ≡ effect_of None act.OpenNames self.old) }
    {
        self.push(Part::Names(Items::new(self.alloc)))
    }

    /// Begins a list of branches.
    pub fn open_branches(&mut self) -> Result<(), NoMemory>
        ensures { OnOk result (self.new ≡ effect_of None act.OpenBranches self.old) }
    {
        self.push(Part::Branches(Items::new(self.alloc)))
    }

    /// Begins a block.
    pub fn open_block(&mut self) -> Result<(), NoMemory>
        ensures { OnOk result (self.new ≡ effect_of None act.OpenBlock self.old) }
    {
        self.push(Part::Stats(Items::new(self.alloc)))
    }

    /// Begins the parameters of a method, of which `self` is the first.
    pub fn open_self(&mut self) -> Result<(), NoMemory>
        ensures { OnOk result (self.new ≡ effect_of None act.OpenSelf self.old) }
    {
        let mut names = Items::new(self.alloc);
        names.push(Bytes::from_slice(self.alloc, b"self")?)?;
        self.push(Part::Names(names))
    }
}
