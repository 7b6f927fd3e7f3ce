//! Expressions.

ghost use Rattle.std.specs.Prelude.{◌≡◌, [], ◌∷◌, ◌++◌, OnOk, IfOk, option_map, option_copied};
ghost use Rattle.lua_grammar.specs.Grammar.{suffixed};
ghost use Rattle.lua_grammar.specs.Lexeme.{lexeme_of};
ghost use Rattle.lua_grammar.specs.declared.symbol.Effect.TheVariants as act;
ghost use Rattle.lua_grammar.specs.Parts.{add_suffix, below, effect_of, fields};

use super::Trees;
use super::lists::text_at;
use lua_grammar::Part;
use lua_tree::{BinaryOp, Body, Expr, Field, Operand, Suffix, Token, UnaryOp};
use sk_types::NoMemory;
use sqlite_items::{Boxed, Items};
use std::alloc::Global;

/// A base with its suffixes, where it has any.
pub fn suffixed(alloc: Global, base: Expr, suffixes: Items<Suffix>) -> Result<Expr, NoMemory>
    ensures { IfOk result (λ expr. expr ≡ suffixed base suffixes) }
{
    if suffixes.is_empty() {
        return Ok(base);
    }
    Ok(Expr::Suffixed(Boxed::new(alloc, base)?, suffixes))
}

impl Trees {
    fn add_suffix(&mut self, suffix: Suffix) -> Result<(), NoMemory>
        ensures { OnOk result (self.new ≡ add_suffix suffix self.old) }
    {
        let mut suffixes = self.suffixes();
        suffixes.push(suffix)?;
        self.push(Part::Suffixes(suffixes))
    }

    /// Adds an expression to a list.
    pub fn add_expr(&mut self) -> Result<(), NoMemory>
        ensures { OnOk result (self.new ≡ effect_of None act.AddExpr self.old) }
    {
        let expr = self.expr();
        let mut exprs = self.exprs();
        exprs.push(expr)?;
        self.push(Part::Exprs(exprs))
    }

    /// Makes a list of one expression.
    pub fn make_only_expr(&mut self) -> Result<(), NoMemory>
        ensures { OnOk result (self.new ≡ effect_of None act.OnlyExpr self.old) }
    {
        let expr = self.expr();
        let mut exprs = Items::new(self.alloc);
        exprs.push(expr)?;
        self.push(Part::Exprs(exprs))
    }

    /// Puts an expression into parentheses.
    pub fn enclose(&mut self) -> Result<(), NoMemory>
        ensures { OnOk result (self.new ≡ effect_of None act.Enclose self.old) }
    {
        let inner = Boxed::new(self.alloc, self.expr())?;
        self.push(Part::Expr(Expr::Paren(inner)))?;
        self.open_suffixes()
    }

    /// Adds an index by the name that a token is.
    pub fn add_dot(&mut self, token: Option<&Token>) -> Result<(), NoMemory>
        ensures { OnOk result (self.new ≡ effect_of (option_map lexeme_of (option_copied token.entry)) act.AddDot self.old) }
    {
        let name = text_at(self.alloc, token)?;
        let line = self.line();
        self.add_suffix(Suffix::Index(Expr::Text(name), line))
    }

    /// Adds an index by an expression.
    pub fn add_index(&mut self) -> Result<(), NoMemory>
        ensures { OnOk result (self.new ≡ effect_of None act.AddIndex self.old) }
    {
        let key = self.expr();
        let line = self.line();
        self.add_suffix(Suffix::Index(key, line))
    }

    /// Adds a call.
    pub fn add_call(&mut self) -> Result<(), NoMemory>
        ensures { OnOk result (self.new ≡ effect_of None act.AddCall self.old) }
    {
        let arguments = self.exprs();
        let line = self.line();
        self.add_suffix(Suffix::Call(arguments, line))
    }

    /// Adds the call of a method.
    pub fn add_method(&mut self) -> Result<(), NoMemory>
        ensures { OnOk result (self.new ≡ effect_of None act.AddMethod self.old) }
    {
        let arguments = self.exprs();
        let arguments_line = self.line();
        let name = self.name();
        let line = self.line();
        self.add_suffix(Suffix::Method(name, line, arguments, arguments_line))
    }

    /// Makes an expression of a base and its suffixes.
    pub fn end_suffixes(&mut self) -> Result<(), NoMemory>
        ensures { OnOk result (self.new ≡ effect_of None act.EndSuffixes self.old) }
    {
        let suffixes = self.suffixes();
        let base = self.expr();
        let expr = suffixed(self.alloc, base, suffixes)?;
        self.push(Part::Expr(expr))
    }

    /// Applies an operator to an operand.
    pub fn make_unary(&mut self, op: UnaryOp) -> Result<(), NoMemory>
        ensures { OnOk result (self.new ≡ effect_of None (act.Unary op) self.old) }
    {
        let operand = Boxed::new(self.alloc, self.expr())?;
        let line = self.line();
        self.push(Part::Expr(Expr::Unary(op, line, operand)))
    }

    /// Adds an operator and its right operand to a chain.
    pub fn add_operand(&mut self, op: BinaryOp) -> Result<(), NoMemory>
        ensures { OnOk result (self.new ≡ effect_of None (act.AddOperand op) self.old) }
    {
        let value = self.expr();
        let line = self.line();
        let mut operands = self.operands();
        operands.push(Operand { op, line, value })?;
        self.push(Part::Operands(operands))
    }

    /// Makes an expression of a first operand and those that follow.
    pub fn end_chain(&mut self) -> Result<(), NoMemory>
        ensures { OnOk result (self.new ≡ effect_of None act.EndChain self.old) }
    {
        let operands = self.operands();
        let first = Boxed::new(self.alloc, self.expr())?;
        self.push(Part::Expr(Expr::Chain(first, operands)))
    }

    /// Makes a key of a field's name.
    pub fn make_text_key(&mut self) -> Result<(), NoMemory>
        ensures { OnOk result (self.new ≡ effect_of None act.TextKey self.old) }
    {
        let name = self.name();
        self.push(Part::Expr(Expr::Text(name)))
    }

    /// Makes a variable of a name, and no suffix yet.
    pub fn make_variable(&mut self) -> Result<(), NoMemory>
        ensures { OnOk result (self.new ≡ effect_of None act.NameVariable self.old) }
    {
        let name = self.name();
        self.push(Part::Expr(Expr::Name(name)))?;
        self.open_suffixes()
    }

    /// Adds a field with a key.
    pub fn add_key_field(&mut self) -> Result<(), NoMemory>
        ensures { OnOk result (self.new ≡ effect_of None act.KeyField self.old) }
    {
        let value = self.expr();
        let key = self.expr();
        self.add_field(Field::Key(key, value))
    }

    /// Adds a field without a key.
    pub fn add_item_field(&mut self) -> Result<(), NoMemory>
        ensures { OnOk result (self.new ≡ effect_of None act.ItemField self.old) }
    {
        let value = self.expr();
        self.add_field(Field::Item(value))
    }

    fn add_field(&mut self, field: Field) -> Result<(), NoMemory>
        ensures { OnOk result (self.new ≡ Part.Fields (fields self.old ++ field ∷ []) ∷ below self.old) }
    {
        let mut fields = self.fields();
        fields.push(field)?;
        self.push(Part::Fields(fields))
    }

    /// Makes a table constructor.
    pub fn make_table(&mut self) -> Result<(), NoMemory>
        ensures { OnOk result (self.new ≡ effect_of None act.Table self.old) }
    {
        let fields = self.fields();
        self.push(Part::Expr(Expr::Table(fields)))
    }

    /// Makes a function's body of its parameters and its block.
    pub fn make_body(&mut self, has_dots: bool) -> Result<(), NoMemory>
        ensures { OnOk result (self.new ≡ effect_of None (act.Body has_dots) self.old) }
    {
        let block = self.block();
        let names = self.names();
        self.push(Part::Body(Body {
            names,
            has_dots,
            block,
        }))
    }

    /// Makes a function of its body.
    pub fn make_function(&mut self) -> Result<(), NoMemory>
        ensures { OnOk result (self.new ≡ effect_of None act.Function self.old) }
    {
        let body = Boxed::new(self.alloc, self.body())?;
        self.push(Part::Expr(Expr::Function(body)))
    }
}
