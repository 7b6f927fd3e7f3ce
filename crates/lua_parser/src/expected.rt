ghost use Rattle.std.specs.Prelude.{◌≡◌, [], ◌∷◌, ◌++◌, ◌≤◌, MatchOption, OnOk};
ghost use Rattle.lua_grammar.specs.Faults.{is_local_more, is_parameter, level_of, names_before, scope_at, scope_of, top_is, top_names, weight};
ghost use Rattle.lua_parser.specs.Stack.{IsTop};

use lua_grammar::{Effect, Scope, Symbol};
use sk_types::NoMemory;
use std::alloc::Global;
use std::marker::Model;

/// 1 where an operand or a `repeat` ends with what is made.
fn made_weight(effect: Effect) -> usize
    ensures { result ≡ weight (Symbol.Make effect) }
{
    match effect {
        Effect::Unary(_) => 1,
        Effect::AddOperand(_) => 1,
        Effect::Repeat => 1,
        _ => 0,
    }
}

/// How many open things a symbol ends.
fn weight(symbol: Symbol) -> usize
    ensures value { result ≡ weight symbol }
    ensures small { result ≤ 2 }
{
    match symbol {
        Symbol::Make(effect) => made_weight(effect),
        Symbol::Arguments
        | Symbol::MoreArguments
        | Symbol::CloseIndex
        | Symbol::CloseParen
        | Symbol::Fields
        | Symbol::MoreFields
        | Symbol::NameField
        | Symbol::CloseKey
        | Symbol::Else(_)
        | Symbol::Do(_)
        | Symbol::End
        | Symbol::For(_)
        | Symbol::ForName(_)
        | Symbol::ForFirst(_)
        | Symbol::ForMore(_)
        | Symbol::ForStep(_)
        | Symbol::FunctionName
        | Symbol::FunctionPath
        | Symbol::MethodParameters
        | Symbol::Parameters
        | Symbol::LocalFunction(_) => 1,
        Symbol::FirstParameter(_)
        | Symbol::NextParameter(_)
        | Symbol::MoreParameters(_)
        | Symbol::CloseDots(_) => 2,
        _ => 0,
    }
}

/// The scope of the block that a symbol stands in, where it has one.
fn scope_at(symbol: Symbol) -> Option<Scope>
    ensures { result ≡ scope_at symbol }
{
    match symbol {
        Symbol::Block(scope)
        | Symbol::LocalMore(scope)
        | Symbol::OptionalSemicolon(scope)
        | Symbol::Else(scope)
        | Symbol::Do(scope)
        | Symbol::ForStep(scope) => Some(scope),
        _ => None,
    }
}

/// How many locals there are, where a name that comes at a symbol would be one more.
fn names_before(symbol: Symbol) -> Option<u8>
    ensures { result ≡ names_before symbol }
{
    match symbol {
        Symbol::Local(scope)
        | Symbol::LocalName(scope)
        | Symbol::LocalFunction(scope)
        | Symbol::For(scope)
        | Symbol::ForName(scope) => Some(scope.locals),
        Symbol::FirstParameter(count) | Symbol::NextParameter(count) => Some(count),
        _ => None,
    }
}

fn is_local_more(symbol: Symbol) -> bool
    ensures { result ≡ is_local_more symbol }
{
    matches!(symbol, Symbol::LocalMore(_))
}

fn is_parameter(symbol: Symbol) -> bool
    ensures { result ≡ is_parameter symbol }
{
    matches!(symbol, Symbol::FirstParameter(_) | Symbol::NextParameter(_))
}

/// The scope of a whole script.
pub const CHUNK_SCOPE: Scope = Scope {
    locals: 0,
    in_loop: false,
    has_dots: true,
};

/// What is expected, which contracts see as a list, the next first.
#[derive(Drop)]
pub struct Expected {
    symbols: Vec<Symbol>,
    /// How many things are open: the sum of the symbols' weights.
    level: usize,
}

impl Model for Expected {
    ghost use Rattle.std.specs.Prelude.{List, reverse, ◌≡◌};
    ghost use Rattle.lua_grammar.specs.declared.symbol.Symbol.{Symbol};
    ghost use Rattle.lua_grammar.specs.Faults.{level_of};

    ghost Value = { List Symbol };

    ghost view = { λ s. reverse s.symbols.items };

    ghost invariant = { λ s. s.level ≡ level_of (reverse s.symbols.items) };
}

impl Expected {
    pub fn new(alloc: Global) -> Expected
        ensures { result ≡ [] }
    {
        Expected {
            symbols: Vec::new(alloc),
            level: 0,
        }
    }

    /// How many things are open.
    pub fn level(&self) -> usize
        ensures { result ≡ level_of self.now }
    {
        self.level
    }

    pub fn pop(&mut self) -> Option<Symbol>
        ensures { MatchOption result ((self.old ≡ []) × (self.new ≡ [])) (λ top. self.old ≡ top ∷ self.new) }
    {
        let symbol = self.symbols.pop()?;
        self.level -= weight(symbol);
        Some(symbol)
    }

    pub fn push(&mut self, symbol: Symbol) -> Result<(), NoMemory>
        ensures { OnOk result (self.new ≡ symbol ∷ self.old) }
    {
        self.symbols.push(symbol)?;
        self.level += weight(symbol);
        Ok(())
    }

    /// Expects these, the first of them first.
    pub fn put(&mut self, symbols: &[Symbol]) -> Result<(), NoMemory>
        ensures { OnOk result (self.new ≡ symbols.now ++ self.old) }
    {
        let mut at = symbols.len();
        while at > 0 {
            at -= 1;
            self.push(symbols[at])?;
        }
        Ok(())
    }

    /// The symbol that is expected next.
    fn top(&self) -> Option<Symbol>
        ensures { MatchOption result (self.now ≡ []) (λ next. IsTop next self.now) }
    {
        self.symbols.last().copied()
    }

    /// How many locals there are, where a name that comes next would be one more.
    pub fn names(&self) -> Option<u8>
        ensures { result ≡ top_names self.now }
    {
        match self.top() {
            Some(symbol) => names_before(symbol),
            None => None,
        }
    }

    /// Whether a name in the list of a `local` statement came last.
    pub fn is_after_local(&self) -> bool
        ensures { result ≡ top_is is_local_more self.now }
    {
        match self.top() {
            Some(symbol) => is_local_more(symbol),
            None => false,
        }
    }

    /// Whether a parameter may come next.
    pub fn is_at_parameter(&self) -> bool
        ensures { result ≡ top_is is_parameter self.now }
    {
        match self.top() {
            Some(symbol) => is_parameter(symbol),
            None => false,
        }
    }

    /// The scope of the innermost block.
    pub fn scope(&self) -> Scope
        ensures { result ≡ scope_of self.now }
    {
        let mut at = self.symbols.len();
        while at > 0 {
            at -= 1;
            if let Some(scope) = scope_at(self.symbols[at]) {
                return scope;
            }
        }
        CHUNK_SCOPE
    }
}
