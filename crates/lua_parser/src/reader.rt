ghost use Rattle.std.specs.Prelude.{◌≡◌, IfOk};
ghost use Rattle.lua_grammar.specs.Faults.{opening};
ghost use Rattle.lua_grammar.specs.Lexeme.{lexeme_of};
ghost use Rattle.lua_parser.specs.Turns.{Becomes, Leaves, Takes, state_of};

use crate::expected::{CHUNK_SCOPE, Expected};
use crate::trees::Trees;
use lua_grammar::{Effect, Symbol};
use lua_tree::Token;
use sk_types::NoMemory;
use std::alloc::Global;

/// What a symbol did at a token.
#[derive(Clone, Copy, PartialEq, Eq)]
pub enum Turn {
    /// It took the token.
    Taken,
    /// It went, and the token stays.
    Gone,
    /// Others came in its place, and the token stays.
    Replaced,
    /// The token does not fit.
    Refused,
}

/// What is expected, and the trees so far.
#[derive(Drop)]
pub struct Reader {
    pub expected: Expected,
    pub trees: Trees,
}

impl Reader {
    /// A reader before the first token of a script.
    pub fn new(alloc: Global) -> Result<Reader, NoMemory>
        ensures { IfOk result (λ reader. state_of reader ≡ opening) }
    {
        let mut expected = Expected::new(alloc);
        expected.push(Symbol::Block(CHUNK_SCOPE))?;
        let mut trees = Trees::new(alloc);
        trees.open_block()?;
        Ok(Reader { expected, trees })
    }

    /// Takes the token, and expects these in the symbol's place.
    pub fn take(
        &mut self,
        token: &Token,
        effects: &[Effect],
        symbols: &[Symbol],
    ) -> Result<Turn, NoMemory>
        ensures { IfOk result (λ turn. Takes effects.now symbols.now (lexeme_of token.now) (state_of self.old) turn (state_of self.new)) }
    {
        self.trees.apply_all(Some(token), effects)?;
        self.expected.put(symbols)?;
        Ok(Turn::Taken)
    }

    /// Leaves the token to what is expected next.
    pub fn leave(&mut self, effects: &[Effect]) -> Result<Turn, NoMemory>
        ensures { IfOk result (λ turn. Leaves effects.now (state_of self.old) turn (state_of self.new)) }
    {
        self.trees.apply_all(None, effects)?;
        Ok(Turn::Gone)
    }

    /// Expects these in the symbol's place, and leaves the token to them.
    pub fn replace(&mut self, effects: &[Effect], symbols: &[Symbol]) -> Result<Turn, NoMemory>
        ensures { IfOk result (λ turn. Becomes effects.now symbols.now (state_of self.old) turn (state_of self.new)) }
    {
        self.trees.apply_all(None, effects)?;
        self.expected.put(symbols)?;
        Ok(Turn::Replaced)
    }
}
