//! What the definitions of the grammar and of the faults promise, for every list of tokens.

ghost use Rattle.std.specs.Prelude.{◌≡◌, ◌⊎◌, ◌++◌, [], ◌∷◌, ℕ, Some, None, true};
ghost use Rattle.lua_tree.specs.declared.tree.Chunk.{Chunk};
ghost use Rattle.sk_types.specs.declared.fault.SyntaxKind.{SyntaxKind};
ghost use Rattle.sk_types.specs.declared.fault.SyntaxKind.TheVariants as bad;
ghost use Rattle.sk_types.specs.declared.fault.SyntaxFault.{SyntaxFault};
ghost use Rattle.lua_grammar.specs.Lexeme.{Lexeme, Lexemes};
ghost use Rattle.lua_grammar.specs.Grammar.{IsChunk, IsViable, IsFirstBad};
ghost use Rattle.lua_grammar.specs.Machine.{State, feed, finish};
ghost use Rattle.lua_grammar.specs.Faults.{Passes, Keeps, IsFault, opening, verdict, is_bound};

/// A list of tokens is one chunk at most.
pub fn one_chunk()
    ensures { (a b : Chunk) (ts : Lexemes) → IsChunk a ts → IsChunk b ts → a ≡ b }
{}

/// A list of tokens is a chunk within the bounds or has a first fault, never both, and its fault is one.
pub fn chunk_or_fault()
    ensures either { (end : ℕ) (ts : Lexemes) → ((c : Chunk) × IsChunk c ts × Keeps ts) ⊎ ((f : SyntaxFault) × IsFault end ts f) }
    ensures not_both { (end : ℕ) (ts : Lexemes) (c : Chunk) (f : SyntaxFault) → IsChunk c ts → Keeps ts → IsFault end ts f → ⊥ }
    ensures one { (end : ℕ) (ts : Lexemes) (f g : SyntaxFault) → IsFault end ts f → IsFault end ts g → f ≡ g }
{}

/// A token fits exactly where some chunk begins with the tokens up to it.
pub fn fits_where_viable()
    ensures fits { (before : Lexemes) (t : Lexeme) (state after : State) → Passes opening before state → feed state.stack state.parts t ≡ Some after → IsViable (before ++ t ∷ []) }
    ensures dead { (before : Lexemes) (t : Lexeme) (state : State) → Passes opening before state → feed state.stack state.parts t ≡ None → IsViable (before ++ t ∷ []) → ⊥ }
{}

/// The token of an unexpected one is the first that no chunk has after those before it; at the end of the text more is missing.
pub fn unexpected_is_first()
    ensures token { (before : Lexemes) (t : Lexeme) (later : Lexemes) (state : State) → Passes opening before state → verdict state t ≡ Some bad.Unexpected → IsFirstBad (before ++ t ∷ later) (t ∷ later) }
    ensures end { (ts : Lexemes) (state : State) → Passes opening ts state → finish state.stack state.parts ≡ None → IsFirstBad ts [] }
{}

/// The fault of a bound stands at a token that fits the grammar.
pub fn bounds_where_viable()
    ensures { (before : Lexemes) (t : Lexeme) (state : State) (kind : SyntaxKind) → Passes opening before state → verdict state t ≡ Some kind → is_bound kind ≡ true → IsViable (before ++ t ∷ []) }
{}
