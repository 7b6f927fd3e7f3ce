//! What the definitions of a reading promise, for every text.

ghost use Rattle.std.specs.Prelude.{◌≡◌, List, ℕ};
ghost use Rattle.sk_types.specs.declared.fault.SyntaxFault.{SyntaxFault};
ghost use Rattle.sk_types.specs.declared.fault.SyntaxKind.TheVariants as bad;
ghost use Rattle.lua_tree.specs.declared.token.Token.{Token};
ghost use Rattle.lua_tree.specs.declared.tree.Chunk.{Chunk};
ghost use Rattle.lua_token.specs.Characters.{Text};
ghost use Rattle.lua_grammar.specs.Lexeme.{Lexemes, lexemes_of};
ghost use Rattle.lua_grammar.specs.Grammar.{IsFirstBad};
ghost use Rattle.lua_grammar.specs.Faults.{IsTokenFault};
ghost use Rattle.lua_syntax.specs.Script.{IsFault, Reads, line_at};

/// A text reads as one chunk at most, or has one first fault at most, and never both.
pub fn law_one_reading()
    ensures one { (bytes : Text) (a b : Chunk) → Reads bytes a → Reads bytes b → a ≡ b }
    ensures not_both { (bytes : Text) (chunk : Chunk) (f : SyntaxFault) → Reads bytes chunk → IsFault bytes f → ⊥ }
    ensures one_fault { (bytes : Text) (f g : SyntaxFault) → IsFault bytes f → IsFault bytes g → f ≡ g }
{}

/// An unexpected token is the first that no chunk has after those before it, or the text's end where more is missing.
pub fn law_unexpected_is_first()
    ensures { (end : ℕ) (ts : List Token) (f : SyntaxFault) → IsTokenFault end ts f → f.kind ≡ bad.Unexpected → (rest : Lexemes) × IsFirstBad (lexemes_of ts) rest × (f.line ≡ line_at end rest) }
{}
