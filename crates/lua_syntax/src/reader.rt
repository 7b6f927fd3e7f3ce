ghost use Rattle.std.specs.Prelude.{◌≡◌, ◌≤◌, length, IfOk, IfErr};
ghost use Rattle.sk_types.specs.declared.fault.SyntaxFault.{SyntaxFault};
ghost use Rattle.lua_tree.specs.declared.tree.Chunk.{Chunk};
ghost use Rattle.lua_syntax.specs.Script.{Gives, HasFault, IsFault, Reads, Refuses, end_line};

use lua_parser::{ParseError, parse_tokens};
use lua_token::{LexError, line_ends, tokens};
use lua_tree::Chunk;
use std::alloc::Global;

/// Reads the text of a script (Lua 5.4 manual, section 9) as a tree, or answers its first fault.
///
/// A text of more than 1,048,576 bytes is no script. Nesting costs no native stack.
pub fn parse(alloc: Global, source: &[u8]) -> Result<Chunk, ParseError>
    ensures found { IfOk result (λ chunk. Reads source.now chunk) }
    ensures only { (chunk : Chunk) → Reads source.now chunk → Gives chunk result }
    ensures fault { IfErr result (HasFault source.now) }
    ensures refused { (f : SyntaxFault) → IsFault source.now f → Refuses f result }
{
    match tokens(alloc, source) {
        Ok(tokens) => parse_tokens(alloc, tokens.as_slice(), end_line(source)),
        Err(LexError::Memory) => Err(ParseError::Memory),
        Err(LexError::Fault(fault)) => Err(ParseError::Fault(fault)),
    }
}

/// The line of the end of a text.
fn end_line(source: &[u8]) -> u32
    requires { length source.now ≤ 1048576 }
    ensures { result ≡ end_line source.now }
{
    line_ends(source) as u32 + 1
}
