ghost use Rattle.std.specs.Prelude.{◌≡◌, ◌<◌, ◌≤◌, ◌^◌, length, IfOk, List};
ghost use Rattle.sk_types.specs.declared.fault.SyntaxFault.{SyntaxFault};
ghost use Rattle.lua_tree.specs.declared.token.Token.{Token};
ghost use Rattle.lua_token.specs.Characters.{Text};
ghost use Rattle.lua_token.specs.Front.{Within, front};
ghost use Rattle.lua_token.specs.Spells.{IsLexicalFault, IsSpelling, Lexed, hash_line};

use crate::character::{begins, line_len};
use crate::front::{Front, look};
use lua_tree::{Token, TokenList};
use sk_types::{NoMemory, SyntaxFault, SyntaxKind};
use std::alloc::Global;
use thiserror::Error;

/// The greatest length of a script, in bytes.
const MAX_LEN: usize = 1_048_576;

/// Why a text gave no tokens.
#[derive(Clone, Copy, Debug, PartialEq, Eq, Error)]
pub enum LexError {
    #[error("out of memory")]
    Memory,
    #[error("{0}")]
    Fault(SyntaxFault),
}

impl From<NoMemory> for LexError {
    ghost use Rattle.std.specs.Prelude.{◌≡◌};
    ghost use Rattle.lua_token.specs.declared.lexer.LexError.TheVariants.{Memory};

    ghost from_gives = { λ _ error. error ≡ Memory };

    fn from(_error: NoMemory) -> LexError {
        LexError::Memory
    }
}

/// The tokens that spell a text, or its first lexical fault.
pub fn tokens(alloc: Global, source: &[u8]) -> Result<TokenList, LexError>
    ensures { Lexed source.now result }
{
    if source.len() > MAX_LEN {
        return Err(LexError::Fault(SyntaxFault {
            line: 1,
            kind: SyntaxKind::TooLong,
        }));
    }
    let mut found = TokenList::new(alloc);
    let (_, mut rest) = source.split_at(hash_line(source));
    let mut line: u32 = 1;
    loop {
        let from = (source.len() - rest.len()) as u32;
        match begin(alloc, rest)? {
            Front::End => return Ok(found),
            Front::Gap(n, lines) => {
                line += lines as u32;
                let (_, after) = rest.split_at(n);
                rest = after;
            }
            Front::Item(kind, n, lines) => {
                let to = from + n as u32;
                found.push(Token {
                    kind,
                    line,
                    from,
                    to,
                })?;
                line += lines as u32;
                let (_, after) = rest.split_at(n);
                rest = after;
            }
            Front::Bad(kind) => return Err(LexError::Fault(SyntaxFault { line, kind })),
        }
    }
}

/// The bytes of a first line that is skipped.
fn hash_line(source: &[u8]) -> usize
    ensures value { result ≡ hash_line source.now }
    ensures within { result ≤ length source.now }
{
    if begins(source, b'#') {
        line_len(source)
    } else {
        0
    }
}

/// What a text begins with, which takes some of it.
fn begin(alloc: Global, bytes: &[u8]) -> Result<Front, NoMemory>
    requires { length bytes.now < 2 ^ 32 }
    ensures front { IfOk result (λ found. found ≡ front bytes.now) }
    ensures within { IfOk result (λ found. Within found (length bytes.now)) }
{
    look(alloc, bytes)
}

/// At most one list of tokens spells a text, and then the text has no lexical fault.
pub fn law_one_spelling()
    ensures one { (bytes : Text) (ts us : List Token) → IsSpelling bytes ts → IsSpelling bytes us → ts ≡ us }
    ensures none { (bytes : Text) (ts : List Token) (f : SyntaxFault) → IsSpelling bytes ts → IsLexicalFault bytes f → ⊥ }
{}
