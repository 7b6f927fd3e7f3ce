ghost use Rattle.std.specs.Prelude.{◌≡◌, ◌+◌, ◌<◌, ◌≤◌, ◌^◌, length, IfOk, IfSome};
ghost use Rattle.lua_token.specs.Strings.{IsFound, closes, level_of, long_body, long_from, short_from};

use crate::character::{begins, end_len, equals_len, is_end};
use crate::escape::{next_escape, push_stands};
use sk_types::{Bytes, NoMemory, SyntaxKind};
use std::alloc::Global;

/// The bytes that a string stands for, how many bytes of the source it takes, and the ends of line in them.
#[derive(Debug, Drop)]
pub struct Quoted {
    pub text: Bytes,
    pub len: usize,
    pub lines: usize,
}

/// Why no string was read.
#[derive(Clone, Copy, Debug, PartialEq, Eq)]
pub enum StringError {
    Memory,
    Bad(SyntaxKind),
}

impl From<NoMemory> for StringError {
    ghost use Rattle.std.specs.Prelude.{◌≡◌};
    ghost use Rattle.lua_token.specs.declared.string.StringError.TheVariants.{Memory};

    ghost from_gives = { λ _ error. error ≡ Memory };

    fn from(_error: NoMemory) -> StringError {
        StringError::Memory
    }
}

/// Reads a short string after its opening quote.
pub fn short_string(alloc: Global, quote: u8, bytes: &[u8]) -> Result<Quoted, StringError>
    requires { length bytes.now < 2 ^ 32 }
    ensures found { IsFound (short_from quote 0 bytes.now) result }
    ensures within { IfOk result (λ q. q.len ≤ length bytes.now) }
{
    let mut text = Bytes::new(alloc);
    let mut lines = 0;
    let mut rest = bytes;
    while let Some((b, after)) = rest.split_first() {
        if *b == quote {
            let len = bytes.len() - after.len();
            return Ok(Quoted { text, len, lines });
        }
        if is_end(*b) {
            return Err(StringError::Bad(SyntaxKind::OpenString));
        }
        if *b == b'\\' {
            let Some(found) = next_escape(after) else {
                return Err(StringError::Bad(SyntaxKind::BadEscape));
            };
            push_stands(&mut text, found.stands)?;
            lines += found.lines;
            let (_, next) = after.split_at(found.len);
            rest = next;
        } else {
            text.push(*b)?;
            rest = after;
        }
    }
    Err(StringError::Bad(SyntaxKind::OpenString))
}

/// Whether a closing long bracket of this level stands first.
fn closes(level: usize, bytes: &[u8]) -> bool
    requires { length bytes.now < 2 ^ 32 }
    ensures { result ≡ closes level bytes.now }
{
    let [b']', after @ ..] = bytes else {
        return false;
    };
    let equals = equals_len(after);
    equals == level && begins(&after[equals..], b']')
}

/// The level of the long bracket that opens after this first bracket.
pub fn level_of(after: &[u8]) -> Option<usize>
    ensures value { result ≡ level_of after.now }
    ensures within { IfSome result (λ level. level + 1 ≤ length after.now) }
{
    let equals = equals_len(after);
    if begins(&after[equals..], b'[') {
        Some(equals)
    } else {
        None
    }
}

/// Reads a long string after its opening; an end of line right there is skipped.
pub fn long_string(alloc: Global, level: usize, bytes: &[u8]) -> Result<Quoted, StringError>
    requires { length bytes.now < 2 ^ 32 }
    ensures found { IsFound (long_body level bytes.now) result }
    ensures within { IfOk result (λ q. q.len ≤ length bytes.now) }
{
    match bytes {
        [b, after @ ..] if is_end(*b) => {
            let skipped = end_len(*b, after);
            let found = long_text(alloc, level, &bytes[skipped..])?;
            Ok(Quoted {
                text: found.text,
                len: skipped + found.len,
                lines: 1 + found.lines,
            })
        }
        _ => long_text(alloc, level, bytes),
    }
}

/// Reads a long string up to its closing bracket.
fn long_text(alloc: Global, level: usize, bytes: &[u8]) -> Result<Quoted, StringError>
    requires { length bytes.now < 2 ^ 32 }
    ensures found { IsFound (long_from level 0 bytes.now) result }
    ensures within { IfOk result (λ q. (q.len ≤ length bytes.now) × (q.lines ≤ q.len)) }
{
    let mut text = Bytes::new(alloc);
    let mut lines = 0;
    let mut rest = bytes;
    while let Some((b, after)) = rest.split_first() {
        if closes(level, rest) {
            let len = bytes.len() - rest.len() + level + 2;
            return Ok(Quoted { text, len, lines });
        }
        if is_end(*b) {
            text.push(b'\n')?;
            lines += 1;
            let (_, next) = rest.split_at(end_len(*b, after));
            rest = next;
        } else {
            text.push(*b)?;
            rest = after;
        }
    }
    Err(StringError::Bad(SyntaxKind::OpenLong))
}
