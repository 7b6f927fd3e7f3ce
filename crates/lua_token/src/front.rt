ghost use Rattle.std.specs.Prelude.{◌≡◌, ◌+◌, ◌<◌, ◌≤◌, ◌^◌, length, take, IfOk, IfSome};
ghost use Rattle.lua_token.specs.Characters.{first_is, is_digit};
ghost use Rattle.lua_token.specs.Front.{bracket, bracket_level, comment, front, is_comment, is_numeral_start, is_quote, name, numeral, remark, signed, string};
ghost use Rattle.lua_token.specs.Names.{named};
ghost use Rattle.lua_token.specs.Strings.{Found, IsFound, short_from};

use crate::character::{
    begins, end_len, is_blank, is_digit, is_end, is_letter, line_len, name_len, numeral_len,
};
use crate::number::integer_of;
use crate::spelling::{sign_of_one, sign_of_three, sign_of_two, word_of};
use crate::string::{Quoted, StringError, level_of, long_string, short_string};
use lua_tree::TokenKind;
use sk_types::{Bytes, NoMemory, SyntaxKind};
use std::alloc::Global;

/// What a text begins with. The numbers are bytes, and ends of line in them.
#[derive(Debug, Drop)]
pub enum Front {
    End,
    /// White space or a comment.
    Gap(usize, usize),
    Item(TokenKind, usize, usize),
    Bad(SyntaxKind),
}

/// What a text begins with.
#[tactic(auto, using(crate::proofs::Runs::run_take), unfolding(crate::specs::Front::front))]
pub fn look(alloc: Global, bytes: &[u8]) -> Result<Front, NoMemory>
    requires { length bytes.now < 2 ^ 32 }
    ensures { IfOk result (λ found. found ≡ front bytes.now) }
{
    let [b, after @ ..] = bytes else {
        return Ok(Front::End);
    };
    if is_blank(*b) {
        Ok(Front::Gap(1, 0))
    } else if is_end(*b) {
        Ok(Front::Gap(end_len(*b, after), 1))
    } else if is_letter(*b) {
        name(alloc, &bytes[..name_len(bytes)])
    } else if is_numeral_start(*b, after) {
        Ok(numeral(&bytes[..numeral_len(bytes)]))
    } else if is_quote(*b) {
        short(alloc, *b, after)
    } else if is_comment(*b, after) {
        comment(alloc, after)
    } else {
        bracket(alloc, bytes)
    }
}

fn is_numeral_start(b: u8, after: &[u8]) -> bool
    ensures { result ≡ is_numeral_start b after.now }
{
    is_digit(b) || (b == b'.' && digit_follows(after))
}

fn digit_follows(after: &[u8]) -> bool
    ensures { result ≡ first_is is_digit after.now }
{
    match after {
        [b, ..] => is_digit(*b),
        [] => false,
    }
}

fn is_quote(b: u8) -> bool
    ensures { result ≡ is_quote b }
{
    b == b'"' || b == b'\''
}

fn is_comment(b: u8, after: &[u8]) -> bool
    ensures { result ≡ is_comment b after.now }
{
    b == b'-' && begins(after, b'-')
}

/// A reserved word, or a name.
fn name(alloc: Global, text: &[u8]) -> Result<Front, NoMemory>
    ensures { IfOk result (λ found. found ≡ name text.now) }
{
    let kind = match word_of(text) {
        Some(word) => TokenKind::Word(word),
        None => TokenKind::Name(Bytes::from_slice(alloc, text)?),
    };
    Ok(Front::Item(kind, text.len(), 0))
}

fn numeral(text: &[u8]) -> Front
    ensures { result ≡ numeral text.now }
{
    match integer_of(text) {
        Some(value) => Front::Item(TokenKind::Int(value), text.len(), 0),
        None => Front::Bad(SyntaxKind::BadNumeral),
    }
}

/// A string, of which some bytes stand before what was read.
fn string(before: usize, read: Result<Quoted, StringError>) -> Result<Front, NoMemory>
    requires { IfOk read (λ q. before + q.len < 2 ^ 64) }
    ensures { (found : Found) → IsFound found read → IfOk result (λ item. item ≡ string before found) }
{
    match read {
        Ok(quoted) => Ok(Front::Item(
            TokenKind::Text(quoted.text),
            before + quoted.len,
            quoted.lines,
        )),
        Err(StringError::Bad(kind)) => Ok(Front::Bad(kind)),
        Err(StringError::Memory) => Err(NoMemory),
    }
}

/// A comment, of which some bytes stand before what was read.
fn remark(before: usize, read: Result<Quoted, StringError>) -> Result<Front, NoMemory>
    requires { IfOk read (λ q. before + q.len < 2 ^ 64) }
    ensures { (found : Found) → IsFound found read → IfOk result (λ gap. gap ≡ remark before found) }
{
    match read {
        Ok(quoted) => Ok(Front::Gap(before + quoted.len, quoted.lines)),
        Err(StringError::Bad(kind)) => Ok(Front::Bad(kind)),
        Err(StringError::Memory) => Err(NoMemory),
    }
}

/// The level of the long bracket that the text begins with.
fn bracket_level(bytes: &[u8]) -> Option<usize>
    ensures value { result ≡ bracket_level bytes.now }
    ensures within { IfSome result (λ level. level + 2 ≤ length bytes.now) }
{
    match bytes {
        [b'[', after @ ..] => level_of(after),
        _ => None,
    }
}

/// A short string after its opening quote.
fn short(alloc: Global, quote: u8, after: &[u8]) -> Result<Front, NoMemory>
    requires { length after.now < 2 ^ 32 }
    ensures { IfOk result (λ found. found ≡ string 1 (short_from quote 0 after.now)) }
{
    string(1, short_string(alloc, quote, after))
}

/// A comment, from its second hyphen on.
fn comment(alloc: Global, hyphen: &[u8]) -> Result<Front, NoMemory>
    requires small { length hyphen.now < 2 ^ 32 }
    requires some { 0 < length hyphen.now }
    ensures { IfOk result (λ found. found ≡ comment hyphen.now) }
{
    let (_, after) = hyphen.split_at(1);
    match bracket_level(after) {
        Some(level) => {
            let (_, body) = after.split_at(level + 2);
            remark(level + 4, long_string(alloc, level, body))
        }
        None => Ok(Front::Gap(2 + line_len(after), 0)),
    }
}

/// A long string, or else a sign.
fn bracket(alloc: Global, bytes: &[u8]) -> Result<Front, NoMemory>
    requires { length bytes.now < 2 ^ 32 }
    ensures { IfOk result (λ found. found ≡ bracket (bracket_level bytes.now) bytes.now) }
{
    match bracket_level(bytes) {
        Some(level) => {
            let (_, body) = bytes.split_at(level + 2);
            string(level + 2, long_string(alloc, level, body))
        }
        None => Ok(signed(bytes)),
    }
}

/// The first bytes of a text.
fn head(bytes: &[u8], len: usize) -> &[u8]
    ensures { result.now ≡ take len bytes.now }
{
    &bytes[..len.min(bytes.len())]
}

/// The longest sign.
fn signed(bytes: &[u8]) -> Front
    ensures { result ≡ signed bytes.now }
{
    if let Some(sign) = sign_of_three(head(bytes, 3)) {
        return Front::Item(TokenKind::Sign(sign), 3, 0);
    }
    if let Some(sign) = sign_of_two(head(bytes, 2)) {
        return Front::Item(TokenKind::Sign(sign), 2, 0);
    }
    if let Some(sign) = sign_of_one(head(bytes, 1)) {
        return Front::Item(TokenKind::Sign(sign), 1, 0);
    }
    Front::Bad(SyntaxKind::BadByte)
}
