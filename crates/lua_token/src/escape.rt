ghost use Rattle.std.specs.Prelude.{◌≡◌, ◌++◌, ◌<◌, ◌≤◌, ◌^◌, length, IfSome, OnOk};
ghost use Rattle.lua_token.specs.Escapes.{IsInRange, bytes_of, char_digits, char_escape, decimal_escape, escape, hex_escape, sign_escape, space_escape, utf8};

use crate::character::{
    begins, digits_len, end_len, hex_digits_len, is_digit, is_end, is_hex_digit, line_ends,
    space_len,
};
use crate::number::{decimal_value, hex_value};
use sk_types::{Bytes, NoMemory};

/// What an escape stands for.
#[derive(Clone, Copy, Debug, PartialEq, Eq)]
pub enum Stands {
    Nothing,
    Byte(u8),
    /// A character, by its code.
    Char(u32),
}

/// An escape after its backslash: what it stands for, its bytes, and the ends of line in them.
#[derive(Clone, Copy, Debug, PartialEq, Eq)]
pub struct Escape {
    pub stands: Stands,
    pub len: usize,
    pub lines: usize,
}

/// The escape that stands after a backslash, which takes some of the text.

pub fn next_escape(bytes: &[u8]) -> Option<Escape>
    requires { length bytes.now < 2 ^ 32 }
    ensures value { result ≡ escape bytes.now }
    ensures range { IfSome result (λ found. IsInRange found.stands) }
    ensures within { IfSome result (λ found. (0 < found.len) × (found.len ≤ length bytes.now) × (found.lines ≤ found.len)) }
{
    read_escape(bytes)
}

/// The escape that stands after a backslash.
fn read_escape(bytes: &[u8]) -> Option<Escape>
    requires { length bytes.now < 2 ^ 32 }
    ensures value { result ≡ escape bytes.now }
    ensures range { IfSome result (λ found. IsInRange found.stands) }
{
    let Some((b, after)) = bytes.split_first() else {
        return None;
    };
    if let Some(byte) = sign_escape(*b) {
        return Some(Escape {
            stands: Stands::Byte(byte),
            len: 1,
            lines: 0,
        });
    }
    if is_end(*b) {
        return Some(Escape {
            stands: Stands::Byte(b'\n'),
            len: end_len(*b, after),
            lines: 1,
        });
    }
    if *b == b'z' {
        return Some(space_escape(after));
    }
    if *b == b'x' {
        return hex_escape(after);
    }
    if *b == b'u' {
        return char_escape(after);
    }
    if !is_digit(*b) {
        return None;
    }
    decimal_escape(&bytes[..digits_len(bytes).min(3)])
}

fn sign_escape(b: u8) -> Option<u8>
    ensures { result ≡ sign_escape b }
{
    match b {
        b'a' => Some(7),
        b'b' => Some(8),
        b'f' => Some(12),
        b'n' => Some(10),
        b'r' => Some(13),
        b't' => Some(9),
        b'v' => Some(11),
        b'\\' => Some(b'\\'),
        b'"' => Some(b'"'),
        b'\'' => Some(b'\''),
        _ => None,
    }
}

fn space_escape(after: &[u8]) -> Escape
    requires { length after.now < 2 ^ 32 }
    ensures { result ≡ space_escape after.now }
{
    let len = space_len(after);
    Escape {
        stands: Stands::Nothing,
        len: 1 + len,
        lines: line_ends(&after[..len]),
    }
}

fn hex_escape(after: &[u8]) -> Option<Escape>
    ensures value { result ≡ hex_escape after.now }
    ensures range { IfSome result (λ found. IsInRange found.stands) }
{
    let [a, b, ..] = after else {
        return None;
    };
    if !(is_hex_digit(*a) && is_hex_digit(*b)) {
        return None;
    }
    Some(Escape {
        stands: Stands::Byte(hex_value(&[*a, *b]) as u8),
        len: 3,
        lines: 0,
    })
}

fn decimal_escape(digits: &[u8]) -> Option<Escape>
    ensures value { result ≡ decimal_escape digits.now }
    ensures range { IfSome result (λ found. IsInRange found.stands) }
{
    let value = decimal_value(digits);
    if value > 255 {
        return None;
    }
    Some(Escape {
        stands: Stands::Byte(value as u8),
        len: digits.len(),
        lines: 0,
    })
}

fn char_escape(after: &[u8]) -> Option<Escape>
    requires { length after.now < 2 ^ 32 }
    ensures value { result ≡ char_escape after.now }
    ensures range { IfSome result (λ found. IsInRange found.stands) }
{
    let [b'{', braced @ ..] = after else {
        return None;
    };
    let (digits, after) = braced.split_at(hex_digits_len(braced));
    char_digits(digits, after)
}

fn char_digits(digits: &[u8], after: &[u8]) -> Option<Escape>
    requires { length digits.now < 2 ^ 32 }
    ensures value { result ≡ char_digits digits.now after.now }
    ensures range { IfSome result (λ found. IsInRange found.stands) }
{
    let code = hex_value(digits);
    if !begins(after, b'}') || digits.is_empty() || code > 0x10_FFFF {
        return None;
    }
    Some(Escape {
        stands: Stands::Char(code as u32),
        len: digits.len() + 3,
        lines: 0,
    })
}

/// Adds the bytes that an escape stands for.
pub fn push_stands(text: &mut Bytes, stands: Stands) -> Result<(), NoMemory>
    requires { IsInRange stands }
    ensures { OnOk result (text.new ≡ text.old ++ bytes_of stands) }
{
    match stands {
        Stands::Nothing => Ok(()),
        Stands::Byte(byte) => text.push(byte),
        Stands::Char(code) => push_char(text, code),
    }
}

/// Adds a character in UTF-8.
fn push_char(text: &mut Bytes, code: u32) -> Result<(), NoMemory>
    requires { code ≤ 1114111 }
    ensures { OnOk result (text.new ≡ text.old ++ utf8 code) }
{
    let low = (128 + code % 64) as u8;
    let middle = (128 + code / 64 % 64) as u8;
    let high = (128 + code / 4096 % 64) as u8;
    if code < 128 {
        text.push(code as u8)
    } else if code < 2048 {
        text.push_slice(&[(192 + code / 64) as u8, low])
    } else if code < 65_536 {
        text.push_slice(&[(224 + code / 4096) as u8, middle, low])
    } else {
        text.push_slice(&[(240 + code / 262_144) as u8, high, middle, low])
    }
}
