ghost use Rattle.std.specs.Prelude.{◌≡◌, ◌%◌, ◌^◌, ◌≤◌, min};
ghost use Rattle.std.specs.List.{list_all};
ghost use Rattle.lua_token.specs.Characters.{is_digit, is_hex_digit};
ghost use Rattle.lua_token.specs.Numerals.{decimal, decimal_value, hex_digit_value, hex_value, hexadecimal, integer_of, is_some_hex};

use crate::character::{is_digit, is_hex_digit};

/// From here on a number is too large to count.
const LARGE: u64 = 1 << 63;

/// The number that decimal digits spell, or 2 ^ 63 where it is no less.
pub fn decimal_value(text: &[u8]) -> u64
    ensures { result ≡ min (decimal_value text.now) (2 ^ 63) }
{
    let mut value: u64 = 0;
    for b in text {
        let digit = u64::from(b.saturating_sub(b'0'));
        value = value.saturating_mul(10).saturating_add(digit).min(LARGE);
    }
    value
}

fn hex_digit_value(b: u8) -> u8
    ensures { result ≡ hex_digit_value b }
{
    match b {
        0..=57 => b.saturating_sub(48),
        58..=70 => b.saturating_sub(55),
        _ => b.saturating_sub(87),
    }
}

/// The number that hexadecimal digits spell, or 2 ^ 63 where it is no less.
pub fn hex_value(text: &[u8]) -> u64
    ensures { result ≡ min (hex_value text.now) (2 ^ 63) }
{
    let mut value: u64 = 0;
    for b in text {
        let digit = u64::from(hex_digit_value(*b));
        value = value.saturating_mul(16).saturating_add(digit).min(LARGE);
    }
    value
}

/// The number that hexadecimal digits spell, modulo 2 ^ 64.
fn wrapped_hex_value(text: &[u8]) -> u64
    ensures { result ≡ hex_value text.now % 2 ^ 64 }
{
    let mut value: u64 = 0;
    for b in text {
        let digit = u64::from(hex_digit_value(*b));
        value = value.wrapping_mul(16).wrapping_add(digit);
    }
    value
}

fn all_digits(text: &[u8]) -> bool
    ensures { result ≡ list_all is_digit text.now }
{
    text.iter().all(|b| is_digit(*b))
}

fn all_hex_digits(text: &[u8]) -> bool
    ensures { result ≡ list_all is_hex_digit text.now }
{
    text.iter().all(|b| is_hex_digit(*b))
}

fn is_some_hex(text: &[u8]) -> bool
    ensures { result ≡ is_some_hex text.now }
{
    !text.is_empty() && all_hex_digits(text)
}

fn decimal(text: &[u8]) -> Option<i64>
    ensures { result ≡ decimal text.now }
{
    if !all_digits(text) {
        return None;
    }
    let value = decimal_value(text);
    if value < LARGE {
        Some(value as i64)
    } else {
        None
    }
}

fn hexadecimal(digits: &[u8]) -> Option<i64>
    ensures { result ≡ hexadecimal digits.now }
{
    if is_some_hex(digits) {
        Some(wrapped_hex_value(digits).cast_signed())
    } else {
        None
    }
}

/// The integer that a numeral spells.
pub fn integer_of(text: &[u8]) -> Option<i64>
    ensures { result ≡ integer_of text.now }
{
    match text {
        [b'0', b'x' | b'X', digits @ ..] => hexadecimal(digits),
        _ => decimal(text),
    }
}
