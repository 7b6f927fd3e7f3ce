ghost use Rattle.std.specs.Prelude.{◌≡◌, ◌==◌, ◌≤◌, length, take_while};
ghost use Rattle.lua_token.specs.Characters.{end_len, is_blank, is_digit, is_end, is_equals, is_hex_digit, is_letter, is_name_byte, is_no_end, is_numeral_byte, is_other_end, is_space, line_ends, first_is};

pub fn is_blank(b: u8) -> bool
    ensures { result ≡ is_blank b }
{
    matches!(b, b' ' | b'\t' | 11 | 12)
}

pub fn is_end(b: u8) -> bool
    ensures { result ≡ is_end b }
{
    b == b'\n' || b == b'\r'
}

pub fn is_space(b: u8) -> bool
    ensures { result ≡ is_space b }
{
    is_blank(b) || is_end(b)
}

pub fn is_digit(b: u8) -> bool
    ensures { result ≡ is_digit b }
{
    b.is_ascii_digit()
}

pub fn is_hex_digit(b: u8) -> bool
    ensures { result ≡ is_hex_digit b }
{
    is_digit(b) || (b'A' <= b && b <= b'F') || (b'a' <= b && b <= b'f')
}

pub fn is_letter(b: u8) -> bool
    ensures { result ≡ is_letter b }
{
    b.is_ascii_alphabetic() || b == b'_'
}

pub fn is_name_byte(b: u8) -> bool
    ensures { result ≡ is_name_byte b }
{
    is_letter(b) || is_digit(b)
}

pub fn is_numeral_byte(b: u8) -> bool
    ensures { result ≡ is_numeral_byte b }
{
    is_name_byte(b) || b == b'.'
}

pub fn name_len(bytes: &[u8]) -> usize
    ensures { result ≡ length (take_while is_name_byte bytes.now) }
{
    bytes.iter().take_while(|b| is_name_byte(**b)).count()
}

pub fn numeral_len(bytes: &[u8]) -> usize
    ensures { result ≡ length (take_while is_numeral_byte bytes.now) }
{
    bytes.iter().take_while(|b| is_numeral_byte(**b)).count()
}

pub fn digits_len(bytes: &[u8]) -> usize
    ensures { result ≡ length (take_while is_digit bytes.now) }
{
    bytes.iter().take_while(|b| is_digit(**b)).count()
}

pub fn hex_digits_len(bytes: &[u8]) -> usize
    ensures { result ≡ length (take_while is_hex_digit bytes.now) }
{
    bytes.iter().take_while(|b| is_hex_digit(**b)).count()
}

pub fn space_len(bytes: &[u8]) -> usize
    ensures { result ≡ length (take_while is_space bytes.now) }
{
    bytes.iter().take_while(|b| is_space(**b)).count()
}

pub fn equals_len(bytes: &[u8]) -> usize
    ensures { result ≡ length (take_while is_equals bytes.now) }
{
    bytes.iter().take_while(|b| **b == b'=').count()
}

/// How many bytes stand before the end of the line.
pub fn line_len(bytes: &[u8]) -> usize
    ensures value { result ≡ length (take_while is_no_end bytes.now) }
    ensures within { result ≤ length bytes.now }
{
    bytes.iter().take_while(|b| !is_end(**b)).count()
}

/// Whether the text begins with this byte.
pub fn begins(bytes: &[u8], byte: u8) -> bool
    ensures { result ≡ first_is (λ b. b == byte) bytes.now }
{
    match bytes {
        [b, ..] => *b == byte,
        [] => false,
    }
}

/// Whether the text begins with the other byte of an end of line.
pub fn is_paired(first: u8, after: &[u8]) -> bool
    ensures { result ≡ first_is (is_other_end first) after.now }
{
    match after {
        [b, ..] => is_end(*b) && first != *b,
        [] => false,
    }
}

/// The bytes of an end of line that begins with this byte.
pub fn end_len(first: u8, after: &[u8]) -> usize
    ensures { result ≡ end_len first after.now }
{
    if is_paired(first, after) { 2 } else { 1 }
}

/// How many ends of line a text has; `\r\n` and `\n\r` are one each.
pub fn line_ends(text: &[u8]) -> usize
    ensures value { result ≡ line_ends text.now }
    ensures within { result ≤ length text.now }
{
    let mut count = 0;
    let mut rest = text;
    while let [b, after @ ..] = rest {
        if is_end(*b) {
            count += 1;
            rest = &rest[end_len(*b, after)..];
        } else {
            rest = after;
        }
    }
    count
}
