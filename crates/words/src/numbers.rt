ghost use Rattle.std.specs.Prelude.{◌≡◌, ◌≤◌, IfSome, unwrap_or};
ghost use Rattle.std.specs.List.{list_all};
ghost use Rattle.std.specs.Char.{is_ascii_digit};
ghost use Rattle.clap.specs.Words.{first_of, found_of, rows_of};
ghost use Rattle.words.specs.Numbers.{is_digits, number_in, number_of};

use clap::ArgMatches;

/// The numbers that an option takes, and the one that it has where it is not given.
#[derive(Clone, Copy, Debug, PartialEq, Eq)]
pub struct Range {
    pub least: u64,
    pub greatest: u64,
    pub default: u64,
}

fn all_digits(bytes: &[u8]) -> bool
    ensures { result ≡ list_all is_ascii_digit bytes.now }
{
    bytes.iter().all(|b| b.is_ascii_digit())
}

// 1 to 10 decimal digits.
fn is_digits(text: &str) -> bool
    ensures { result ≡ is_digits text.now }
{
    let bytes = text.as_bytes();
    if bytes.is_empty() || bytes.len() > 10 {
        return false;
    }
    all_digits(bytes)
}

/// The number that 1 to 10 decimal digits write, where it is in the range.
pub fn number(text: &str, range: &Range) -> Option<u64>
    ensures number { result ≡ number_of range.now text.now }
    ensures within { IfSome result (λ n. n ≤ range.now.greatest) }
{
    if !is_digits(text) {
        return None;
    }
    let Ok(n) = text.parse::<u64>() else {
        return None;
    };
    if range.least <= n && n <= range.greatest {
        Some(n)
    } else {
        None
    }
}

/// The number of an option, or its default where it is not given.
pub(crate) fn number_or(matches: &ArgMatches<'_>, id: &str, range: &Range) -> Option<u64>
    requires { range.now.default ≤ range.now.greatest }
    ensures number { result ≡ number_in (rows_of (found_of matches.now)) id.now range.now }
    ensures within { IfSome result (λ n. n ≤ range.now.greatest) }
{
    match matches.get_str(id) {
        Some(text) => number(text, range),
        None => Some(range.default),
    }
}

/// The text of a word, or what stands where it is not given.
pub(crate) fn text_or<'a>(matches: &ArgMatches<'a>, id: &str, default: &'a str) -> &'a str
    ensures { result.now ≡ unwrap_or (first_of id.now (rows_of (found_of matches.now))) default.entry.now }
{
    match matches.get_str(id) {
        Some(text) => text,
        None => default,
    }
}
