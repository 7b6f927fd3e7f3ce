ghost use Rattle.std.specs.Prelude.{◌≡◌};
ghost use Rattle.lua_token.specs.Names.{long_word, longest_word, short_word, word_of};
ghost use Rattle.lua_token.specs.Signs.{sign_of_one, sign_of_three, sign_of_two};

use lua_tree::{Sign, Word};

/// The reserved word that a text is.
pub fn word_of(text: &[u8]) -> Option<Word>
    ensures { result ≡ word_of text.now }
{
    if let Some(word) = short_word(text) {
        return Some(word);
    }
    if let Some(word) = long_word(text) {
        return Some(word);
    }
    longest_word(text)
}

fn short_word(text: &[u8]) -> Option<Word>
    ensures { result ≡ short_word text.now }
{
    match text {
        b"and" => Some(Word::And),
        b"do" => Some(Word::Do),
        b"else" => Some(Word::Else),
        b"end" => Some(Word::End),
        b"for" => Some(Word::For),
        b"goto" => Some(Word::Goto),
        b"if" => Some(Word::If),
        b"in" => Some(Word::In),
        b"nil" => Some(Word::Nil),
        b"not" => Some(Word::Not),
        b"or" => Some(Word::Or),
        b"then" => Some(Word::Then),
        b"true" => Some(Word::True),
        _ => None,
    }
}

fn long_word(text: &[u8]) -> Option<Word>
    ensures { result ≡ long_word text.now }
{
    match text {
        b"break" => Some(Word::Break),
        b"false" => Some(Word::False),
        b"local" => Some(Word::Local),
        b"until" => Some(Word::Until),
        b"while" => Some(Word::While),
        _ => None,
    }
}

fn longest_word(text: &[u8]) -> Option<Word>
    ensures { result ≡ longest_word text.now }
{
    if text == b"elseif".as_slice() {
        return Some(Word::Elseif);
    }
    if text == b"function".as_slice() {
        return Some(Word::Function);
    }
    if text == b"repeat".as_slice() {
        return Some(Word::Repeat);
    }
    if text == b"return".as_slice() {
        return Some(Word::Return);
    }
    None
}

/// The sign of three bytes that a text is.
pub fn sign_of_three(text: &[u8]) -> Option<Sign>
    ensures { result ≡ sign_of_three text.now }
{
    match text {
        b"..." => Some(Sign::Dots),
        _ => None,
    }
}

/// The sign of two bytes that a text is.
pub fn sign_of_two(text: &[u8]) -> Option<Sign>
    ensures { result ≡ sign_of_two text.now }
{
    match text {
        b"//" => Some(Sign::DoubleSlash),
        b"<<" => Some(Sign::ShiftLeft),
        b">>" => Some(Sign::ShiftRight),
        b"==" => Some(Sign::Equal),
        b"~=" => Some(Sign::NotEqual),
        b"<=" => Some(Sign::LessEqual),
        b">=" => Some(Sign::GreaterEqual),
        b"::" => Some(Sign::DoubleColon),
        b".." => Some(Sign::Concat),
        _ => None,
    }
}

/// The sign of one byte that a text is.
pub fn sign_of_one(text: &[u8]) -> Option<Sign>
    ensures { result ≡ sign_of_one text.now }
{
    match text {
        b"+" => Some(Sign::Plus),
        b"-" => Some(Sign::Minus),
        b"*" => Some(Sign::Star),
        b"/" => Some(Sign::Slash),
        b"%" => Some(Sign::Percent),
        b"^" => Some(Sign::Caret),
        b"#" => Some(Sign::Hash),
        b"&" => Some(Sign::Ampersand),
        b"~" => Some(Sign::Tilde),
        b"|" => Some(Sign::Bar),
        b"<" => Some(Sign::Less),
        b">" => Some(Sign::Greater),
        b"=" => Some(Sign::Assign),
        b"(" => Some(Sign::OpenParen),
        b")" => Some(Sign::CloseParen),
        b"{" => Some(Sign::OpenBrace),
        b"}" => Some(Sign::CloseBrace),
        b"[" => Some(Sign::OpenBracket),
        b"]" => Some(Sign::CloseBracket),
        b";" => Some(Sign::Semicolon),
        b":" => Some(Sign::Colon),
        b"," => Some(Sign::Comma),
        b"." => Some(Sign::Dot),
        _ => None,
    }
}
