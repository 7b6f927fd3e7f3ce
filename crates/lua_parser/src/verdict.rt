//! What is wrong with a token by what is expected before it.

ghost use Rattle.std.specs.Prelude.{◌≡◌};
ghost use Rattle.lua_grammar.specs.Faults.{is_float, is_over, is_stray_break, is_stray_dots, is_unsupported};
ghost use Rattle.lua_parser.specs.Verdicts.{outside, stray};

use crate::expected::Expected;
use lua_tree::{Sign, TokenKind, Word};
use sk_types::SyntaxKind;

/// How many locals a function may have in scope.
const MAX_LOCALS: u8 = 200;

fn is_float(kind: &TokenKind) -> bool
    ensures { result ≡ is_float kind.now }
{
    match kind {
        TokenKind::Sign(Sign::Slash) => true,
        TokenKind::Sign(Sign::Caret) => true,
        _ => false,
    }
}

/// Whether a token is the name `_ENV`, `goto`, a label, or begins an attribute of a local.
fn is_unsupported(expected: &Expected, kind: &TokenKind) -> bool
    ensures { result ≡ is_unsupported expected.now kind.now }
{
    match kind {
        TokenKind::Name(text) => text.as_slice() == b"_ENV".as_slice(),
        TokenKind::Word(Word::Goto) => true,
        TokenKind::Sign(Sign::DoubleColon) => true,
        TokenKind::Sign(Sign::Less) => expected.is_after_local(),
        _ => false,
    }
}

/// Whether a token is a name that would be one local too many.
fn is_over(names: Option<u8>, kind: &TokenKind) -> bool
    ensures { result ≡ is_over names kind.now }
{
    let Some(count) = names else {
        return false;
    };
    match kind {
        TokenKind::Name(_) => count >= MAX_LOCALS,
        _ => false,
    }
}

fn is_stray_break(expected: &Expected, kind: &TokenKind) -> bool
    ensures { result ≡ is_stray_break expected.now kind.now }
{
    match kind {
        TokenKind::Word(Word::Break) => !expected.scope().in_loop,
        _ => false,
    }
}

fn is_stray_dots(expected: &Expected, kind: &TokenKind) -> bool
    ensures { result ≡ is_stray_dots expected.now kind.now }
{
    match kind {
        TokenKind::Sign(Sign::Dots) => !expected.scope().has_dots && !expected.is_at_parameter(),
        _ => false,
    }
}

/// What is wrong with a token, whether it fits or not.
pub fn outside(expected: &Expected, kind: &TokenKind) -> Option<SyntaxKind>
    ensures { result ≡ outside expected.now kind.now }
{
    if is_float(kind) {
        Some(SyntaxKind::Float)
    } else if is_unsupported(expected, kind) {
        Some(SyntaxKind::Unsupported)
    } else {
        None
    }
}

/// What is wrong with a token by what is in scope.
pub fn stray(expected: &Expected, kind: &TokenKind) -> Option<SyntaxKind>
    ensures { result ≡ stray expected.now kind.now }
{
    if is_over(expected.names(), kind) {
        Some(SyntaxKind::Locals)
    } else if is_stray_break(expected, kind) {
        Some(SyntaxKind::Break)
    } else if is_stray_dots(expected, kind) {
        Some(SyntaxKind::Vararg)
    } else {
        None
    }
}
