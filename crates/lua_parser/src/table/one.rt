//! Symbols that stand for one token.

ghost use Rattle.std.specs.Prelude.{◌≡◌, IfOk};
ghost use Rattle.lua_grammar.specs.Lexeme.{lexeme_of};
ghost use Rattle.lua_grammar.specs.Table.{at_assign, at_close_index, at_close_key, at_close_paren, at_comma, at_end, at_name, at_semicolon, at_until};
ghost use Rattle.lua_parser.specs.Turns.{Acts, state_of};

use crate::reader::{Reader, Turn};
use lua_grammar::{Effect, Symbol};
use lua_tree::{Sign, Token, TokenKind, Word};
use sk_types::NoMemory;

/// Takes a name.
pub fn at_name(
    reader: &mut Reader,
    effects: &[Effect],
    symbols: &[Symbol],
    token: &Token,
) -> Result<Turn, NoMemory>
    ensures { IfOk result (λ turn. Acts (at_name effects.now symbols.now token.now.kind) (lexeme_of token.now) (state_of reader.old) turn (state_of reader.new)) }
{
    match &token.kind {
        TokenKind::Name(_) => reader.take(token, effects, symbols),
        _ => Ok(Turn::Refused),
    }
}

/// Takes the bracket that ends a key.
pub fn at_close_index(reader: &mut Reader, token: &Token) -> Result<Turn, NoMemory>
    ensures { IfOk result (λ turn. Acts (at_close_index token.now.kind) (lexeme_of token.now) (state_of reader.old) turn (state_of reader.new)) }
{
    match &token.kind {
        TokenKind::Sign(Sign::CloseBracket) => reader.take(token, &[Effect::AddIndex], &[]),
        _ => Ok(Turn::Refused),
    }
}

/// Takes the parenthesis that ends an expression.
pub fn at_close_paren(reader: &mut Reader, token: &Token) -> Result<Turn, NoMemory>
    ensures { IfOk result (λ turn. Acts (at_close_paren token.now.kind) (lexeme_of token.now) (state_of reader.old) turn (state_of reader.new)) }
{
    match &token.kind {
        TokenKind::Sign(Sign::CloseParen) => reader.take(token, &[Effect::Enclose], &[]),
        _ => Ok(Turn::Refused),
    }
}

/// Takes the bracket that ends a field's key.
pub fn at_close_key(reader: &mut Reader, token: &Token) -> Result<Turn, NoMemory>
    ensures { IfOk result (λ turn. Acts (at_close_key token.now.kind) (lexeme_of token.now) (state_of reader.old) turn (state_of reader.new)) }
{
    match &token.kind {
        TokenKind::Sign(Sign::CloseBracket) => reader.take(token, &[], &[]),
        _ => Ok(Turn::Refused),
    }
}

/// Takes `=`.
pub fn at_assign(reader: &mut Reader, token: &Token) -> Result<Turn, NoMemory>
    ensures { IfOk result (λ turn. Acts (at_assign token.now.kind) (lexeme_of token.now) (state_of reader.old) turn (state_of reader.new)) }
{
    match &token.kind {
        TokenKind::Sign(Sign::Assign) => reader.take(token, &[], &[]),
        _ => Ok(Turn::Refused),
    }
}

/// Takes a comma.
pub fn at_comma(reader: &mut Reader, token: &Token) -> Result<Turn, NoMemory>
    ensures { IfOk result (λ turn. Acts (at_comma token.now.kind) (lexeme_of token.now) (state_of reader.old) turn (state_of reader.new)) }
{
    match &token.kind {
        TokenKind::Sign(Sign::Comma) => reader.take(token, &[], &[]),
        _ => Ok(Turn::Refused),
    }
}

/// Takes `until`.
pub fn at_until(reader: &mut Reader, token: &Token) -> Result<Turn, NoMemory>
    ensures { IfOk result (λ turn. Acts (at_until token.now.kind) (lexeme_of token.now) (state_of reader.old) turn (state_of reader.new)) }
{
    match &token.kind {
        TokenKind::Word(Word::Until) => reader.take(token, &[], &[]),
        _ => Ok(Turn::Refused),
    }
}

/// Takes `end`.
pub fn at_end(reader: &mut Reader, token: &Token) -> Result<Turn, NoMemory>
    ensures { IfOk result (λ turn. Acts (at_end token.now.kind) (lexeme_of token.now) (state_of reader.old) turn (state_of reader.new)) }
{
    match &token.kind {
        TokenKind::Word(Word::End) => reader.take(token, &[], &[]),
        _ => Ok(Turn::Refused),
    }
}

/// Takes the `;` after a `return`, where one stands.
pub fn at_semicolon(reader: &mut Reader, token: &Token) -> Result<Turn, NoMemory>
    ensures { IfOk result (λ turn. Acts (at_semicolon token.now.kind) (lexeme_of token.now) (state_of reader.old) turn (state_of reader.new)) }
{
    match &token.kind {
        TokenKind::Sign(Sign::Semicolon) => reader.take(token, &[], &[]),
        _ => reader.leave(&[]),
    }
}
