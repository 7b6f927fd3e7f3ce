//! The names and parameters of functions.

ghost use Rattle.std.specs.Prelude.{◌≡◌, [], ◌∷◌, IfOk};
ghost use Rattle.lua_grammar.specs.Lexeme.{lexeme_of};
ghost use Rattle.lua_grammar.specs.Table.{act_of, at_close_dots, at_first_parameter, at_function_path, at_method_parameters, at_more_parameters, at_next_parameter, at_parameters, function_block};
ghost use Rattle.lua_parser.specs.Turns.{Acts, Takes, state_of};

use crate::reader::{Reader, Turn};
use crate::table::one::at_name;
use crate::table::stat::one_more;
use lua_grammar::{Effect, Scope, Symbol};
use lua_tree::{Sign, Token, TokenKind};
use sk_types::NoMemory;

/// Takes the parenthesis after the parameters, and expects the function's block.
fn open_body(
    reader: &mut Reader,
    locals: u8,
    has_dots: bool,
    token: &Token,
) -> Result<Turn, NoMemory>
    ensures { IfOk result (λ turn. Takes (Effect.OpenBlock ∷ []) (function_block locals has_dots) (lexeme_of token.now) (state_of reader.old) turn (state_of reader.new)) }
{
    let scope = Scope {
        locals,
        in_loop: false,
        has_dots,
    };
    reader.take(
        token,
        &[Effect::OpenBlock],
        &[
            Symbol::Block(scope),
            Symbol::End,
            Symbol::Make(Effect::Body(has_dots)),
        ],
    )
}

/// After a name of the path to a function.
pub fn at_function_path(reader: &mut Reader, token: &Token) -> Result<Turn, NoMemory>
    ensures { IfOk result (λ turn. Acts (at_function_path token.now.kind) (lexeme_of token.now) (state_of reader.old) turn (state_of reader.new)) }
{
    match &token.kind {
        TokenKind::Sign(Sign::Dot) => reader.take(
            token,
            &[Effect::Line],
            &[Symbol::DotName, Symbol::FunctionPath],
        ),
        TokenKind::Sign(Sign::Colon) => reader.take(
            token,
            &[Effect::Line],
            &[Symbol::DotName, Symbol::MethodParameters],
        ),
        TokenKind::Sign(Sign::OpenParen) => reader.take(
            token,
            &[Effect::FirstTarget, Effect::OpenNames],
            &[Symbol::FirstParameter(0)],
        ),
        _ => Ok(Turn::Refused),
    }
}

/// Where the parameters of a function begin.
pub fn at_parameters(reader: &mut Reader, token: &Token) -> Result<Turn, NoMemory>
    ensures { IfOk result (λ turn. Acts (at_parameters token.now.kind) (lexeme_of token.now) (state_of reader.old) turn (state_of reader.new)) }
{
    match &token.kind {
        TokenKind::Sign(Sign::OpenParen) => reader.take(
            token,
            &[Effect::OpenNames],
            &[Symbol::FirstParameter(0)],
        ),
        _ => Ok(Turn::Refused),
    }
}

/// Where the parameters of a method begin.
pub fn at_method_parameters(reader: &mut Reader, token: &Token) -> Result<Turn, NoMemory>
    ensures { IfOk result (λ turn. Acts (at_method_parameters token.now.kind) (lexeme_of token.now) (state_of reader.old) turn (state_of reader.new)) }
{
    match &token.kind {
        TokenKind::Sign(Sign::OpenParen) => reader.take(
            token,
            &[Effect::FirstTarget, Effect::OpenSelf],
            &[Symbol::FirstParameter(1)],
        ),
        _ => Ok(Turn::Refused),
    }
}

/// Where a parameter or `...` stands.
pub fn at_next_parameter(reader: &mut Reader, count: u8, token: &Token) -> Result<Turn, NoMemory>
    ensures { IfOk result (λ turn. Acts (at_next_parameter count token.now.kind) (lexeme_of token.now) (state_of reader.old) turn (state_of reader.new)) }
{
    match &token.kind {
        TokenKind::Sign(Sign::Dots) => reader.take(token, &[], &[Symbol::CloseDots(count)]),
        _ => at_name(
            reader,
            &[Effect::NextName],
            &[Symbol::MoreParameters(one_more(count))],
            token,
        ),
    }
}

/// Where the first parameter may stand.
pub fn at_first_parameter(reader: &mut Reader, count: u8, token: &Token) -> Result<Turn, NoMemory>
    ensures { IfOk result (λ turn. Acts (at_first_parameter count token.now.kind) (lexeme_of token.now) (state_of reader.old) turn (state_of reader.new)) }
{
    match &token.kind {
        TokenKind::Sign(Sign::CloseParen) => open_body(reader, count, false, token),
        _ => at_next_parameter(reader, count, token),
    }
}

/// After a parameter.
pub fn at_more_parameters(reader: &mut Reader, count: u8, token: &Token) -> Result<Turn, NoMemory>
    ensures { IfOk result (λ turn. Acts (at_more_parameters count token.now.kind) (lexeme_of token.now) (state_of reader.old) turn (state_of reader.new)) }
{
    match &token.kind {
        TokenKind::Sign(Sign::Comma) => reader.take(token, &[], &[Symbol::NextParameter(count)]),
        TokenKind::Sign(Sign::CloseParen) => open_body(reader, count, false, token),
        _ => Ok(Turn::Refused),
    }
}

/// After the `...` of the parameters.
pub fn at_close_dots(reader: &mut Reader, count: u8, token: &Token) -> Result<Turn, NoMemory>
    ensures { IfOk result (λ turn. Acts (at_close_dots count token.now.kind) (lexeme_of token.now) (state_of reader.old) turn (state_of reader.new)) }
{
    match &token.kind {
        TokenKind::Sign(Sign::CloseParen) => open_body(reader, count, true, token),
        _ => Ok(Turn::Refused),
    }
}

/// Takes the first name of the path to a function.
pub fn at_function_name(reader: &mut Reader, token: &Token) -> Result<Turn, NoMemory>
    ensures { IfOk result (λ turn. Acts (act_of Symbol.FunctionName token.now.kind) (lexeme_of token.now) (state_of reader.old) turn (state_of reader.new)) }
{
    at_name(reader, &[Effect::Variable], &[Symbol::FunctionPath], token)
}
