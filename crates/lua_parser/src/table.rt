//! The table: what a symbol that is expected does at a token, with one token of look-ahead.

ghost use Rattle.std.specs.Prelude.{◌≡◌, IfOk};
ghost use Rattle.lua_grammar.specs.Lexeme.{lexeme_of};
ghost use Rattle.lua_grammar.specs.Table.{act_of, last_of, others};
ghost use Rattle.lua_parser.specs.Turns.{Ends, Turned, state_of};

mod block;
mod expr;
mod function;
mod one;
mod operator;
mod stat;
mod suffix;

use crate::reader::{Reader, Turn};
use block::at_block;
use expr::{at_chained, at_expr, at_more_exprs, at_return_exprs, at_tail};
use function::{
    at_close_dots, at_first_parameter, at_function_name, at_function_path, at_method_parameters,
    at_more_parameters, at_next_parameter, at_parameters,
};
use lua_grammar::{Effect, Phrase, Place, Symbol};
use lua_tree::Token;
use one::{
    at_assign, at_close_index, at_close_key, at_close_paren, at_comma, at_end, at_name,
    at_semicolon, at_until,
};
use sk_types::NoMemory;
use stat::{
    at_do, at_else, at_for, at_for_first, at_for_name, at_for_names, at_for_step, at_local,
    at_local_function, at_local_more, at_local_name, at_target, at_then,
};
use suffix::{
    at_arguments, at_fields, at_method_arguments, at_method_name, at_more_arguments,
    at_more_fields, at_name_field, at_suffix,
};

/// What a symbol that was taken off the stack does at a token.
pub fn turn(reader: &mut Reader, symbol: Symbol, token: &Token) -> Result<Turn, NoMemory>
    ensures { IfOk result (λ turn. Turned (others symbol token.now.kind) (act_of symbol token.now.kind) (lexeme_of token.now) (state_of reader.old) turn (state_of reader.new)) }
{
    match symbol {
        Symbol::Make(effect) => reader.leave(&[effect]),
        Symbol::Expr(least) => at_expr(reader, least, token),
        Symbol::Tail(least, most) => at_tail(reader, least, most, token),
        Symbol::Chained(chain) => at_chained(reader, chain, token),
        Symbol::MoreExprs => at_more_exprs(reader, token),
        Symbol::Suffix(place, phrase) => at_suffix(reader, place, phrase, token),
        Symbol::DotName => at_name(reader, &[Effect::AddDot], &[], token),
        Symbol::MethodName => at_method_name(reader, token),
        Symbol::MethodArguments => at_method_arguments(reader, token),
        Symbol::Arguments => at_arguments(reader, token),
        Symbol::MoreArguments => at_more_arguments(reader, token),
        Symbol::CloseIndex => at_close_index(reader, token),
        Symbol::CloseParen => at_close_paren(reader, token),
        Symbol::Fields => at_fields(reader, token),
        Symbol::MoreFields => at_more_fields(reader, token),
        Symbol::NameField => at_name_field(reader, token),
        Symbol::CloseKey => at_close_key(reader, token),
        Symbol::Assign => at_assign(reader, token),
        Symbol::Block(scope) => at_block(reader, scope, token),
        Symbol::ReturnExprs => at_return_exprs(reader, token),
        Symbol::OptionalSemicolon(_) => at_semicolon(reader, token),
        Symbol::Target => at_target(reader, token),
        Symbol::Comma => at_comma(reader, token),
        Symbol::Then(scope) => at_then(reader, scope, token),
        Symbol::Else(scope) => at_else(reader, scope, token),
        Symbol::Do(scope) => at_do(reader, scope, token),
        Symbol::Until => at_until(reader, token),
        Symbol::End => at_end(reader, token),
        Symbol::For(scope) => at_for(reader, scope, token),
        Symbol::ForName(scope) => at_for_name(reader, scope, token),
        Symbol::ForFirst(scope) => at_for_first(reader, scope, token),
        Symbol::ForMore(scope) => at_for_names(reader, scope, token),
        Symbol::ForStep(scope) => at_for_step(reader, scope, token),
        Symbol::Local(scope) => at_local(reader, scope, token),
        Symbol::LocalName(scope) => at_local_name(reader, scope, token),
        Symbol::LocalMore(scope) => at_local_more(reader, scope, token),
        Symbol::LocalFunction(scope) => at_local_function(reader, scope, token),
        Symbol::FunctionName => at_function_name(reader, token),
        Symbol::FunctionPath => at_function_path(reader, token),
        Symbol::MethodParameters => at_method_parameters(reader, token),
        Symbol::Parameters => at_parameters(reader, token),
        Symbol::FirstParameter(count) => at_first_parameter(reader, count, token),
        Symbol::NextParameter(count) => at_next_parameter(reader, count, token),
        Symbol::MoreParameters(count) => at_more_parameters(reader, count, token),
        Symbol::CloseDots(count) => at_close_dots(reader, count, token),
    }
}

/// What a symbol does at the end of the text.
pub fn end_turn(reader: &mut Reader, symbol: Symbol) -> Result<Turn, NoMemory>
    ensures { IfOk result (λ turn. Ends (last_of symbol) (state_of reader.old) turn (state_of reader.new)) }
{
    match symbol {
        Symbol::Make(effect) => reader.leave(&[effect]),
        Symbol::Tail(_, _) | Symbol::ReturnExprs | Symbol::OptionalSemicolon(_) => reader.leave(
            &[],
        ),
        Symbol::Chained(_) => reader.leave(&[Effect::EndChain]),
        Symbol::MoreExprs => reader.leave(&[Effect::AddExpr]),
        Symbol::Suffix(place, phrase) => end_suffix(reader, place, phrase),
        Symbol::Block(_) => reader.leave(&[Effect::EndBlock]),
        Symbol::LocalMore(_) => reader.leave(&[Effect::LocalAlone, Effect::EndBlock]),
        _ => Ok(Turn::Refused),
    }
}

fn end_suffix(reader: &mut Reader, place: Place, phrase: Phrase) -> Result<Turn, NoMemory>
    ensures { IfOk result (λ turn. Ends (last_of (Symbol.Suffix place phrase)) (state_of reader.old) turn (state_of reader.new)) }
{
    match (place, phrase) {
        (Place::Expression, _) => reader.leave(&[Effect::EndSuffixes]),
        (Place::Statement, Phrase::Call) => reader.leave(&[Effect::EndSuffixes, Effect::Invoke]),
        _ => Ok(Turn::Refused),
    }
}
