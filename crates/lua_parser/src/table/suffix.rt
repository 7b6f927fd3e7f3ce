//! Suffixes, arguments and table constructors.

ghost use Rattle.std.specs.Prelude.{◌≡◌, [], ◌∷◌, IfOk};
ghost use Rattle.lua_grammar.specs.Lexeme.{lexeme_of};
ghost use Rattle.lua_grammar.specs.Table.{act_of, at_method_arguments, at_more_arguments, at_more_fields, at_phrase, at_suffix, others};
ghost use Rattle.lua_parser.specs.Turns.{Acts, Takes, Turned, state_of};

use crate::reader::{Reader, Turn};
use crate::table::one::at_name;
use lua_grammar::{Effect, Phrase, Place, Symbol};
use lua_tree::{Sign, Token, TokenKind};
use sk_types::NoMemory;

/// Where no suffix goes on with a prefix.
fn at_phrase(
    reader: &mut Reader,
    place: Place,
    phrase: Phrase,
    token: &Token,
) -> Result<Turn, NoMemory>
    ensures { IfOk result (λ turn. Acts (at_phrase place phrase token.now.kind) (lexeme_of token.now) (state_of reader.old) turn (state_of reader.new)) }
{
    match (place, phrase) {
        (Place::Expression, _) => reader.leave(&[Effect::EndSuffixes]),
        (Place::Statement, Phrase::Call) => reader.leave(&[Effect::EndSuffixes, Effect::Invoke]),
        (Place::Statement, Phrase::Var) => at_first_target(reader, token),
        (Place::Target, Phrase::Var) => at_next_target(reader, token),
        _ => Ok(Turn::Refused),
    }
}

/// After a variable that begins a statement.
fn at_first_target(reader: &mut Reader, token: &Token) -> Result<Turn, NoMemory>
    ensures { IfOk result (λ turn. Acts (at_phrase Place.Statement Phrase.Var token.now.kind) (lexeme_of token.now) (state_of reader.old) turn (state_of reader.new)) }
{
    match &token.kind {
        TokenKind::Sign(Sign::Comma) => reader.take(
            token,
            &[Effect::FirstTarget],
            &[Symbol::Target],
        ),
        TokenKind::Sign(Sign::Assign) => reader.take(
            token,
            &[Effect::FirstTarget, Effect::OpenExprs],
            &[
                Symbol::Expr(1),
                Symbol::MoreExprs,
                Symbol::Make(Effect::Assign),
            ],
        ),
        _ => Ok(Turn::Refused),
    }
}

/// After a further variable of an assignment.
fn at_next_target(reader: &mut Reader, token: &Token) -> Result<Turn, NoMemory>
    ensures { IfOk result (λ turn. Acts (at_phrase Place.Target Phrase.Var token.now.kind) (lexeme_of token.now) (state_of reader.old) turn (state_of reader.new)) }
{
    match &token.kind {
        TokenKind::Sign(Sign::Comma) => reader.take(
            token,
            &[Effect::NextTarget],
            &[Symbol::Target],
        ),
        TokenKind::Sign(Sign::Assign) => reader.take(
            token,
            &[Effect::NextTarget, Effect::OpenExprs],
            &[
                Symbol::Expr(1),
                Symbol::MoreExprs,
                Symbol::Make(Effect::Assign),
            ],
        ),
        _ => Ok(Turn::Refused),
    }
}

/// Begins the arguments of a call.
fn open_call(reader: &mut Reader, place: Place, token: &Token) -> Result<Turn, NoMemory>
    ensures { IfOk result (λ turn. Takes (Effect.Line ∷ Effect.OpenExprs ∷ []) (Symbol.Arguments ∷ Symbol.Make Effect.AddCall ∷ Symbol.Suffix place Phrase.Call ∷ []) (lexeme_of token.now) (state_of reader.old) turn (state_of reader.new)) }
{
    reader.take(
        token,
        &[Effect::Line, Effect::OpenExprs],
        &[
            Symbol::Arguments,
            Symbol::Make(Effect::AddCall),
            Symbol::Suffix(place, Phrase::Call),
        ],
    )
}

/// Begins a call whose argument is a table.
fn open_table_call(reader: &mut Reader, place: Place, token: &Token) -> Result<Turn, NoMemory>
    ensures { IfOk result (λ turn. Takes (Effect.Line ∷ Effect.OpenFields ∷ []) (Symbol.Fields ∷ Symbol.Make Effect.Table ∷ Symbol.Make Effect.OnlyExpr ∷ Symbol.Make Effect.AddCall ∷ Symbol.Suffix place Phrase.Call ∷ []) (lexeme_of token.now) (state_of reader.old) turn (state_of reader.new)) }
{
    reader.take(
        token,
        &[Effect::Line, Effect::OpenFields],
        &[
            Symbol::Fields,
            Symbol::Make(Effect::Table),
            Symbol::Make(Effect::OnlyExpr),
            Symbol::Make(Effect::AddCall),
            Symbol::Suffix(place, Phrase::Call),
        ],
    )
}

/// Makes a call whose argument is a text.
fn take_text_call(reader: &mut Reader, place: Place, token: &Token) -> Result<Turn, NoMemory>
    ensures { IfOk result (λ turn. Takes (Effect.Line ∷ Effect.Literal ∷ Effect.OnlyExpr ∷ Effect.AddCall ∷ []) (Symbol.Suffix place Phrase.Call ∷ []) (lexeme_of token.now) (state_of reader.old) turn (state_of reader.new)) }
{
    reader.take(
        token,
        &[
            Effect::Line,
            Effect::Literal,
            Effect::OnlyExpr,
            Effect::AddCall,
        ],
        &[Symbol::Suffix(place, Phrase::Call)],
    )
}

/// After a prefix, where a suffix may go on with it.
pub fn at_suffix(
    reader: &mut Reader,
    place: Place,
    phrase: Phrase,
    token: &Token,
) -> Result<Turn, NoMemory>
    ensures { IfOk result (λ turn. Acts (at_suffix place phrase token.now.kind) (lexeme_of token.now) (state_of reader.old) turn (state_of reader.new)) }
{
    match &token.kind {
        TokenKind::Sign(Sign::Dot) => reader.take(
            token,
            &[Effect::Line],
            &[Symbol::DotName, Symbol::Suffix(place, Phrase::Var)],
        ),
        TokenKind::Sign(Sign::OpenBracket) => reader.take(
            token,
            &[Effect::Line],
            &[
                Symbol::Expr(1),
                Symbol::CloseIndex,
                Symbol::Suffix(place, Phrase::Var),
            ],
        ),
        TokenKind::Sign(Sign::Colon) => reader.take(
            token,
            &[Effect::Line],
            &[Symbol::MethodName, Symbol::Suffix(place, Phrase::Call)],
        ),
        TokenKind::Sign(Sign::OpenParen) => open_call(reader, place, token),
        TokenKind::Sign(Sign::OpenBrace) => open_table_call(reader, place, token),
        TokenKind::Text(_) => take_text_call(reader, place, token),
        _ => at_phrase(reader, place, phrase, token),
    }
}

/// Takes the name of a method that is called.
pub fn at_method_name(reader: &mut Reader, token: &Token) -> Result<Turn, NoMemory>
    ensures { IfOk result (λ turn. Acts (act_of Symbol.MethodName token.now.kind) (lexeme_of token.now) (state_of reader.old) turn (state_of reader.new)) }
{
    at_name(reader, &[Effect::Name], &[Symbol::MethodArguments], token)
}

/// After the name of a method that is called.
pub fn at_method_arguments(reader: &mut Reader, token: &Token) -> Result<Turn, NoMemory>
    ensures { IfOk result (λ turn. Acts (at_method_arguments token.now.kind) (lexeme_of token.now) (state_of reader.old) turn (state_of reader.new)) }
{
    match &token.kind {
        TokenKind::Sign(Sign::OpenParen) => reader.take(
            token,
            &[Effect::Line, Effect::OpenExprs],
            &[Symbol::Arguments, Symbol::Make(Effect::AddMethod)],
        ),
        TokenKind::Sign(Sign::OpenBrace) => reader.take(
            token,
            &[Effect::Line, Effect::OpenFields],
            &[
                Symbol::Fields,
                Symbol::Make(Effect::Table),
                Symbol::Make(Effect::OnlyExpr),
                Symbol::Make(Effect::AddMethod),
            ],
        ),
        TokenKind::Text(_) => reader.take(
            token,
            &[
                Effect::Line,
                Effect::Literal,
                Effect::OnlyExpr,
                Effect::AddMethod,
            ],
            &[],
        ),
        _ => Ok(Turn::Refused),
    }
}

/// After the parenthesis that opens arguments.
pub fn at_arguments(reader: &mut Reader, token: &Token) -> Result<Turn, NoMemory>
    ensures { IfOk result (λ turn. Turned (others Symbol.Arguments token.now.kind) (act_of Symbol.Arguments token.now.kind) (lexeme_of token.now) (state_of reader.old) turn (state_of reader.new)) }
{
    match &token.kind {
        TokenKind::Sign(Sign::CloseParen) => reader.take(token, &[], &[]),
        _ => reader.replace(&[], &[Symbol::Expr(1), Symbol::MoreArguments]),
    }
}

/// After an argument.
pub fn at_more_arguments(reader: &mut Reader, token: &Token) -> Result<Turn, NoMemory>
    ensures { IfOk result (λ turn. Acts (at_more_arguments token.now.kind) (lexeme_of token.now) (state_of reader.old) turn (state_of reader.new)) }
{
    match &token.kind {
        TokenKind::Sign(Sign::Comma) => reader.take(
            token,
            &[Effect::AddExpr],
            &[Symbol::Expr(1), Symbol::MoreArguments],
        ),
        TokenKind::Sign(Sign::CloseParen) => reader.take(token, &[Effect::AddExpr], &[]),
        _ => Ok(Turn::Refused),
    }
}

/// Where a field of a table may begin.
pub fn at_fields(reader: &mut Reader, token: &Token) -> Result<Turn, NoMemory>
    ensures { IfOk result (λ turn. Turned (others Symbol.Fields token.now.kind) (act_of Symbol.Fields token.now.kind) (lexeme_of token.now) (state_of reader.old) turn (state_of reader.new)) }
{
    match &token.kind {
        TokenKind::Sign(Sign::CloseBrace) => reader.take(token, &[], &[]),
        TokenKind::Name(_) => reader.take(token, &[Effect::Name], &[Symbol::NameField]),
        TokenKind::Sign(Sign::OpenBracket) => reader.take(
            token,
            &[],
            &[
                Symbol::Expr(1),
                Symbol::CloseKey,
                Symbol::Assign,
                Symbol::Expr(1),
                Symbol::Make(Effect::KeyField),
                Symbol::MoreFields,
            ],
        ),
        _ => reader.replace(
            &[],
            &[
                Symbol::Expr(1),
                Symbol::Make(Effect::ItemField),
                Symbol::MoreFields,
            ],
        ),
    }
}

/// After a field.
pub fn at_more_fields(reader: &mut Reader, token: &Token) -> Result<Turn, NoMemory>
    ensures { IfOk result (λ turn. Acts (at_more_fields token.now.kind) (lexeme_of token.now) (state_of reader.old) turn (state_of reader.new)) }
{
    match &token.kind {
        TokenKind::Sign(Sign::Comma) => reader.take(token, &[], &[Symbol::Fields]),
        TokenKind::Sign(Sign::Semicolon) => reader.take(token, &[], &[Symbol::Fields]),
        TokenKind::Sign(Sign::CloseBrace) => reader.take(token, &[], &[]),
        _ => Ok(Turn::Refused),
    }
}

/// After a name that is a key, or begins an expression.
pub fn at_name_field(reader: &mut Reader, token: &Token) -> Result<Turn, NoMemory>
    ensures { IfOk result (λ turn. Turned (others Symbol.NameField token.now.kind) (act_of Symbol.NameField token.now.kind) (lexeme_of token.now) (state_of reader.old) turn (state_of reader.new)) }
{
    match &token.kind {
        TokenKind::Sign(Sign::Assign) => reader.take(
            token,
            &[Effect::TextKey],
            &[
                Symbol::Expr(1),
                Symbol::Make(Effect::KeyField),
                Symbol::MoreFields,
            ],
        ),
        _ => reader.replace(
            &[Effect::NameVariable],
            &[
                Symbol::Suffix(Place::Expression, Phrase::Var),
                Symbol::Tail(1, 12),
                Symbol::Make(Effect::ItemField),
                Symbol::MoreFields,
            ],
        ),
    }
}
