//! Statements.

ghost use Rattle.std.specs.Prelude.{◌≡◌, [], IfOk};
ghost use Rattle.lua_grammar.specs.Lexeme.{lexeme_of};
ghost use Rattle.lua_grammar.specs.Table.{act_of, at_do, at_else, at_for_first, at_for_names, at_for_step, at_local, at_target, at_then, in_loop, one_more, others, with_one};
ghost use Rattle.lua_parser.specs.Turns.{Acts, Turned, state_of};

use crate::reader::{Reader, Turn};
use crate::table::one::at_name;
use lua_grammar::{Effect, Phrase, Place, Scope, Symbol};
use lua_tree::{Sign, Token, TokenKind, Word};
use sk_types::NoMemory;

/// One local more, where the bound lets it be.
pub fn one_more(count: u8) -> u8
    ensures { result ≡ one_more count }
{
    if count < 200 { count + 1 } else { count }
}

/// A scope with one local more.
pub fn with_one(scope: Scope) -> Scope
    ensures { result ≡ with_one scope }
{
    Scope {
        locals: one_more(scope.locals),
        ..scope
    }
}

/// A scope inside a loop.
pub fn in_loop(scope: Scope) -> Scope
    ensures { result ≡ in_loop scope }
{
    Scope {
        in_loop: true,
        ..scope
    }
}

/// Where a further target of an assignment begins.
pub fn at_target(reader: &mut Reader, token: &Token) -> Result<Turn, NoMemory>
    ensures { IfOk result (λ turn. Acts (at_target token.now.kind) (lexeme_of token.now) (state_of reader.old) turn (state_of reader.new)) }
{
    match &token.kind {
        TokenKind::Name(_) => reader.take(
            token,
            &[Effect::Variable],
            &[Symbol::Suffix(Place::Target, Phrase::Var)],
        ),
        TokenKind::Sign(Sign::OpenParen) => reader.take(
            token,
            &[],
            &[
                Symbol::Expr(1),
                Symbol::CloseParen,
                Symbol::Suffix(Place::Target, Phrase::Enclosed),
            ],
        ),
        _ => Ok(Turn::Refused),
    }
}

/// After the test of a branch.
pub fn at_then(reader: &mut Reader, scope: Scope, token: &Token) -> Result<Turn, NoMemory>
    ensures { IfOk result (λ turn. Acts (at_then scope token.now.kind) (lexeme_of token.now) (state_of reader.old) turn (state_of reader.new)) }
{
    match &token.kind {
        TokenKind::Word(Word::Then) => reader.take(
            token,
            &[Effect::OpenBlock],
            &[Symbol::Block(scope)],
        ),
        _ => Ok(Turn::Refused),
    }
}

/// After the block of a branch.
pub fn at_else(reader: &mut Reader, scope: Scope, token: &Token) -> Result<Turn, NoMemory>
    ensures { IfOk result (λ turn. Acts (at_else scope token.now.kind) (lexeme_of token.now) (state_of reader.old) turn (state_of reader.new)) }
{
    match &token.kind {
        TokenKind::Word(Word::Elseif) => reader.take(
            token,
            &[Effect::AddBranch],
            &[Symbol::Expr(1), Symbol::Then(scope), Symbol::Else(scope)],
        ),
        TokenKind::Word(Word::Else) => reader.take(
            token,
            &[Effect::AddBranch, Effect::OpenBlock],
            &[
                Symbol::Block(scope),
                Symbol::End,
                Symbol::Make(Effect::IfElse),
            ],
        ),
        TokenKind::Word(Word::End) => reader.take(token, &[Effect::AddBranch, Effect::If], &[]),
        _ => Ok(Turn::Refused),
    }
}

/// Where the block of a loop begins.
pub fn at_do(reader: &mut Reader, scope: Scope, token: &Token) -> Result<Turn, NoMemory>
    ensures { IfOk result (λ turn. Acts (at_do [] scope token.now.kind) (lexeme_of token.now) (state_of reader.old) turn (state_of reader.new)) }
{
    match &token.kind {
        TokenKind::Word(Word::Do) => reader.take(
            token,
            &[Effect::OpenBlock],
            &[Symbol::Block(in_loop(scope)), Symbol::End],
        ),
        _ => Ok(Turn::Refused),
    }
}

/// After a name of a generic `for`.
pub fn at_for_names(reader: &mut Reader, scope: Scope, token: &Token) -> Result<Turn, NoMemory>
    ensures { IfOk result (λ turn. Acts (at_for_names scope token.now.kind) (lexeme_of token.now) (state_of reader.old) turn (state_of reader.new)) }
{
    match &token.kind {
        TokenKind::Sign(Sign::Comma) => reader.take(token, &[], &[Symbol::ForName(scope)]),
        TokenKind::Word(Word::In) => reader.take(
            token,
            &[Effect::OpenExprs],
            &[
                Symbol::Expr(1),
                Symbol::MoreExprs,
                Symbol::Do(scope),
                Symbol::Make(Effect::Generic),
            ],
        ),
        _ => Ok(Turn::Refused),
    }
}

/// After the first name of a `for`.
pub fn at_for_first(reader: &mut Reader, scope: Scope, token: &Token) -> Result<Turn, NoMemory>
    ensures { IfOk result (λ turn. Acts (at_for_first scope token.now.kind) (lexeme_of token.now) (state_of reader.old) turn (state_of reader.new)) }
{
    match &token.kind {
        TokenKind::Sign(Sign::Assign) => reader.take(
            token,
            &[],
            &[
                Symbol::Expr(1),
                Symbol::Comma,
                Symbol::Expr(1),
                Symbol::ForStep(scope),
            ],
        ),
        _ => at_for_names(reader, scope, token),
    }
}

/// After the limit of a numeric `for`.
pub fn at_for_step(reader: &mut Reader, scope: Scope, token: &Token) -> Result<Turn, NoMemory>
    ensures { IfOk result (λ turn. Acts (at_for_step scope token.now.kind) (lexeme_of token.now) (state_of reader.old) turn (state_of reader.new)) }
{
    match &token.kind {
        TokenKind::Sign(Sign::Comma) => reader.take(
            token,
            &[],
            &[
                Symbol::Expr(1),
                Symbol::Do(scope),
                Symbol::Make(Effect::NumericBy),
            ],
        ),
        TokenKind::Word(Word::Do) => reader.take(
            token,
            &[Effect::OpenBlock],
            &[
                Symbol::Block(in_loop(scope)),
                Symbol::End,
                Symbol::Make(Effect::Numeric),
            ],
        ),
        _ => Ok(Turn::Refused),
    }
}

/// After `local`.
pub fn at_local(reader: &mut Reader, scope: Scope, token: &Token) -> Result<Turn, NoMemory>
    ensures { IfOk result (λ turn. Acts (at_local scope token.now.kind) (lexeme_of token.now) (state_of reader.old) turn (state_of reader.new)) }
{
    match &token.kind {
        TokenKind::Word(Word::Function) => reader.take(token, &[], &[Symbol::LocalFunction(scope)]),
        _ => at_name(
            reader,
            &[Effect::FirstName],
            &[Symbol::LocalMore(with_one(scope))],
            token,
        ),
    }
}

/// After a name of a `local` statement.
pub fn at_local_more(reader: &mut Reader, scope: Scope, token: &Token) -> Result<Turn, NoMemory>
    ensures { IfOk result (λ turn. Turned (others (Symbol.LocalMore scope) token.now.kind) (act_of (Symbol.LocalMore scope) token.now.kind) (lexeme_of token.now) (state_of reader.old) turn (state_of reader.new)) }
{
    match &token.kind {
        TokenKind::Sign(Sign::Comma) => reader.take(token, &[], &[Symbol::LocalName(scope)]),
        TokenKind::Sign(Sign::Assign) => reader.take(
            token,
            &[Effect::OpenExprs],
            &[
                Symbol::Expr(1),
                Symbol::MoreExprs,
                Symbol::Make(Effect::Local),
                Symbol::Block(scope),
            ],
        ),
        _ => reader.replace(&[Effect::LocalAlone], &[Symbol::Block(scope)]),
    }
}

/// Takes the first name of a `for`.
pub fn at_for(reader: &mut Reader, scope: Scope, token: &Token) -> Result<Turn, NoMemory>
    ensures { IfOk result (λ turn. Acts (act_of (Symbol.For scope) token.now.kind) (lexeme_of token.now) (state_of reader.old) turn (state_of reader.new)) }
{
    at_name(
        reader,
        &[Effect::FirstName],
        &[Symbol::ForFirst(with_one(scope))],
        token,
    )
}

/// Takes a further name of a `for`.
pub fn at_for_name(reader: &mut Reader, scope: Scope, token: &Token) -> Result<Turn, NoMemory>
    ensures { IfOk result (λ turn. Acts (act_of (Symbol.ForName scope) token.now.kind) (lexeme_of token.now) (state_of reader.old) turn (state_of reader.new)) }
{
    at_name(
        reader,
        &[Effect::NextName],
        &[Symbol::ForMore(with_one(scope))],
        token,
    )
}

/// Takes a further name of a `local` statement.
pub fn at_local_name(reader: &mut Reader, scope: Scope, token: &Token) -> Result<Turn, NoMemory>
    ensures { IfOk result (λ turn. Acts (act_of (Symbol.LocalName scope) token.now.kind) (lexeme_of token.now) (state_of reader.old) turn (state_of reader.new)) }
{
    at_name(
        reader,
        &[Effect::NextName],
        &[Symbol::LocalMore(with_one(scope))],
        token,
    )
}

/// Takes the name of a `local function`.
pub fn at_local_function(reader: &mut Reader, scope: Scope, token: &Token) -> Result<Turn, NoMemory>
    ensures { IfOk result (λ turn. Acts (act_of (Symbol.LocalFunction scope) token.now.kind) (lexeme_of token.now) (state_of reader.old) turn (state_of reader.new)) }
{
    at_name(
        reader,
        &[Effect::Name],
        &[
            Symbol::Parameters,
            Symbol::Make(Effect::LocalFunction),
            Symbol::Block(with_one(scope)),
        ],
        token,
    )
}
