//! Where a statement begins.

ghost use Rattle.std.specs.Prelude.{◌≡◌, [], ◌∷◌, IfOk};
ghost use Rattle.lua_grammar.specs.Lexeme.{lexeme_of};
ghost use Rattle.lua_grammar.specs.Table.{at_block};
ghost use Rattle.lua_parser.specs.Turns.{Acts, Takes, state_of};

use crate::reader::{Reader, Turn};
use crate::table::stat::in_loop;
use lua_grammar::{Effect, Phrase, Place, Scope, Symbol};
use lua_tree::{Sign, Token, TokenKind, Word};
use sk_types::NoMemory;

/// Begins a call or an assignment with a name.
fn take_name(reader: &mut Reader, scope: Scope, token: &Token) -> Result<Turn, NoMemory>
    ensures { IfOk result (λ turn. Takes (Effect.Variable ∷ []) (Symbol.Suffix Place.Statement Phrase.Var ∷ Symbol.Block scope ∷ []) (lexeme_of token.now) (state_of reader.old) turn (state_of reader.new)) }
{
    reader.take(
        token,
        &[Effect::Variable],
        &[
            Symbol::Suffix(Place::Statement, Phrase::Var),
            Symbol::Block(scope),
        ],
    )
}

/// Begins a call or an assignment with a parenthesis.
fn open_paren(reader: &mut Reader, scope: Scope, token: &Token) -> Result<Turn, NoMemory>
    ensures { IfOk result (λ turn. Acts (at_block scope (TokenKind.Sign Sign.OpenParen)) (lexeme_of token.now) (state_of reader.old) turn (state_of reader.new)) }
{
    reader.take(
        token,
        &[],
        &[
            Symbol::Expr(1),
            Symbol::CloseParen,
            Symbol::Suffix(Place::Statement, Phrase::Enclosed),
            Symbol::Block(scope),
        ],
    )
}

/// Begins a block.
fn open_do(reader: &mut Reader, scope: Scope, token: &Token) -> Result<Turn, NoMemory>
    ensures { IfOk result (λ turn. Acts (at_block scope (TokenKind.Word Word.Do)) (lexeme_of token.now) (state_of reader.old) turn (state_of reader.new)) }
{
    reader.take(
        token,
        &[Effect::OpenBlock],
        &[
            Symbol::Block(scope),
            Symbol::End,
            Symbol::Make(Effect::Do),
            Symbol::Block(scope),
        ],
    )
}

/// Begins a `while` loop.
fn open_while(reader: &mut Reader, scope: Scope, token: &Token) -> Result<Turn, NoMemory>
    ensures { IfOk result (λ turn. Acts (at_block scope (TokenKind.Word Word.While)) (lexeme_of token.now) (state_of reader.old) turn (state_of reader.new)) }
{
    reader.take(
        token,
        &[],
        &[
            Symbol::Expr(1),
            Symbol::Do(scope),
            Symbol::Make(Effect::While),
            Symbol::Block(scope),
        ],
    )
}

/// Begins a `repeat` loop.
fn open_repeat(reader: &mut Reader, scope: Scope, token: &Token) -> Result<Turn, NoMemory>
    ensures { IfOk result (λ turn. Acts (at_block scope (TokenKind.Word Word.Repeat)) (lexeme_of token.now) (state_of reader.old) turn (state_of reader.new)) }
{
    reader.take(
        token,
        &[Effect::OpenBlock],
        &[
            Symbol::Block(in_loop(scope)),
            Symbol::Until,
            Symbol::Expr(1),
            Symbol::Make(Effect::Repeat),
            Symbol::Block(scope),
        ],
    )
}

/// Begins an `if`.
fn open_if(reader: &mut Reader, scope: Scope, token: &Token) -> Result<Turn, NoMemory>
    ensures { IfOk result (λ turn. Acts (at_block scope (TokenKind.Word Word.If)) (lexeme_of token.now) (state_of reader.old) turn (state_of reader.new)) }
{
    reader.take(
        token,
        &[Effect::OpenBranches],
        &[
            Symbol::Expr(1),
            Symbol::Then(scope),
            Symbol::Else(scope),
            Symbol::Block(scope),
        ],
    )
}

/// Begins a `for` loop.
fn open_for(reader: &mut Reader, scope: Scope, token: &Token) -> Result<Turn, NoMemory>
    ensures { IfOk result (λ turn. Acts (at_block scope (TokenKind.Word Word.For)) (lexeme_of token.now) (state_of reader.old) turn (state_of reader.new)) }
{
    reader.take(
        token,
        &[Effect::Line],
        &[Symbol::For(scope), Symbol::Block(scope)],
    )
}

/// Begins the assignment of a function.
fn open_function(reader: &mut Reader, scope: Scope, token: &Token) -> Result<Turn, NoMemory>
    ensures { IfOk result (λ turn. Acts (at_block scope (TokenKind.Word Word.Function)) (lexeme_of token.now) (state_of reader.old) turn (state_of reader.new)) }
{
    reader.take(
        token,
        &[],
        &[
            Symbol::FunctionName,
            Symbol::Make(Effect::AssignFunction),
            Symbol::Block(scope),
        ],
    )
}

/// Begins a `return`.
fn open_return(reader: &mut Reader, scope: Scope, token: &Token) -> Result<Turn, NoMemory>
    ensures { IfOk result (λ turn. Acts (at_block scope (TokenKind.Word Word.Return)) (lexeme_of token.now) (state_of reader.old) turn (state_of reader.new)) }
{
    reader.take(
        token,
        &[Effect::OpenExprs],
        &[
            Symbol::ReturnExprs,
            Symbol::OptionalSemicolon(scope),
            Symbol::Make(Effect::Return),
        ],
    )
}

/// Where a statement may begin.
pub fn at_block(reader: &mut Reader, scope: Scope, token: &Token) -> Result<Turn, NoMemory>
    ensures { IfOk result (λ turn. Acts (at_block scope token.now.kind) (lexeme_of token.now) (state_of reader.old) turn (state_of reader.new)) }
{
    match &token.kind {
        TokenKind::Sign(Sign::Semicolon) => reader.take(token, &[], &[Symbol::Block(scope)]),
        TokenKind::Name(_) => take_name(reader, scope, token),
        TokenKind::Sign(Sign::OpenParen) => open_paren(reader, scope, token),
        TokenKind::Word(Word::Break) => reader.take(
            token,
            &[Effect::Break],
            &[Symbol::Block(scope)],
        ),
        TokenKind::Word(Word::Do) => open_do(reader, scope, token),
        TokenKind::Word(Word::While) => open_while(reader, scope, token),
        TokenKind::Word(Word::Repeat) => open_repeat(reader, scope, token),
        TokenKind::Word(Word::If) => open_if(reader, scope, token),
        TokenKind::Word(Word::For) => open_for(reader, scope, token),
        TokenKind::Word(Word::Function) => open_function(reader, scope, token),
        TokenKind::Word(Word::Local) => reader.take(token, &[], &[Symbol::Local(scope)]),
        TokenKind::Word(Word::Return) => open_return(reader, scope, token),
        _ => reader.leave(&[Effect::EndBlock]),
    }
}
