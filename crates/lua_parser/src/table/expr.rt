//! Expressions: operands and operators.

ghost use Rattle.std.specs.Prelude.{◌≡◌, [], ◌∷◌, IfOk};
ghost use Rattle.lua_grammar.specs.Lexeme.{begins_expr, lexeme_of, operator};
ghost use Rattle.lua_grammar.specs.Table.{act_of, at_chained, at_expr, at_more_exprs, at_tail, at_unary, others};
ghost use Rattle.lua_parser.specs.Turns.{Acts, Takes, Turned, state_of};

use crate::reader::{Reader, Turn};
use crate::table::operator::{groups_left, level, operator, right_least, unary_operator};
use lua_grammar::{Effect, Phrase, Place, Symbol};
use lua_tree::{Sign, Token, TokenKind, UnaryOp, Word};
use sk_types::NoMemory;

/// Takes a constant, or `...`.
fn take_literal(reader: &mut Reader, least: u8, token: &Token) -> Result<Turn, NoMemory>
    ensures { IfOk result (λ turn. Takes (Effect.Literal ∷ []) (Symbol.Tail least 12 ∷ []) (lexeme_of token.now) (state_of reader.old) turn (state_of reader.new)) }
{
    reader.take(token, &[Effect::Literal], &[Symbol::Tail(least, 12)])
}

/// Where an operator with one operand may stand.
fn at_unary(
    reader: &mut Reader,
    least: u8,
    op: Option<UnaryOp>,
    token: &Token,
) -> Result<Turn, NoMemory>
    ensures { IfOk result (λ turn. Acts (at_unary least op) (lexeme_of token.now) (state_of reader.old) turn (state_of reader.new)) }
{
    match op {
        Some(op) => reader.take(
            token,
            &[Effect::Line],
            &[
                Symbol::Expr(11),
                Symbol::Make(Effect::Unary(op)),
                Symbol::Tail(least, 11),
            ],
        ),
        None => Ok(Turn::Refused),
    }
}

/// Takes a name, after which suffixes may come.
fn take_variable(reader: &mut Reader, least: u8, token: &Token) -> Result<Turn, NoMemory>
    ensures { IfOk result (λ turn. Takes (Effect.Variable ∷ []) (Symbol.Suffix Place.Expression Phrase.Var ∷ Symbol.Tail least 12 ∷ []) (lexeme_of token.now) (state_of reader.old) turn (state_of reader.new)) }
{
    reader.take(
        token,
        &[Effect::Variable],
        &[
            Symbol::Suffix(Place::Expression, Phrase::Var),
            Symbol::Tail(least, 12),
        ],
    )
}

/// Begins an expression in parentheses.
fn open_paren(reader: &mut Reader, least: u8, token: &Token) -> Result<Turn, NoMemory>
    ensures { IfOk result (λ turn. Acts (at_expr least (TokenKind.Sign Sign.OpenParen)) (lexeme_of token.now) (state_of reader.old) turn (state_of reader.new)) }
{
    reader.take(
        token,
        &[],
        &[
            Symbol::Expr(1),
            Symbol::CloseParen,
            Symbol::Suffix(Place::Expression, Phrase::Enclosed),
            Symbol::Tail(least, 12),
        ],
    )
}

/// Begins a function.
fn open_function(reader: &mut Reader, least: u8, token: &Token) -> Result<Turn, NoMemory>
    ensures { IfOk result (λ turn. Acts (at_expr least (TokenKind.Word Word.Function)) (lexeme_of token.now) (state_of reader.old) turn (state_of reader.new)) }
{
    reader.take(
        token,
        &[],
        &[
            Symbol::Parameters,
            Symbol::Make(Effect::Function),
            Symbol::Tail(least, 12),
        ],
    )
}

/// Begins a table constructor.
fn open_table(reader: &mut Reader, least: u8, token: &Token) -> Result<Turn, NoMemory>
    ensures { IfOk result (λ turn. Acts (at_expr least (TokenKind.Sign Sign.OpenBrace)) (lexeme_of token.now) (state_of reader.old) turn (state_of reader.new)) }
{
    reader.take(
        token,
        &[Effect::OpenFields],
        &[
            Symbol::Fields,
            Symbol::Make(Effect::Table),
            Symbol::Tail(least, 12),
        ],
    )
}

/// Where an expression begins whose operators have this level or a higher one.
pub fn at_expr(reader: &mut Reader, least: u8, token: &Token) -> Result<Turn, NoMemory>
    ensures { IfOk result (λ turn. Acts (at_expr least token.now.kind) (lexeme_of token.now) (state_of reader.old) turn (state_of reader.new)) }
{
    match &token.kind {
        TokenKind::Int(_) => take_literal(reader, least, token),
        TokenKind::Text(_) => take_literal(reader, least, token),
        TokenKind::Name(_) => take_variable(reader, least, token),
        TokenKind::Word(Word::Nil) => take_literal(reader, least, token),
        TokenKind::Word(Word::False) => take_literal(reader, least, token),
        TokenKind::Word(Word::True) => take_literal(reader, least, token),
        TokenKind::Word(Word::Function) => open_function(reader, least, token),
        TokenKind::Sign(Sign::Dots) => take_literal(reader, least, token),
        TokenKind::Sign(Sign::OpenParen) => open_paren(reader, least, token),
        TokenKind::Sign(Sign::OpenBrace) => open_table(reader, least, token),
        _ => at_unary(reader, least, unary_operator(&token.kind), token),
    }
}

/// After an operand, where an operator may go on with it.
pub fn at_tail(reader: &mut Reader, least: u8, most: u8, token: &Token) -> Result<Turn, NoMemory>
    ensures { IfOk result (λ turn. Acts (at_tail least most (operator token.now.kind)) (lexeme_of token.now) (state_of reader.old) turn (state_of reader.new)) }
{
    let Some(op) = operator(&token.kind) else {
        return reader.leave(&[]);
    };
    if level(op) < least {
        return reader.leave(&[]);
    }
    if level(op) >= most {
        return Ok(Turn::Refused);
    }
    reader.take(
        token,
        &[Effect::OpenOperands, Effect::Line],
        &[
            Symbol::Expr(right_least(op)),
            Symbol::Make(Effect::AddOperand(op)),
            Symbol::Chained(level(op)),
            Symbol::Tail(least, level(op)),
        ],
    )
}

/// After a right operand, where an operator of the same level may go on with the chain.
pub fn at_chained(reader: &mut Reader, chain: u8, token: &Token) -> Result<Turn, NoMemory>
    ensures { IfOk result (λ turn. Acts (at_chained chain (operator token.now.kind)) (lexeme_of token.now) (state_of reader.old) turn (state_of reader.new)) }
{
    let Some(op) = operator(&token.kind) else {
        return reader.leave(&[Effect::EndChain]);
    };
    if level(op) != chain {
        return reader.leave(&[Effect::EndChain]);
    }
    if !groups_left(op) {
        return Ok(Turn::Refused);
    }
    reader.take(
        token,
        &[Effect::Line],
        &[
            Symbol::Expr(right_least(op)),
            Symbol::Make(Effect::AddOperand(op)),
            Symbol::Chained(level(op)),
        ],
    )
}

/// After an expression of a list.
pub fn at_more_exprs(reader: &mut Reader, token: &Token) -> Result<Turn, NoMemory>
    ensures { IfOk result (λ turn. Acts (at_more_exprs token.now.kind) (lexeme_of token.now) (state_of reader.old) turn (state_of reader.new)) }
{
    match &token.kind {
        TokenKind::Sign(Sign::Comma) => reader.take(
            token,
            &[Effect::AddExpr],
            &[Symbol::Expr(1), Symbol::MoreExprs],
        ),
        _ => reader.leave(&[Effect::AddExpr]),
    }
}

/// Whether an expression begins with a token.
fn begins_expr(kind: &TokenKind) -> bool
    ensures { result ≡ begins_expr kind.now }
{
    match kind {
        TokenKind::Int(_) | TokenKind::Text(_) | TokenKind::Name(_) => true,
        TokenKind::Word(word) => matches!(
            word,
            Word::Nil | Word::False | Word::True | Word::Function | Word::Not
        ),
        TokenKind::Sign(sign) => matches!(
            sign,
            Sign::Dots | Sign::OpenParen | Sign::OpenBrace | Sign::Hash | Sign::Minus | Sign::Tilde
        ),
    }
}

/// After `return`.
pub fn at_return_exprs(reader: &mut Reader, token: &Token) -> Result<Turn, NoMemory>
    ensures { IfOk result (λ turn. Turned (others Symbol.ReturnExprs token.now.kind) (act_of Symbol.ReturnExprs token.now.kind) (lexeme_of token.now) (state_of reader.old) turn (state_of reader.new)) }
{
    if begins_expr(&token.kind) {
        reader.replace(&[], &[Symbol::Expr(1), Symbol::MoreExprs])
    } else {
        reader.leave(&[])
    }
}
