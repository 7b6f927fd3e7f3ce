//! Operators and their precedence.

ghost use Rattle.std.specs.Prelude.{◌≡◌, ◌≤◌, ◌+◌};
ghost use Rattle.lua_grammar.specs.Lexeme.{groups_left, level, operator, right_least, unary_operator};

use lua_tree::{BinaryOp, Sign, TokenKind, UnaryOp, Word};

/// The operator with two operands that a token is.
pub fn operator(kind: &TokenKind) -> Option<BinaryOp>
    ensures { result ≡ operator kind.now }
{
    match kind {
        TokenKind::Word(Word::Or) => Some(BinaryOp::Or),
        TokenKind::Word(Word::And) => Some(BinaryOp::And),
        TokenKind::Sign(sign) => sign_operator(*sign),
        _ => None,
    }
}

fn sign_operator(sign: Sign) -> Option<BinaryOp>
    ensures { result ≡ operator (TokenKind.Sign sign) }
{
    match sign {
        Sign::Less => Some(BinaryOp::Less),
        Sign::Greater => Some(BinaryOp::Greater),
        Sign::LessEqual => Some(BinaryOp::LessEqual),
        Sign::GreaterEqual => Some(BinaryOp::GreaterEqual),
        Sign::NotEqual => Some(BinaryOp::NotEqual),
        Sign::Equal => Some(BinaryOp::Equal),
        Sign::Bar => Some(BinaryOp::BitOr),
        Sign::Tilde => Some(BinaryOp::BitXor),
        Sign::Ampersand => Some(BinaryOp::BitAnd),
        Sign::ShiftLeft => Some(BinaryOp::ShiftLeft),
        Sign::ShiftRight => Some(BinaryOp::ShiftRight),
        Sign::Concat => Some(BinaryOp::Concat),
        Sign::Plus => Some(BinaryOp::Add),
        Sign::Minus => Some(BinaryOp::Subtract),
        Sign::Star => Some(BinaryOp::Multiply),
        Sign::DoubleSlash => Some(BinaryOp::Divide),
        Sign::Percent => Some(BinaryOp::Remainder),
        _ => None,
    }
}

/// The operator with one operand that a token is.
pub fn unary_operator(kind: &TokenKind) -> Option<UnaryOp>
    ensures { result ≡ unary_operator kind.now }
{
    match kind {
        TokenKind::Word(Word::Not) => Some(UnaryOp::Not),
        TokenKind::Sign(Sign::Hash) => Some(UnaryOp::Length),
        TokenKind::Sign(Sign::Minus) => Some(UnaryOp::Negate),
        TokenKind::Sign(Sign::Tilde) => Some(UnaryOp::BitNot),
        _ => None,
    }
}

/// How tightly an operator binds (Lua 5.4 manual, section 3.4.8).
pub fn level(op: BinaryOp) -> u8
    ensures value { result ≡ level op }
    ensures small { result ≤ 10 }
{
    match op {
        BinaryOp::Or => 1,
        BinaryOp::And => 2,
        BinaryOp::Less
        | BinaryOp::Greater
        | BinaryOp::LessEqual
        | BinaryOp::GreaterEqual
        | BinaryOp::NotEqual
        | BinaryOp::Equal => 3,
        BinaryOp::BitOr => 4,
        BinaryOp::BitXor => 5,
        BinaryOp::BitAnd => 6,
        BinaryOp::ShiftLeft | BinaryOp::ShiftRight => 7,
        BinaryOp::Concat => 8,
        BinaryOp::Add | BinaryOp::Subtract => 9,
        BinaryOp::Multiply | BinaryOp::Divide | BinaryOp::Remainder => 10,
    }
}

/// Whether an operator groups to the left.
pub fn groups_left(op: BinaryOp) -> bool
    ensures { result ≡ groups_left op }
{
    !matches!(op, BinaryOp::Concat)
}

/// The least level of a right operand.
pub fn right_least(op: BinaryOp) -> u8
    ensures { result ≡ right_least op }
{
    match op {
        BinaryOp::Or => 2,
        BinaryOp::And => 3,
        BinaryOp::Less
        | BinaryOp::Greater
        | BinaryOp::LessEqual
        | BinaryOp::GreaterEqual
        | BinaryOp::NotEqual
        | BinaryOp::Equal => 4,
        BinaryOp::BitOr => 5,
        BinaryOp::BitXor => 6,
        BinaryOp::BitAnd => 7,
        BinaryOp::ShiftLeft | BinaryOp::ShiftRight | BinaryOp::Concat => 8,
        BinaryOp::Add | BinaryOp::Subtract => 10,
        BinaryOp::Multiply | BinaryOp::Divide | BinaryOp::Remainder => 11,
    }
}
