ghost use Rattle.std.specs.Prelude.{◌≡◌, [], ◌∷◌, ◌++◌, ◌↔◌, length, IsTrue, OnOk, OnErr};

use sk_types::{Bytes, NoMemory};
use std::alloc::Global;
use std::marker::Model;

/// A reserved word (Lua 5.4 manual, section 3.1).
#[derive(Clone, Copy, Debug, PartialEq, Eq)]
pub enum Word {
    And,
    Break,
    Do,
    Else,
    Elseif,
    End,
    False,
    For,
    Function,
    Goto,
    If,
    In,
    Local,
    Nil,
    Not,
    Or,
    Repeat,
    Return,
    Then,
    True,
    Until,
    While,
}

/// A sign that is no word (Lua 5.4 manual, section 3.1).
#[derive(Clone, Copy, Debug, PartialEq, Eq)]
pub enum Sign {
    /// `+`
    Plus,
    /// `-`
    Minus,
    /// `*`
    Star,
    /// `/`
    Slash,
    /// `//`
    DoubleSlash,
    /// `%`
    Percent,
    /// `^`
    Caret,
    /// `#`
    Hash,
    /// `&`
    Ampersand,
    /// `~`
    Tilde,
    /// `|`
    Bar,
    /// `<<`
    ShiftLeft,
    /// `>>`
    ShiftRight,
    /// `==`
    Equal,
    /// `~=`
    NotEqual,
    /// `<=`
    LessEqual,
    /// `>=`
    GreaterEqual,
    /// `<`
    Less,
    /// `>`
    Greater,
    /// `=`
    Assign,
    /// `(`
    OpenParen,
    /// `)`
    CloseParen,
    /// `{`
    OpenBrace,
    /// `}`
    CloseBrace,
    /// `[`
    OpenBracket,
    /// `]`
    CloseBracket,
    /// `::`
    DoubleColon,
    /// `;`
    Semicolon,
    /// `:`
    Colon,
    /// `,`
    Comma,
    /// `.`
    Dot,
    /// `..`
    Concat,
    /// `...`
    Dots,
}

/// What a token is. A name has its text, and a string the bytes that it stands for.
#[derive(Debug, Drop)]
pub enum TokenKind {
    Name(Bytes),
    Int(i64),
    Text(Bytes),
    Word(Word),
    Sign(Sign),
}

/// A token of a source text.
#[derive(Debug, Drop)]
pub struct Token {
    pub kind: TokenKind,
    /// The line where it begins, from 1.
    pub line: u32,
    /// The place of its first byte.
    pub from: u32,
    /// The place after its last byte.
    pub to: u32,
}

/// The tokens of a text in order, which contracts see as their list.
#[derive(Debug, Drop)]
pub struct TokenList {
    tokens: Vec<Token>,
}

impl Model for TokenList {
    ghost use Rattle.std.specs.Prelude.{List};
    ghost use Rattle.lua_tree.specs.declared.token.Token.{Token};

    ghost Value = { List Token };

    ghost view = { λ list. list.tokens.items };
}

impl TokenList {
    pub fn new(alloc: Global) -> TokenList
        ensures { result ≡ [] }
    {
        TokenList {
            tokens: Vec::new(alloc),
        }
    }

    pub fn as_slice(&self) -> &[Token]
        ensures { result.now ≡ self.now }
    {
        self.tokens.as_slice()
    }

    pub fn len(&self) -> usize
        ensures { result ≡ length self.now }
    {
        self.tokens.len()
    }

    pub fn is_empty(&self) -> bool
        ensures { IsTrue result ↔ (self.now ≡ []) }
    {
        self.tokens.is_empty()
    }

    pub fn push(&mut self, token: Token) -> Result<(), NoMemory>
        ensures ok { OnOk result (self.new ≡ self.old ++ token ∷ []) }
        ensures err { OnErr result (self.new ≡ self.old) }
    {
        self.tokens.push(token)?;
        Ok(())
    }
}
