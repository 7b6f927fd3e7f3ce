use sk_types::Bytes;
use sqlite_items::{Boxed, Items};

/// An operator with one operand.
#[derive(Clone, Copy, Debug, PartialEq, Eq)]
pub enum UnaryOp {
    /// `not`
    Not,
    /// `#`
    Length,
    /// `-`
    Negate,
    /// `~`
    BitNot,
}

/// An operator with two operands.
#[derive(Clone, Copy, Debug, PartialEq, Eq)]
pub enum BinaryOp {
    /// `or`
    Or,
    /// `and`
    And,
    /// `<`
    Less,
    /// `>`
    Greater,
    /// `<=`
    LessEqual,
    /// `>=`
    GreaterEqual,
    /// `~=`
    NotEqual,
    /// `==`
    Equal,
    /// `|`
    BitOr,
    /// `~`
    BitXor,
    /// `&`
    BitAnd,
    /// `<<`
    ShiftLeft,
    /// `>>`
    ShiftRight,
    /// `..`
    Concat,
    /// `+`
    Add,
    /// `-`
    Subtract,
    /// `*`
    Multiply,
    /// `//`
    Divide,
    /// `%`
    Remainder,
}

/// A whole script. It is the body of a function that takes any number of values (Lua 5.4 manual, section 3.3.2).
#[derive(Drop)]
pub struct Chunk {
    pub block: Block,
}

/// Statements in order, and what the block returns where it ends in `return`.
#[derive(Drop)]
#[cycle(tree)]
pub struct Block {
    pub stats: Items<Stat>,
    pub result: Option<Items<Expr>>,
}

/// A statement (Lua 5.4 manual, section 3.3). An empty one leaves nothing.
#[derive(Drop)]
#[cycle(tree)]
pub enum Stat {
    /// `a, b.c = d, e`. It is also `function b.c(..) .. end`, which assigns the function.
    Assign(Items<Target>, Items<Expr>),
    /// A call as a statement.
    Invoke(Expr),
    Break,
    Do(Block),
    While(Expr, Block),
    Repeat(Block, Expr),
    /// The branches in order, and the block of `else`.
    If(Items<Branch>, Option<Block>),
    Numeric(NumericFor),
    Generic(GenericFor),
    /// `local a, b = c, d`
    Local(Items<Bytes>, Items<Expr>),
    /// `local function f(..) .. end`
    LocalFunction(Bytes, Body),
}

/// What a value is assigned to: a variable, or the element of a table under a key, with the line of the index sign.
#[derive(Drop)]
#[cycle(tree)]
pub enum Target {
    Variable(Bytes),
    Element(Expr, Expr, u32),
}

/// A branch of `if`.
#[derive(Drop)]
#[cycle(tree)]
pub struct Branch {
    pub test: Expr,
    pub block: Block,
}

/// `for name = first, limit, step do block end`
#[derive(Drop)]
#[cycle(tree)]
pub struct NumericFor {
    pub name: Bytes,
    pub first: Expr,
    pub limit: Expr,
    pub step: Option<Expr>,
    pub block: Block,
    /// The line of the word `for`.
    pub line: u32,
}

/// `for names in values do block end`
#[derive(Drop)]
#[cycle(tree)]
pub struct GenericFor {
    pub names: Items<Bytes>,
    pub values: Items<Expr>,
    pub block: Block,
    /// The line of the word `for`.
    pub line: u32,
}

/// An expression (Lua 5.4 manual, section 3.4).
#[derive(Drop)]
#[cycle(tree)]
pub enum Expr {
    Nil,
    False,
    True,
    Int(i64),
    Text(Bytes),
    /// `...`
    Dots,
    Function(Boxed<Body>),
    Name(Bytes),
    /// An expression in parentheses, which is cut to one value.
    Paren(Boxed<Expr>),
    Table(Items<Field>),
    /// A name or an expression in parentheses, and one or more suffixes, the first applied first.
    Suffixed(Boxed<Expr>, Items<Suffix>),
    /// The line is the operator's.
    Unary(UnaryOp, u32, Boxed<Expr>),
    /// An expression and one or more operators of one level of precedence with their right operands, the first applied first. It means the nested form: `a - b + c` is `(a - b) + c`.
    Chain(Boxed<Expr>, Items<Operand>),
}

/// An operator, its line and its right operand.
#[derive(Drop)]
#[cycle(tree)]
pub struct Operand {
    pub op: BinaryOp,
    pub line: u32,
    pub value: Expr,
}

/// What is applied to the value of a prefix.
#[derive(Drop)]
#[cycle(tree)]
pub enum Suffix {
    /// `[key]` or `.name`, with the line of the index sign.
    Index(Expr, u32),
    /// The arguments, with the line of their first token.
    Call(Items<Expr>, u32),
    /// `:name args`, with the lines of the colon and of the first token of the arguments.
    Method(Bytes, u32, Items<Expr>, u32),
}

/// A field of a table constructor.
#[derive(Drop)]
#[cycle(tree)]
pub enum Field {
    /// `[key] = value` or `name = value`
    Key(Expr, Expr),
    /// A value at the next place.
    Item(Expr),
}

/// A function's parameters, whether `...` comes after them, and its block. A method's first parameter is `self`.
#[derive(Drop)]
#[cycle(tree)]
pub struct Body {
    pub names: Items<Bytes>,
    pub has_dots: bool,
    pub block: Block,
}
