use lua_tree::{BinaryOp, UnaryOp};

/// What a prefix is so far: a variable, a call, or an expression in parentheses.
#[derive(Clone, Copy, PartialEq, Eq)]
pub enum Phrase {
    Var,
    Call,
    Enclosed,
}

/// Where a prefix stands: it begins a statement, it is a further target of an assignment, or it is in an expression.
#[derive(Clone, Copy, PartialEq, Eq)]
pub enum Place {
    Statement,
    Target,
    Expression,
}

/// What is in scope at a place: how many locals of its function, whether a loop of its function is around it, and whether its function has `...`.
#[derive(Clone, Copy, PartialEq, Eq)]
pub struct Scope {
    pub locals: u8,
    pub in_loop: bool,
    pub has_dots: bool,
}

/// What is done to the trees that are being made.
#[derive(Clone, Copy, PartialEq, Eq)]
pub enum Effect {
    // what the token gives
    Line,
    Literal,
    Variable,
    Name,
    FirstName,
    NextName,
    // lists that begin
    OpenExprs,
    OpenOperands,
    OpenFields,
    OpenNames,
    OpenSelf,
    OpenBranches,
    OpenBlock,
    // expressions
    AddExpr,
    OnlyExpr,
    Enclose,
    AddDot,
    AddIndex,
    AddCall,
    AddMethod,
    EndSuffixes,
    Unary(UnaryOp),
    AddOperand(BinaryOp),
    EndChain,
    TextKey,
    NameVariable,
    KeyField,
    ItemField,
    Table,
    Body(bool),
    Function,
    // statements
    FirstTarget,
    NextTarget,
    Assign,
    AssignFunction,
    Invoke,
    Break,
    Do,
    While,
    Repeat,
    AddBranch,
    If,
    IfElse,
    Numeric,
    NumericBy,
    Generic,
    LocalAlone,
    Local,
    LocalFunction,
    EndBlock,
    Return,
}

/// What is expected next in a text.
#[derive(Clone, Copy, PartialEq, Eq)]
pub enum Symbol {
    /// Nothing more, and a tree is made.
    Make(Effect),
    // expressions
    /// An expression whose loosest operator has this level or a higher one.
    Expr(u8),
    /// What may follow an operand: an operator of the first level or a higher one, and below the second, which is the operand's own.
    Tail(u8, u8),
    /// More operators of this level with their right operands.
    Chained(u8),
    MoreExprs,
    Suffix(Place, Phrase),
    DotName,
    MethodName,
    MethodArguments,
    Arguments,
    MoreArguments,
    CloseIndex,
    CloseParen,
    Fields,
    MoreFields,
    NameField,
    CloseKey,
    Assign,
    // blocks and statements
    Block(Scope),
    ReturnExprs,
    /// The `;` after a `return`, which ends a block of this scope.
    OptionalSemicolon(Scope),
    Target,
    Comma,
    Then(Scope),
    Else(Scope),
    Do(Scope),
    Until,
    End,
    For(Scope),
    ForName(Scope),
    ForFirst(Scope),
    ForMore(Scope),
    ForStep(Scope),
    Local(Scope),
    LocalName(Scope),
    LocalMore(Scope),
    LocalFunction(Scope),
    // functions
    FunctionName,
    FunctionPath,
    MethodParameters,
    Parameters,
    FirstParameter(u8),
    NextParameter(u8),
    MoreParameters(u8),
    CloseDots(u8),
}
