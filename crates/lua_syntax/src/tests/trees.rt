//! The trees of the productions, told by the manual.

use crate::parse;
use lua_tree::{BinaryOp, Block, Chunk, Expr, Operand, Stat};
use std::alloc::Global;
use std::process::Abort;
use std::test::Fail;

fn tree(alloc: Global, source: &[u8]) -> Result<Chunk, Fail> {
    Ok(parse(alloc, source)?)
}

/// Which production a statement is of.
fn stat_name(stat: &Stat) -> &'static str {
    match stat {
        Stat::Assign(_, _) => "assign",
        Stat::Invoke(_) => "invoke",
        Stat::Break => "break",
        Stat::Do(_) => "do",
        Stat::While(_, _) => "while",
        Stat::Repeat(_, _) => "repeat",
        Stat::If(_, _) => "if",
        Stat::Numeric(_) => "numeric",
        Stat::Generic(_) => "generic",
        Stat::Local(_, _) => "local",
        Stat::LocalFunction(_, _) => "local function",
    }
}

/// Which production an expression is of.
fn expr_name(expr: &Expr) -> &'static str {
    match expr {
        Expr::Nil => "nil",
        Expr::False => "false",
        Expr::True => "true",
        Expr::Int(_) => "int",
        Expr::Text(_) => "text",
        Expr::Dots => "dots",
        Expr::Function(_) => "function",
        Expr::Name(_) => "name",
        Expr::Paren(_) => "paren",
        Expr::Table(_) => "table",
        Expr::Suffixed(_, _) => "suffixed",
        Expr::Unary(_, _, _) => "unary",
        Expr::Chain(_, _) => "chain",
    }
}

fn first_stat(block: &Block) -> Option<&Stat> {
    block.stats.as_slice().first()
}

fn first_result(block: &Block) -> Option<&Expr> {
    match &block.result {
        Some(exprs) => exprs.as_slice().first(),
        None => None,
    }
}

#[test]
fn statements(rt: HostRuntime) -> Result<(), Fail> {
    let stats: [(&[u8], &str); 12] = [
        (b"a, b[c] = 1, 2", "assign"),
        (b"function a.b:c(d, ...) end", "assign"),
        (b"a.b:c 'd' {e}(f)", "invoke"),
        (b";; do end", "do"),
        (b"while a do break end", "while"),
        (b"repeat local a until a", "repeat"),
        (b"if a then elseif b then else end", "if"),
        (b"for a = 1, 2 do end", "numeric"),
        (b"for a = 1, 2, 3 do end", "numeric"),
        (b"for a, b in c do end", "generic"),
        (b"local a, b", "local"),
        (b"local function a(b) end", "local function"),
    ];
    for (source, want) in stats {
        let chunk = tree(rt.alloc(), source)?;
        let stat = first_stat(&chunk.block).ok_or("no statement")?;
        assert_eq!(rt; stat_name(stat), want);
    }
    Ok(())
}

#[test]
fn expressions(rt: HostRuntime) -> Result<(), Fail> {
    let exprs: [(&[u8], &str); 14] = [
        (b"return nil", "nil"),
        (b"return false", "false"),
        (b"return true", "true"),
        (b"return 1", "int"),
        (b"return 'a'", "text"),
        (b"return ...;", "dots"),
        (b"return function(a) end", "function"),
        (b"return a", "name"),
        (b"return (a)", "paren"),
        (b"return {a, b = 1, [2] = 3; c.d}", "table"),
        (b"return (a).b[c]:d{}", "suffixed"),
        (b"return not a", "unary"),
        (b"return -a + b", "chain"),
        (b"return -(a + b)", "unary"),
    ];
    for (source, want) in exprs {
        let chunk = tree(rt.alloc(), source)?;
        let expr = first_result(&chunk.block).ok_or("no expression")?;
        assert_eq!(rt; expr_name(expr), want);
    }
    Ok(())
}

/// The operands after the first of a chain.
fn operands(expr: &Expr) -> &[Operand] {
    match expr {
        Expr::Chain(_, operands) => operands.as_slice(),
        _ => &[],
    }
}

/// The operators of a chain, and how many operands its last operand has after the first.
fn check_chain(
    rt: &impl Abort,
    alloc: Global,
    source: &[u8],
    ops: &[BinaryOp],
    inner: usize,
) -> Result<(), Fail> {
    let chunk = tree(alloc, source)?;
    let expr = first_result(&chunk.block).ok_or("no expression")?;
    let list = operands(expr);
    assert_eq!(rt; list.len(), ops.len());
    for (operand, op) in list.iter().zip(ops) {
        assert_eq!(rt; operand.op, *op);
    }
    let last = list.last().ok_or("no operand")?;
    assert_eq!(rt; operands(&last.value).len(), inner);
    Ok(())
}

#[test]
fn precedence(rt: HostRuntime) -> Result<(), Fail> {
    let alloc = rt.alloc();
    check_chain(
        &rt,
        alloc,
        b"return a - b + c",
        &[BinaryOp::Subtract, BinaryOp::Add],
        0,
    )?;
    check_chain(&rt, alloc, b"return a or b and c", &[BinaryOp::Or], 1)?;
    check_chain(&rt, alloc, b"return a and b or c", &[BinaryOp::Or], 0)?;
    check_chain(&rt, alloc, b"return a .. b .. c", &[BinaryOp::Concat], 1)?;
    check_chain(&rt, alloc, b"return a < b | c + d", &[BinaryOp::Less], 1)?;
    check_chain(&rt, alloc, b"return -a * b", &[BinaryOp::Multiply], 0)?;
    Ok(())
}
