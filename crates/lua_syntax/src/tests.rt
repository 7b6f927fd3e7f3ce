//! Texts whose faults the manual's grammar tells, and texts that read, with ample memory.

mod trees;

use crate::{ParseError, parse};
use sk_types::{SyntaxFault, SyntaxKind};
use std::alloc::Global;
use std::process::Abort;
use std::test::Fail;

fn check_fault(rt: &impl Abort, alloc: Global, source: &[u8], line: u32, kind: SyntaxKind) {
    let fault = ParseError::Fault(SyntaxFault { line, kind });
    assert_eq!(rt; parse(alloc, source).err(), Some(fault));
}

#[test]
fn faults_have_their_lines(rt: HostRuntime) -> Result<(), Fail> {
    let cases: [(&[u8], u32, SyntaxKind); 14] = [
        (b"x = = 1", 1, SyntaxKind::Unexpected),
        (b"x =\n", 2, SyntaxKind::Unexpected),
        (b"\nx = $", 2, SyntaxKind::BadByte),
        (b"x = = 'a", 1, SyntaxKind::OpenString),
        (b"a.b(c) = 1", 1, SyntaxKind::Unexpected),
        (b"return 1\n/ 2", 2, SyntaxKind::Float),
        (b"break", 1, SyntaxKind::Break),
        (
            b"while x do\nfunction f() break end end",
            2,
            SyntaxKind::Break,
        ),
        (b"function f()\n return ... end", 2, SyntaxKind::Vararg),
        (b"local x <const> = 1", 1, SyntaxKind::Unsupported),
        (b"\n\ngoto x", 3, SyntaxKind::Unsupported),
        (b"::x::", 1, SyntaxKind::Unsupported),
        (b"return _ENV", 1, SyntaxKind::Unsupported),
        (b"do f()", 1, SyntaxKind::Unexpected),
    ];
    for (source, line, kind) in cases {
        check_fault(&rt, rt.alloc(), source, line, kind);
    }
    Ok(())
}

/// A text of so many pieces, between a beginning and an end.
fn repeated(
    alloc: Global,
    start: &[u8],
    piece: &[u8],
    count: u32,
    end: &[u8],
) -> Result<Vec<u8>, Fail> {
    let mut text = Vec::from_slice(alloc, start)?;
    for _ in 0..count {
        text.extend_from_slice(piece)?;
    }
    text.extend_from_slice(end)?;
    Ok(text)
}

#[test]
fn bounds_are_kept(rt: HostRuntime) -> Result<(), Fail> {
    let alloc = rt.alloc();
    let nested = repeated(alloc, b"return ", b"(", 200, b"1")?;
    let nested = repeated(alloc, &nested, b")", 200, b"\n")?;
    assert!(rt; parse(alloc, &nested).is_ok());
    let flat = repeated(alloc, b"return x", b"(\n1)", 200, b"")?;
    assert!(rt; parse(alloc, &flat).is_ok());
    let calls = repeated(alloc, b"return x", b"(\nx", 201, b"")?;
    check_fault(&rt, alloc, &calls, 201, SyntaxKind::Nesting);
    let deeper = repeated(alloc, b"return ", b"(", 201, b"1")?;
    check_fault(&rt, alloc, &deeper, 1, SyntaxKind::Nesting);
    let locals = repeated(alloc, b"", b"local x\n", 200, b"return x")?;
    assert!(rt; parse(alloc, &locals).is_ok());
    let more = repeated(alloc, b"", b"local x\n", 201, b"return x")?;
    check_fault(&rt, alloc, &more, 201, SyntaxKind::Locals);
    Ok(())
}

#[test]
fn long_texts_read(rt: HostRuntime) -> Result<(), Fail> {
    let alloc = rt.alloc();
    let sum = repeated(alloc, b"return 1", b"+1", 100_000, b"\n")?;
    assert!(rt; parse(alloc, &sum).is_ok());
    let calls = repeated(alloc, b"f", b"()", 100_000, b"\n")?;
    assert!(rt; parse(alloc, &calls).is_ok());
    let statements = repeated(alloc, b"", b"x = 1;", 10_000, b"\n")?;
    assert!(rt; parse(alloc, &statements).is_ok());
    Ok(())
}
