//! Texts whose tokens and faults the manual tells, read with ample memory.

use crate::{LexError, line_ends, tokens};
use lua_tree::TokenKind;
use sk_types::{SyntaxFault, SyntaxKind};
use std::alloc::Global;
use std::process::Abort;
use std::test::Fail;

fn check_fault(rt: &impl Abort, alloc: Global, source: &[u8], line: u32, kind: SyntaxKind) {
    let fault = LexError::Fault(SyntaxFault { line, kind });
    assert_eq!(rt; tokens(alloc, source).err(), Some(fault));
}

#[test]
fn faults_have_their_lines(rt: HostRuntime) -> Result<(), Fail> {
    let alloc = rt.alloc();
    check_fault(&rt, alloc, b"x = 3.5", 1, SyntaxKind::BadNumeral);
    check_fault(&rt, alloc, b"\"a", 1, SyntaxKind::OpenString);
    check_fault(&rt, alloc, b"a\r\nb \n\r$", 3, SyntaxKind::BadByte);
    check_fault(&rt, alloc, b"--[[ a\n", 1, SyntaxKind::OpenLong);
    check_fault(&rt, alloc, b"\n'\\q'", 2, SyntaxKind::BadEscape);
    check_fault(
        &rt,
        alloc,
        b"9223372036854775808",
        1,
        SyntaxKind::BadNumeral,
    );
    Ok(())
}

#[test]
fn no_tokens_in_an_empty_text(rt: HostRuntime) -> Result<(), Fail> {
    assert!(rt; tokens(rt.alloc(), b"")?.is_empty());
    assert!(rt; tokens(rt.alloc(), b"#! lua\n -- a\n --[==[ b ]] ]==]")?.is_empty());
    assert_eq!(rt; line_ends(b"a\r\nb\n\rc\r\r"), 4);
    Ok(())
}

#[test]
fn strings_stand_for_bytes(rt: HostRuntime) -> Result<(), Fail> {
    let source = b"'a\\n\\x41\\u{20AC}\\z  \n b\\065' [[\nc]]";
    let list = tokens(rt.alloc(), source)?;
    assert_eq!(rt; list.len(), 2);
    let TokenKind::Text(short) = &list.as_slice()[0].kind else {
        return Err(Fail::from("no string"));
    };
    assert_eq!(rt; short.as_slice(), b"a\nA\xe2\x82\xacbA".as_slice());
    assert_eq!(rt; list.as_slice()[1].line, 2);
    Ok(())
}
