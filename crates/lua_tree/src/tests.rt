//! With ample memory no call answers want of it.

use crate::{Token, TokenKind, TokenList, Word};
use std::test::Fail;

#[test]
fn tokens_are_listed(rt: HostRuntime) -> Result<(), Fail> {
    let mut list = TokenList::new(rt.alloc());
    list.push(Token {
        kind: TokenKind::Word(Word::Break),
        line: 1,
        from: 0,
        to: 5,
    })?;
    assert_eq!(rt; list.len(), 1);
    assert!(rt; !list.is_empty());
    assert!(rt; matches!(list.as_slice()[0].kind, TokenKind::Word(Word::Break)));
    Ok(())
}
