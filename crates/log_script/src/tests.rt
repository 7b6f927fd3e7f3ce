use crate::{LogError, read_log};
use sk_types::{SyntaxFault, SyntaxKind};
use std::test::Fail;

#[test]
fn two_texts_are_read(rt: HostRuntime) -> Result<(), Fail> {
    let source = b"local skynet = require \"skynet\"\nskynet.error(\"a b\")\nskynet.error(\"\")\n";
    let mut texts = read_log(rt.alloc(), source)?.into_texts();
    let first = texts.pop_front().ok_or("no text")?;
    let second = texts.pop_front().ok_or("one text")?;
    assert_eq!(rt; first.as_slice(), b"a b".as_slice());
    assert!(rt; second.is_empty());
    assert!(rt; texts.is_empty());
    Ok(())
}

#[test]
fn other_forms_are_refused(rt: HostRuntime) -> Result<(), Fail> {
    let not_built = LogError::Fault(SyntaxFault {
        line: 1,
        kind: SyntaxKind::NotBuilt,
    });
    assert_eq!(rt; read_log(rt.alloc(), b"x = = 1").err(), Some(not_built));
    Ok(())
}
