//! With ample memory no call answers want of it.

use crate::{Value, Values};
use std::test::Fail;

#[test]
fn lists_grow(rt: HostRuntime) -> Result<(), Fail> {
    let mut list = Values::one(rt.alloc(), Value::Int(7))?;
    list.push(Value::Bool(true))?;
    list.push_slice(&[Value::Text(3), Value::Nil])?;
    assert_eq!(rt; list.len(), 4);
    assert!(rt; list.get(2) == Value::Text(3));
    assert!(rt; list.get(9).is_nil());
    list.clear();
    assert!(rt; list.is_empty());
    Ok(())
}
