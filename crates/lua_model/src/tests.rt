//! With ample memory no call answers want of it.

use crate::{Refusal, position};
use lua_value::Value;
use sk_types::Bytes;
use std::test::Fail;

#[test]
fn errors_are_spelled(rt: HostRuntime) -> Result<(), Fail> {
    let why = Refusal::Compare(Value::Int(1), Value::Nil);
    let text = why.text(rt.alloc())?;
    assert_eq!(rt;
        text.as_slice(),
        b"attempt to compare number with nil".as_slice()
    );
    let name = Bytes::from_slice(rt.alloc(), b"main")?;
    let place = position(rt.alloc(), &name, 12)?;
    assert_eq!(rt; place.as_slice(), b"main.lua:12: ".as_slice());
    Ok(())
}
