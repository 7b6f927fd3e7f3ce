//! Small tables, with ample memory. The places are those of Lua 5.4.

use crate::LuaTable;
use lua_value::Value;
use std::alloc::Global;
use std::test::Fail;

/// A table with these integers as keys and values.
fn table(alloc: Global, keys: &[i64]) -> Result<LuaTable, Fail> {
    let mut table = LuaTable::new(alloc);
    for key in keys {
        table.set(Value::Int(*key), Value::Int(*key))?;
    }
    Ok(table)
}

#[test]
fn a_cleared_pair_keeps_its_place(rt: HostRuntime) -> Result<(), Fail> {
    let mut table = table(rt.alloc(), &[1, 2, 4])?;
    table.set(Value::Int(2), Value::Nil)?;
    table.set(Value::Int(9), Value::Nil)?;
    let four = Some((Value::Int(4), Value::Int(4)));
    assert!(rt; table.next(&Value::Int(1)) == Ok(four));
    assert!(rt; table.next(&Value::Int(2)) == Ok(four));
    assert!(rt; table.next(&Value::Int(4)) == Ok(None));
    assert!(rt; table.next(&Value::Int(9)).is_err());
    Ok(())
}

#[test]
fn the_least_border_is_told(rt: HostRuntime) -> Result<(), Fail> {
    assert!(rt; table(rt.alloc(), &[])?.border() == 0);
    assert!(rt; table(rt.alloc(), &[2, 3])?.border() == 0);
    assert!(rt; table(rt.alloc(), &[3, 1, 2])?.border() == 3);
    Ok(())
}
