//! With ample memory no call answers want of it.

use crate::{Use, resolve};
use lua_tree::{Block, Body, Chunk, Expr, Stat};
use sk_types::Bytes;
use sqlite_items::Items;
use std::alloc::Global;
use std::test::Fail;

fn name(alloc: Global) -> Result<Bytes, Fail> {
    Ok(Bytes::from_slice(alloc, b"x")?)
}

fn returns_x(alloc: Global) -> Result<Block, Fail> {
    let mut values = Items::new(alloc);
    values.push(Expr::Name(name(alloc)?))?;
    Ok(Block {
        stats: Items::new(alloc),
        result: Some(values),
    })
}

// local x  local function x() return x end  return x
#[test]
fn a_function_sees_itself(rt: HostRuntime) -> Result<(), Fail> {
    let alloc = rt.alloc();
    let mut names = Items::new(alloc);
    names.push(name(alloc)?)?;
    let body = Body {
        names: Items::new(alloc),
        has_dots: false,
        block: returns_x(alloc)?,
    };
    let mut block = returns_x(alloc)?;
    block.stats.push(Stat::Local(names, Items::new(alloc)))?;
    block.stats.push(Stat::LocalFunction(name(alloc)?, body))?;
    let chunk = Chunk { block };
    let scoped = resolve(alloc, &chunk)?;
    assert!(rt; scoped.uses() == [Use::Upvalue(1), Use::Local(1)].as_slice());
    assert!(rt; scoped.captured() == [false, true].as_slice());
    Ok(())
}
