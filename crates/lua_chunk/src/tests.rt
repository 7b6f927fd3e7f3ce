//! With ample memory no call answers want of it. What chunks do is tried by `lua_cases`.

use crate::{LoadError, Stopped, run};
use lua_code::{Code, Function, Op, Shape};
use lua_machine::{GoError, Machine, Stop};
use lua_value::{Value, Values};
use sk_types::{Bytes, SyntaxKind};
use std::alloc::Global;
use std::test::Fail;

fn ran(alloc: Global, source: &[u8], values: &[Value]) -> Result<Result<Stopped, LoadError>, Fail> {
    let name = Bytes::from_slice(alloc, b"m")?;
    let values = Values::from_slice(alloc, values)?;
    Ok(run(alloc, source, name, 100, 100, values))
}

fn returned(run: &Stopped) -> &[Value] {
    match &run.stop {
        Stop::Return(values) => values.as_slice(),
        _ => &[],
    }
}

#[test]
fn a_chunk_takes_values(rt: HostRuntime) -> Result<(), Fail> {
    let values = [Value::Int(7), Value::Int(8)];
    let run = ran(rt.alloc(), b"local a, b, c = ... return c, a + b", &values)??;
    assert!(rt; returned(&run) == [Value::Nil, Value::Int(15)].as_slice());
    Ok(())
}

#[test]
fn a_fault_is_told(rt: HostRuntime) -> Result<(), Fail> {
    let Err(LoadError::Fault(fault)) = ran(rt.alloc(), b"return (", &[])? else {
        return Err(Fail::from("no fault"));
    };
    assert!(rt; fault.kind == SyntaxKind::Unexpected);
    Ok(())
}

/// A function of these operations.
fn function(alloc: Global, ops: &[Op]) -> Result<Function, Fail> {
    let shape = Shape {
        params: 0,
        pay: 1,
        has_dots: true,
        slots: 8,
        cells: 0,
    };
    let mut function = Function::new(alloc, shape);
    for op in ops {
        function.add(*op, 1)?;
    }
    Ok(function)
}

/// A machine for code that serves no chunk, where it is valid.
fn stuck(alloc: Global) -> Result<Machine, Fail> {
    let mut code = Code::new(alloc);
    code.add(function(alloc, &[Op::Append, Op::Start, Op::ReturnList])?)?;
    let ops = [Op::Append, Op::Return { from: 0, count: 0 }];
    code.add(function(alloc, &ops)?)?;
    if !lua_code::valid(&code) {
        return Err(Fail::from("the code is not valid"));
    }
    let machine = Machine::new(alloc, code, Bytes::new(alloc), 100, 100)?;
    Ok(machine)
}

#[test]
fn a_machine_that_is_stuck_is_spent(rt: HostRuntime) -> Result<(), Fail> {
    let mut machine = stuck(rt.alloc())?;
    let first = machine.go(Values::new(rt.alloc()));
    assert!(rt; matches!(first, Err(GoError::Stuck)));
    let second = machine.go(Values::new(rt.alloc()));
    assert!(rt; matches!(second, Err(GoError::Spent)));
    Ok(())
}
