//! With ample memory no call answers want of it.

use crate::{Capture, Code, Constant, Function, Op, Shape, valid};
use std::alloc::Global;
use std::test::Fail;

fn shape() -> Shape {
    Shape {
        params: 1,
        pay: 1,
        has_dots: false,
        slots: 4,
        cells: 1,
    }
}

#[test]
fn a_loop_is_valid(rt: HostRuntime) -> Result<(), Fail> {
    let mut function = Function::new(rt.alloc(), shape());
    function.add_constant(Constant::Int(5_000_000_000))?;
    function.add(Op::Constant { to: 0, index: 0 }, 1)?;
    function.add(
        Op::ForPrep {
            pay: 2,
            base: 0,
            at: 3,
        },
        1,
    )?;
    function.add(
        Op::ForLoop {
            pay: 2,
            base: 0,
            at: 2,
        },
        1,
    )?;
    function.add(Op::Return { from: 0, count: 1 }, 2)?;
    let mut code = Code::new(rt.alloc());
    code.add(function)?;
    assert!(rt; valid(&code));
    Ok(())
}

fn one(alloc: Global, op: Op) -> Result<Code, Fail> {
    let mut function = Function::new(alloc, shape());
    function.add(op, 1)?;
    function.add(Op::Return { from: 0, count: 0 }, 1)?;
    let mut code = Code::new(alloc);
    code.add(function)?;
    Ok(code)
}

#[test]
fn faults_are_found(rt: HostRuntime) -> Result<(), Fail> {
    assert!(rt; valid(&one(rt.alloc(), Op::Jump { at: 1 })?));
    assert!(rt; !valid(&one(rt.alloc(), Op::Jump { at: 2 })?));
    assert!(rt; !valid(&one(rt.alloc(), Op::Jump { at: 0 })?));
    assert!(rt; valid(&one(rt.alloc(), Op::Loop { pay: 1, at: 0 })?));
    assert!(rt; !valid(&one(rt.alloc(), Op::Loop { pay: 0, at: 0 })?));
    assert!(rt; !valid(&one(rt.alloc(), Op::Nil { to: 4 })?));
    assert!(rt; !valid(&one(rt.alloc(), Op::GetUp { to: 0, up: 0 })?));
    Ok(())
}

#[test]
fn a_chunk_captures_nothing(rt: HostRuntime) -> Result<(), Fail> {
    let mut function = Function::new(rt.alloc(), shape());
    function.add(Op::Return { from: 0, count: 0 }, 1)?;
    function.add_capture(Capture::Cell(0))?;
    let mut code = Code::new(rt.alloc());
    code.add(function)?;
    assert!(rt; !valid(&code));
    Ok(())
}
