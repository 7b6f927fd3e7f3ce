//! With ample memory no call answers want of it.

use crate::{Heap, HeapFault, HeapFull};
use lua_value::Value;
use std::test::Fail;

#[test]
fn equal_texts_have_one_number(rt: HostRuntime) -> Result<(), Fail> {
    let mut heap = Heap::new(rt.alloc(), 3);
    let name = heap.text(b"print")?;
    heap.start_counting();
    assert!(rt; heap.text(b"print")? == name);
    assert_eq!(rt; heap.units(), 1);
    let long = heap.text(b"0123456789abcdef")?;
    assert!(rt; long != name);
    assert_eq!(rt; heap.units(), 3);
    assert!(rt; heap.text(b"") == Err(HeapFault::Fault(HeapFull)));
    assert_eq!(rt; heap.bytes(1), b"0123456789abcdef".as_slice());
    Ok(())
}

#[test]
fn closures_share_cells(rt: HostRuntime) -> Result<(), Fail> {
    let mut heap = Heap::new(rt.alloc(), 1);
    let cell = heap.cell(Value::Nil)?;
    heap.start_counting();
    assert!(rt; heap.closure(4, &[cell])? == Value::Func(0));
    assert!(rt; heap.closure(4, &[cell]) == Err(HeapFault::Fault(HeapFull)));
    assert!(rt; heap.closure_at(0).is_some());
    assert!(rt; heap.closure_at(1).is_none());
    Ok(())
}
