//! With ample memory the devices fail at the calls that are to fail, and at no other.

use crate::{Failed, Folder, FolderFault, MemoryFolder, MemorySink, Sink, write_all};
use std::test::Fail;

#[test]
fn a_sink_takes_pieces_until_it_fails(rt: HostRuntime) -> Result<(), Fail> {
    let mut sink = MemorySink::new(rt.alloc(), 16, 4, vec![in rt.alloc(); 3]?)?;
    assert_eq!(rt; write_all(&mut sink, b"skynet"), Ok(()));
    assert_eq!(rt; write_all(&mut sink, b"!"), Err(Failed));
    assert_eq!(rt; sink.write(b"?"), Ok(1));
    assert_eq!(rt; sink.written.as_slice(), b"skynet?".as_slice());
    assert_eq!(rt; sink.room, 9);
    assert_eq!(rt; sink.faults, 1);
    Ok(())
}

#[test]
fn a_folder_lists_each_name_once(rt: HostRuntime) -> Result<(), Fail> {
    let mut folder = MemoryFolder::new(rt.alloc());
    for text in ["one", "two"] {
        let name = String::from_str(rt.alloc(), "main.lua")?;
        folder
            .files
            .push((name, Vec::from_slice(rt.alloc(), text.as_bytes())?))?;
    }
    folder.fail.push(2)?;
    let names = folder.names(rt.alloc())?;
    assert_eq!(rt; names.len(), 1);
    assert_eq!(rt; folder.names(rt.alloc()).err(), Some(FolderFault::Failed));
    assert_eq!(rt; folder.faults, 1);
    Ok(())
}
