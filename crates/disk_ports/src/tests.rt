//! What no contract tells: that the folder on disk is reached, and that a full output fails and is counted.

use crate::{DiskFolder, FileSink, Output};
use sk_ports::{Failed, Folder, FolderFault, Sink};
use std::fmt::Display;
use std::io::{self, Write};
use std::test::Fail;
use std::{env, fs, process};

#[test]
fn a_folder_is_listed(rt: HostRuntime) -> Result<(), Fail> {
    let alloc = rt.alloc();
    let temp = env::temp_dir(&rt)?;
    let id = process::id(rt.process());
    let root = format!(in alloc; "{}/skynet_run_{id}", temp.as_str())?;
    fs::create_dir(&rt, root.as_str())?;
    let path = format!(in alloc; "{root}/main.lua")?;
    fs::write(&rt, path.as_str(), "return")?;
    let mut folder = DiskFolder::new(&rt, root.clone()?);
    let names = folder.names(alloc)?;
    assert_eq!(rt; names.len(), 1);
    assert_eq!(rt; names[0].as_str(), "main.lua");
    fs::remove_dir_all(&rt, root.as_str())?;
    assert_eq!(rt; folder.names(alloc).err(), Some(FolderFault::Failed));
    Ok(())
}

/// An output that takes nothing.
#[derive(Drop)]
struct Full;

fn no_space() -> io::Error {
    io::Error::from(io::ErrorKind::StorageFull)
}

impl Print for Full {
    fn print<D: Display + Drop>(&self, _value: D) -> io::Result<()> {
        Err(no_space())
    }

    fn println<D: Display + Drop>(&self, _value: D) -> io::Result<()> {
        Err(no_space())
    }

    fn write_all(&self, _bytes: &[u8]) -> io::Result<()> {
        Err(no_space())
    }
}

impl Write for Full {
    fn write(&mut self, _bytes: &[u8]) -> io::Result<usize> {
        Err(no_space())
    }

    fn flush(&mut self) -> io::Result<()> {
        Ok(())
    }
}

#[test]
fn a_full_output_fails(rt: HostRuntime) -> Result<(), Fail> {
    assert_eq!(rt; Output::new(&Full).write(b"text"), Err(Failed));
    assert_eq!(rt; FileSink::new(Some(Full)).write(b"text"), Err(Failed));
    assert_eq!(rt; FileSink::<Full>::new(None).write(b"text"), Err(Failed));
    Ok(())
}
