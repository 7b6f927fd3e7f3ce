//! disk_cases: lists a real folder and reads its files, and writes files and reads them back.
#![tactic(auto)]

mod files;

use disk_ports::{DiskFolder, FileSink, Output};
use sk_ports::write_all;
use std::fs;

/// The bytes of a file that no single write need take.
const LONG: usize = 300_000;

fn main(rt: HostRuntime) -> anyhow::Result<()> {
    let alloc = rt.alloc();
    let mut out = Output::new(&rt);
    files::show(
        alloc,
        &mut DiskFolder::new(&rt, String::from_str(alloc, "scripts")?),
        &mut out,
    )?;
    fs::create_dir(&rt, "written")?;
    let mut short = FileSink::new(Some(fs::create(&rt, "written/short.txt")?));
    write_all(&mut short, b"one line\nand no more")?;
    let mut long = FileSink::new(Some(fs::create(&rt, "written/long.txt")?));
    let bytes = vec![in alloc; b'x'; LONG]?;
    write_all(&mut long, bytes.as_slice())?;
    files::show(
        alloc,
        &mut DiskFolder::new(&rt, String::from_str(alloc, "written")?),
        &mut out,
    )
}
