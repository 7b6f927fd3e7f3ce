use sk_ports::{Folder, Sink, write_all};
use std::alloc::Global;

/// Files up to this length are shown whole.
const SHOWN: usize = 100;

/// Writes the name of each file, its length, and its bytes where they are few.
pub fn show<F: Folder, S: Sink>(alloc: Global, folder: &mut F, out: &mut S) -> anyhow::Result<()> {
    let names = folder.names(alloc)?;
    for name in &names {
        let bytes = folder.read(alloc, name.as_str())?;
        show_file(alloc, name.as_str(), bytes.as_slice(), out)?;
    }
    Ok(())
}

fn show_file<S: Sink>(alloc: Global, name: &str, bytes: &[u8], out: &mut S) -> anyhow::Result<()> {
    let head = format!(in alloc; "{name}: {} bytes\n", bytes.len())?;
    write_all(out, head.as_bytes())?;
    if bytes.len() <= SHOWN {
        write_all(out, bytes)?;
        write_all(out, b"\n")?;
    }
    Ok(())
}
