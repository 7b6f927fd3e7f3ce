ghost use Rattle.std.specs.Prelude.{◌≡◌, ◌≤◌, map, string_bytes, IfOk};
ghost use Rattle.std.specs.List.Sorted.{IsStrictlySortedBy};
ghost use Rattle.std.specs.String.{string_cmp};
ghost use Rattle.sk_ports.specs.Causes.{FolderCause};

use sk_ports::{Folder, FolderFault};
use std::alloc::{AllocError, Global};
use std::collections::BTreeSet;
use std::rt::Files;
use std::{fs, io};

/// A folder on disk. Where it cannot be opened its calls fail.
#[derive(Drop)]
pub struct DiskFolder<'r, R: Files + AllocGlobal + Clone + Drop> {
    rt: &'r R,
    root: String,
    /// The names that were listed last.
    names: Option<Vec<String>>,
    faults: u64,
}

impl<'r, R: Files + AllocGlobal + Clone + Drop> DiskFolder<'r, R> {
    pub fn new(rt: &'r R, root: String) -> DiskFolder<'r, R> {
        DiskFolder {
            rt,
            root,
            names: None,
            faults: 0,
        }
    }

    /// What an error of the system is to a caller; a failure is counted.
    fn fault(&mut self, error: io::Error) -> FolderFault
        ensures cause { FolderCause self.old.faults self.new.faults result }
        ensures later { self.old.faults ≤ self.new.faults }
        ensures names { self.new.names ≡ self.old.names }
    {
        if error.kind() == io::ErrorKind::OutOfMemory {
            return FolderFault::Memory;
        }
        self.faults = self.faults.saturating_add(1);
        FolderFault::Failed
    }
}

/// The names of a folder's files, in byte order.
fn list<R: Files + AllocGlobal + Clone + Drop>(
    rt: &R,
    alloc: Global,
    root: &str,
) -> io::Result<BTreeSet<String>> {
    let mut names = BTreeSet::new(alloc);
    for entry in fs::read_dir(rt, root)? {
        let entry = entry?;
        names.insert(String::from_str(alloc, entry.file_name())?)?;
    }
    Ok(names)
}

/// The names of a set as a list.
fn in_order(alloc: Global, names: BTreeSet<String>) -> Result<Vec<String>, AllocError>
    ensures list { IfOk result (λ list. list.items ≡ names.keys) }
    ensures ordered { IsStrictlySortedBy string_cmp names.keys }
{
    names.into_iter().collect(alloc)
}

fn copies(alloc: Global, names: &[String]) -> Result<Vec<String>, AllocError>
    ensures { IfOk result (λ copies. map string_bytes copies.items ≡ map string_bytes names.now) }
{
    let mut copies = Vec::new(alloc);
    for name in names {
        copies.push(String::from_str(alloc, name.as_str())?)?;
    }
    Ok(copies)
}

fn read<R: Files + AllocGlobal + Clone + Drop>(
    rt: &R,
    alloc: Global,
    root: &str,
    name: &str,
) -> io::Result<Vec<u8>> {
    let path = format!(in alloc; "{root}/{name}")?;
    fs::read(rt, path.as_str())
}

impl<'r, R: Files + AllocGlobal + Clone + Drop> Folder for DiskFolder<'r, R> {
    ghost use Rattle.std.specs.Prelude.{None, option_map, string_bytes, map};

    ghost held = { λ f. None };

    ghost listed = { λ f. option_map (λ names. map string_bytes names.items) f.names };

    ghost faults = { λ f. f.faults };

    fn names(&mut self, alloc: Global) -> Result<Vec<String>, FolderFault> {
        let names = match list(self.rt, alloc, self.root.as_str()) {
            Ok(names) => names,
            Err(error) => return Err(self.fault(error)),
        };
        let names = in_order(alloc, names)?;
        let copies = copies(alloc, &names)?;
        self.names = Some(names);
        Ok(copies)
    }

    fn read(&mut self, alloc: Global, name: &str) -> Result<Vec<u8>, FolderFault> {
        match read(self.rt, alloc, self.root.as_str(), name) {
            Ok(bytes) => Ok(bytes),
            Err(error) => Err(self.fault(error)),
        }
    }
}
