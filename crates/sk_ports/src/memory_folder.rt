ghost use Rattle.std.specs.Prelude.{◌≡◌, ◌↔◌, ℕ, ◌≤◌, Some, None, map, IsTrue, Contains, IsErrOf, MatchBool, IfOk, OnOk, string_bytes, option_map, false, []};
ghost use Rattle.std.specs.List.{list_any};
ghost use Rattle.std.specs.Str.{bytes_eq};
ghost use Rattle.sk_ports.specs.Causes.{HasFolderCause, Rose};
ghost use Rattle.sk_ports.specs.Files.{IsListed, ListsTold, ReadsTold, file, files_of, names_of, with_name};
ghost use Rattle.sk_ports.specs.Memory.{counted};

use crate::fault::FolderFault;
use crate::folder::Folder;
use std::alloc::{AllocError, Global};

/// A folder in memory, whose calls can be made to fail. Of two files with one name the first counts.
#[derive(Debug, Drop)]
pub struct MemoryFolder {
    pub files: Vec<(String, Vec<u8>)>,
    /// The numbers, from 1, of the calls that fail.
    pub fail: Vec<u64>,
    pub calls: u64,
    /// Whether the names were listed.
    pub listed: bool,
    pub faults: u64,
}

impl MemoryFolder {
    pub fn new(alloc: Global) -> MemoryFolder
        ensures empty { (result.files.items ≡ []) × (result.fail.items ≡ []) }
        ensures counts { (result.calls ≡ 0) × (result.listed ≡ false) × (result.faults ≡ 0) }
    {
        MemoryFolder {
            files: Vec::new(alloc),
            fail: Vec::new(alloc),
            calls: 0,
            listed: false,
            faults: 0,
        }
    }

    /// Counts a call, and a fault where this one is to fail.
    fn is_refused(&mut self) -> bool
        ensures refused { IsTrue result ↔ Contains self.old.fail.items self.new.calls }
        ensures calls { self.new.calls ≡ counted self.old.calls }
        ensures faults { MatchBool result (Rose self.old.faults self.new.faults) (self.new.faults ≡ self.old.faults) }
        ensures later { self.old.faults ≤ self.new.faults }
        ensures kept { (self.new.files ≡ self.old.files) × (self.new.fail ≡ self.old.fail) × (self.new.listed ≡ self.old.listed) }
    {
        self.calls = self.calls.saturating_add(1);
        let refused = self.fail.contains(&self.calls);
        if refused {
            self.faults = self.faults.saturating_add(1);
        }
        refused
    }
}

/// The bytes of the first file of this name.
pub fn find_file<'a>(files: &'a [(String, Vec<u8>)], name: &str) -> Option<&'a Vec<u8>>
    ensures { option_map (λ bytes. bytes.now.items) result ≡ file (files_of files.now) name.now }
{
    for (other, bytes) in files {
        if name == other.as_str() {
            return Some(bytes);
        }
    }
    None
}

fn has_name(names: &[String], name: &str) -> bool
    ensures { result ≡ list_any (λ other. bytes_eq name.now (string_bytes other)) names.now }
{
    names.iter().any(|other| name == other.as_str())
}

/// Adds a name, where it is not yet there.
fn add_name(alloc: Global, names: &mut Vec<String>, name: &str) -> Result<(), AllocError>
    ensures { OnOk result (map string_bytes names.new.items ≡ with_name (map string_bytes names.old.items) name.now) }
{
    if has_name(names, name) {
        return Ok(());
    }
    names.push(String::from_str(alloc, name)?)?;
    Ok(())
}

fn distinct_names(alloc: Global, files: &[(String, Vec<u8>)]) -> Result<Vec<String>, AllocError>
    ensures { IfOk result (λ names. map string_bytes names.items ≡ names_of (files_of files.now)) }
{
    let mut names = Vec::new(alloc);
    for (name, _) in files {
        add_name(alloc, &mut names, name.as_str())?;
    }
    Ok(names)
}

impl Folder for MemoryFolder {
    ghost use Rattle.std.specs.Prelude.{Some, None, if◌then◌else◌};
    ghost use Rattle.sk_ports.specs.Files.{files_of, names_of};

    ghost held = { λ f. Some (files_of f.files.items) };

    ghost listed = { λ f. if f.listed then Some (names_of (files_of f.files.items)) else None };

    ghost faults = { λ f. f.faults };

    fn names(&mut self, alloc: Global) -> Result<Vec<String>, FolderFault> {
        if self.is_refused() {
            return Err(FolderFault::Failed);
        }
        let names = distinct_names(alloc, &self.files)?;
        self.listed = true;
        Ok(names)
    }

    fn read(&mut self, alloc: Global, name: &str) -> Result<Vec<u8>, FolderFault> {
        if self.is_refused() {
            return Err(FolderFault::Failed);
        }
        let Some(bytes) = find_file(&self.files, name) else {
            unreachable!()
        };
        let copy = Vec::from_slice(alloc, bytes.as_slice())?;
        Ok(copy)
    }
}
