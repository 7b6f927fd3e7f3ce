ghost use Rattle.std.specs.Prelude.{◌≡◌, ◌++◌, ◌∷◌, [], IfOk, IfSome, OnOk};
ghost use Rattle.sk_ports.specs.Causes.{HasFolderCause};
ghost use Rattle.sk_ports.specs.Files.{IsListed, files_of};
ghost use Rattle.runner.specs.Scripts.{AddsScript, HasScripts, is_script};

use sk_ports::{Folder, FolderFault};
use std::alloc::{AllocError, Global};

/// A script's name and its bytes.
pub type Script = (String, Vec<u8>);

/// Reads each script of a folder.
pub fn read_scripts<F: Folder>(alloc: Global, folder: &mut F) -> Result<Vec<Script>, FolderFault>
    ensures scripts { IfOk result (λ scripts. IfSome (F.held folder.old) (HasScripts (files_of scripts.items))) }
    ensures held { F.held folder.new ≡ F.held folder.old }
    ensures cause { HasFolderCause (F.faults folder.old) (F.faults folder.new) result }
{
    let names = folder.names(alloc)?;
    let mut scripts = Vec::new(alloc);
    for name in &names {
        read_script(alloc, folder, name.as_str(), &mut scripts)?;
    }
    Ok(scripts)
}

/// Reads a file, where its name is a script's.
fn read_script<F: Folder>(
    alloc: Global,
    folder: &mut F,
    name: &str,
    scripts: &mut Vec<Script>,
) -> Result<(), FolderFault>
    requires { IsListed (F.listed folder.old) name.now }
    ensures kept { OnOk result (IfSome (F.held folder.old) (AddsScript name.now (files_of scripts.old.items) (files_of scripts.new.items))) }
    ensures listed { F.listed folder.new ≡ F.listed folder.old }
    ensures held { F.held folder.new ≡ F.held folder.old }
    ensures cause { HasFolderCause (F.faults folder.old) (F.faults folder.new) result }
{
    if !is_script(name) {
        return Ok(());
    }
    let bytes = folder.read(alloc, name)?;
    push_script(alloc, scripts, name, bytes)?;
    Ok(())
}

/// Whether a file of this name is a script: the name ends in `.lua`.
pub fn is_script(name: &str) -> bool
    ensures { result ≡ is_script name.now }
{
    name.as_bytes().ends_with(b".lua")
}

/// Adds a script.
fn push_script(
    alloc: Global,
    scripts: &mut Vec<Script>,
    name: &str,
    bytes: Vec<u8>,
) -> Result<(), AllocError>
    ensures { OnOk result (files_of scripts.new.items ≡ files_of scripts.old.items ++ (name.now, bytes.items) ∷ []) }
{
    let name = String::from_str(alloc, name)?;
    scripts.push((name, bytes))?;
    Ok(())
}
