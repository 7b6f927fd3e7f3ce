ghost use Rattle.std.specs.Prelude.{◌≡◌, ◌⊎◌, ◌↔◌, ◌++◌, ◌∷◌, [], false, true, None, Some, IfOk, IfErr, IfSome, OnOk, map, string_bytes};
ghost use Rattle.sk_types.specs.declared.fault.StartFault.TheVariants as start;
ghost use Rattle.sk_types.specs.declared.fault.SyntaxFault.{SyntaxFault};
ghost use Rattle.sk_types.specs.declared.status.Status.{Status};
ghost use Rattle.sk_ports.specs.Causes.{HasFolderCause, Rose};
ghost use Rattle.sk_ports.specs.Files.{IsListed, file};
ghost use Rattle.runner.specs.Words.{is_form};
ghost use Rattle.tools.specs.Report.{Cut, IsReport, IsTrueOf, IsVerdictOn, ReportsAs, Written, is_answered, is_early};

use crate::names::script_names;
use crate::report::{Verdict, first_fault, report_text};
use lua_syntax::{ParseError, parse};
use runner::is_form;
use sk_ports::{Folder, FolderFault, Sink, write_all};
use sk_types::{NoMemory, StartFault, Status, SyntaxFault};
use std::alloc::{AllocError, Global};

/// Reads each script of a folder, and writes one line for each to `out`, in byte order of the names.
///
/// The line is `NAME: ok`, or `NAME:LINE: KIND` with the script's first fault. The words are the folder's name alone.
pub fn check_folder<F: Folder, S: Sink>(
    alloc: Global,
    words: &[String],
    folder: &mut F,
    out: &mut S,
) -> Status
    // What was written.
    ensures done { result ≡ Status.Done → IfSome (F.held folder.old) (Written (S.written out.old) (S.written out.new) None) }
    ensures unread { (fault : SyntaxFault) → result ≡ Status.NoStart (start.Unread fault) → IfSome (F.held folder.old) (Written (S.written out.old) (S.written out.new) (Some fault)) }
    ensures cut { result ≡ Status.WriteFault → IfSome (F.held folder.old) (Cut (S.written out.old) (S.written out.new)) }
    ensures early { is_early result ≡ true → S.written out.new ≡ S.written out.old }

    // The cause of each status.
    ensures usage { (result ≡ Status.Usage) ↔ (is_form (map string_bytes words.now) ≡ false) }
    ensures read_fault { result ≡ Status.ReadFault → Rose (F.faults folder.old) (F.faults folder.new) }
    ensures no_read_fault { (F.faults folder.new ≡ F.faults folder.old) ⊎ ((result ≡ Status.ReadFault) ⊎ (result ≡ Status.Memory)) }
    ensures write_fault { result ≡ Status.WriteFault → Rose (S.faults out.old) (S.faults out.new) }
    ensures no_write_fault { (S.faults out.new ≡ S.faults out.old) ⊎ ((result ≡ Status.WriteFault) ⊎ (result ≡ Status.Memory)) }
    ensures answered { is_answered result ≡ true }
    ensures folder { F.held folder.new ≡ F.held folder.old }
{
    if !is_form(words) {
        return Status::Usage;
    }
    match check_scripts(alloc, folder) {
        Ok(verdicts) => write_report(alloc, &verdicts, out),
        Err(FolderFault::Failed) => Status::ReadFault,
        Err(FolderFault::Memory) => Status::Memory,
    }
}

/// Reads and parses each script of a folder, in byte order of the names.
fn check_scripts<F: Folder>(alloc: Global, folder: &mut F) -> Result<Vec<Verdict>, FolderFault>
    ensures report { IfOk result (λ verdicts. IfSome (F.held folder.old) (λ files. IsReport files verdicts.items)) }
    ensures held { F.held folder.new ≡ F.held folder.old }
    ensures cause { HasFolderCause (F.faults folder.old) (F.faults folder.new) result }
{
    let listed = folder.names(alloc)?;
    let names = script_names(alloc, &listed)?;
    let mut verdicts = Vec::new(alloc);
    for name in &names {
        let name = name.as_str();
        let fault = check_script(alloc, folder, name)?;
        push_verdict(alloc, &mut verdicts, name, fault)?;
    }
    Ok(verdicts)
}

/// Reads and parses a script; its first fault, if it does not read.
fn check_script<F: Folder>(
    alloc: Global,
    folder: &mut F,
    name: &str,
) -> Result<Option<SyntaxFault>, FolderFault>
    requires { IsListed (F.listed folder.old) name.now }
    ensures verdict { IfOk result (λ fault. IfSome (F.held folder.old) (IsVerdictOn name.now fault)) }
    ensures listed { F.listed folder.new ≡ F.listed folder.old }
    ensures held { F.held folder.new ≡ F.held folder.old }
    ensures cause { HasFolderCause (F.faults folder.old) (F.faults folder.new) result }
{
    let bytes = folder.read(alloc, name)?;
    match fault_of(alloc, bytes.as_slice()) {
        Ok(fault) => Ok(fault),
        Err(_) => Err(FolderFault::Memory),
    }
}

/// The first fault of a text, if it does not read.
fn fault_of(alloc: Global, source: &[u8]) -> Result<Option<SyntaxFault>, NoMemory>
    ensures { IfOk result (λ fault. IsTrueOf source.now fault) }
{
    match parse(alloc, source) {
        Ok(_) => Ok(None),
        Err(ParseError::Fault(fault)) => Ok(Some(fault)),
        Err(ParseError::Memory) => Err(NoMemory),
    }
}

/// Adds a verdict.
fn push_verdict(
    alloc: Global,
    verdicts: &mut Vec<Verdict>,
    name: &str,
    fault: Option<SyntaxFault>,
) -> Result<(), AllocError>
    ensures { OnOk result (verdicts.new.items ≡ verdicts.old.items ++ record { name = name.now; fault = fault } ∷ []) }
{
    let name = String::from_str(alloc, name)?;
    verdicts.push(Verdict { name, fault })?;
    Ok(())
}

/// Writes the report.
fn write_report<S: Sink>(alloc: Global, verdicts: &[Verdict], out: &mut S) -> Status
    ensures { ReportsAs verdicts.now (S.written out.old) (S.written out.new) (S.faults out.old) (S.faults out.new) result }
{
    let Ok(text) = report_text(alloc, verdicts) else {
        return Status::Memory;
    };
    match write_all(out, text.as_slice()) {
        Ok(()) => match first_fault(verdicts) {
            None => Status::Done,
            Some(fault) => Status::NoStart(StartFault::Unread(fault)),
        },
        Err(_) => Status::WriteFault,
    }
}
