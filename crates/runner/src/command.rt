ghost use Rattle.std.specs.Prelude.{◌≡◌, ◌⊎◌, ◌↔◌, [], true, false, IfOk, IfErr, IfSome, OnOk, map, string_bytes};
ghost use Rattle.sk_ports.specs.Causes.{Rose};
ghost use Rattle.sk_types.specs.declared.fault.StartFault.{StartFault};
ghost use Rattle.runner.specs.Run.{CannotStart, EndsEarly, IsOtherForm, IsRefused, RunCut, Runs, RunWritten, Starts, is_answered, is_early};
ghost use Rattle.log_script.specs.Form.{Logs};
ghost use Rattle.runner.specs.Words.{is_form};
ghost use Rattle.runner.specs.World.{IsDrained, World, after, opening};

use crate::scripts::read_scripts;
use crate::words::is_form;
use crate::world::{LogWorld, run};
use log_script::{LogError, LogScript, read_log};
use lua_syntax::{ParseError, parse};
use sk_ports::{Folder, FolderFault, Gate, Sink, TickSource, find_file, write_all};
use sk_types::{Bytes, Journal, NoMemory, StartFault, Status, Visit};
use std::alloc::Global;

/// What a run leaves beside its output.
#[derive(Drop)]
pub struct RunBook {
    /// The agents that acted, in order.
    pub journal: Journal,
    /// The stays of services in the workers' hands; so far there are none.
    pub visits: Vec<Visit>,
}

impl RunBook {
    pub fn new(alloc: Global) -> RunBook
        ensures journal { result.journal.agents ≡ [] }
        ensures visits { result.visits.items ≡ [] }
    {
        RunBook {
            journal: Journal::new(alloc),
            visits: Vec::new(alloc),
        }
    }
}

/// Runs the start script of a folder, and writes what the logger took to `out`.
///
/// So far it takes no time and keeps no journal, so `journal_out`, `ticks` and `gate` stay as they were.
pub fn run_command<R, F: Folder, S: Sink, B: Sink, K: TickSource, G: Gate>(
    rt: &R,
    alloc: Global,
    words: &[String],
    folder: &mut F,
    out: &mut S,
    journal_out: &mut B,
    ticks: &mut K,
    gate: &G,
    book: &mut RunBook,
) -> Status
    // The run, and what was written of it.
    ensures done { result ≡ Status.Done → IfSome (F.held folder.old) (RunWritten (S.written out.old) (S.written out.new) book.new.journal.agents) }
    ensures cut { result ≡ Status.WriteFault → IfSome (F.held folder.old) (RunCut (S.written out.old) (S.written out.new) book.new.journal.agents) }
    ensures early { is_early result ≡ true → (book.new.journal.agents ≡ []) × (S.written out.new ≡ S.written out.old) }
    ensures memory { result ≡ Status.Memory → (book.new.journal.agents ≡ []) × (S.written out.new ≡ S.written out.old) }

    // The cause of each status.
    ensures usage { (result ≡ Status.Usage) ↔ (is_form (map string_bytes words.now) ≡ false) }
    ensures read_fault { result ≡ Status.ReadFault → Rose (F.faults folder.old) (F.faults folder.new) }
    ensures no_read_fault { (F.faults folder.new ≡ F.faults folder.old) ⊎ ((result ≡ Status.ReadFault) ⊎ (result ≡ Status.Memory)) }
    ensures no_start { (fault : StartFault) → result ≡ Status.NoStart fault → IfSome (F.held folder.old) (CannotStart fault) }
    ensures write_fault { result ≡ Status.WriteFault → Rose (S.faults out.old) (S.faults out.new) }
    ensures no_write_fault { (S.faults out.new ≡ S.faults out.old) ⊎ ((result ≡ Status.WriteFault) ⊎ (result ≡ Status.Memory)) }
    ensures answered { is_answered result ≡ true }

    // What stays.
    ensures visits { book.new.visits.items ≡ [] }
    ensures folder { F.held folder.new ≡ F.held folder.old }
    ensures journal_out { (B.written journal_out.new ≡ B.written journal_out.old) × (B.faults journal_out.new ≡ B.faults journal_out.old) }
    ensures ticks { K.left ticks.new ≡ K.left ticks.old }
{
    let _ = rt;
    book.journal.clear();
    book.visits.clear();
    if !is_form(words) {
        return Status::Usage;
    }
    let script = match load(alloc, folder) {
        Ok(script) => script,
        Err(status) => return status,
    };
    let Ok(text) = run_script(alloc, script, &mut book.journal) else {
        book.journal.clear();
        return Status::Memory;
    };
    match write_all(out, text.as_slice()) {
        Ok(()) => Status::Done,
        Err(_) => Status::WriteFault,
    }
}

/// Reads the folder and its start script, or answers the status that ends the call.
fn load<F: Folder>(alloc: Global, folder: &mut F) -> Result<LogScript, Status>
    ensures script { IfOk result (λ texts. IfSome (F.held folder.old) (Starts texts)) }
    ensures kept { OnOk result (F.faults folder.new ≡ F.faults folder.old) }
    ensures early { IfErr result (EndsEarly (F.held folder.old) (F.faults folder.old) (F.faults folder.new)) }
    ensures held { F.held folder.new ≡ F.held folder.old }
{
    let scripts = match read_scripts(alloc, folder) {
        Ok(scripts) => scripts,
        Err(FolderFault::Failed) => return Err(Status::ReadFault),
        Err(FolderFault::Memory) => return Err(Status::Memory),
    };
    let Some(source) = find_file(&scripts, "main.lua") else {
        return Err(Status::NoStart(StartFault::Missing));
    };
    read_start(alloc, source.as_slice())
}

/// Reads the start script: its text has to read, and then to be of the form that can be run so far.
fn read_start(alloc: Global, source: &[u8]) -> Result<LogScript, Status>
    ensures script { IfOk result (λ texts. Runs source.now texts) }
    ensures refused { IfErr result (IsRefused source.now) }
{
    match parse(alloc, source) {
        Ok(_) => read_form(alloc, source),
        Err(ParseError::Memory) => Err(Status::Memory),
        Err(ParseError::Fault(fault)) => Err(Status::NoStart(StartFault::Unread(fault))),
    }
}

/// Reads what a script logs.
fn read_form(alloc: Global, source: &[u8]) -> Result<LogScript, Status>
    ensures script { IfOk result (λ texts. Logs source.now texts) }
    ensures refused { IfErr result (IsOtherForm source.now) }
{
    match read_log(alloc, source) {
        Ok(script) => Ok(script),
        Err(LogError::Memory) => Err(Status::Memory),
        Err(LogError::Fault(fault)) => Err(Status::NoStart(StartFault::Unread(fault))),
    }
}

/// Runs the world of a script until it has drained, and answers the logger's text.
fn run_script(alloc: Global, script: LogScript, journal: &mut Journal) -> Result<Bytes, NoMemory>
    requires { journal.old.agents ≡ [] }
    ensures { IfOk result (λ text. (end : World) × (after journal.new.agents (opening script) ≡ Some (end, text)) × IsDrained end) }
{
    let mut world = LogWorld::opening(alloc, script)?;
    let mut text = Bytes::new(alloc);
    run(&mut world, journal, &mut text)?;
    Ok(text)
}
