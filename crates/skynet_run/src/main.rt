//! skynet_run: runs a folder of scripts, and writes their text to standard output.
#![tactic(auto)]

use disk_ports::{DiskFolder, FileSink, Output};
use runner::{RunBook, run_command};
use sk_ports::{MemoryTicks, OpenGate};
use sk_types::{StartFault, Status};
use std::process::ExitCode;
use std::{env, fs, io};

/// The ticks of a run, where the words name no other number.
const TICKS: u64 = 1_000_000;

fn main(rt: HostRuntime) -> io::Result<ExitCode> {
    let status = match words(&rt) {
        Ok(words) => run(&rt, &words),
        Err(error) if error.kind() == io::ErrorKind::InvalidData => Status::Usage,
        Err(_) => Status::Memory,
    };
    report(&rt, &status)?;
    Ok(ExitCode::from(status.code()))
}

/// The command's words without the program's name; words that are no text are refused.
fn words(rt: &HostRuntime) -> io::Result<Vec<String>> {
    let words = env::args(rt)?.skip(1).collect(rt.alloc())?;
    Ok(words)
}

/// Runs the folder that the words name.
fn run(rt: &HostRuntime, words: &[String]) -> Status {
    let alloc = rt.alloc();
    let folder = words.first().map_or("", |word| word.as_str());
    let Ok(root) = String::from_str(alloc, folder) else {
        return Status::Memory;
    };
    run_command(
        rt,
        alloc,
        words,
        &mut DiskFolder::new(rt, root),
        &mut Output::new(rt),
        &mut FileSink::<fs::File>::new(None),
        &mut MemoryTicks { left: TICKS },
        &OpenGate,
        &mut RunBook::new(alloc),
    )
}

/// Writes one line on standard error for a status that is not Done.
fn report(rt: &impl Eprint, status: &Status) -> io::Result<()> {
    match status {
        Status::Done => Ok(()),
        Status::Usage => eprintln!(rt; "skynet_run: usage: skynet_run FOLDER"),
        Status::NoStart(StartFault::Missing) => {
            eprintln!(rt; "skynet_run: main.lua: no such script")
        }
        Status::NoStart(StartFault::Unread(fault)) => {
            eprintln!(rt; "skynet_run: main.lua:{fault}")
        }
        Status::ReadFault => eprintln!(rt; "skynet_run: reading failed"),
        Status::WriteFault => eprintln!(rt; "skynet_run: writing failed"),
        Status::EventsFull => eprintln!(rt; "skynet_run: event limit reached"),
        Status::TicksSpent => eprintln!(rt; "skynet_run: no ticks left"),
        Status::BytesFull => eprintln!(rt; "skynet_run: byte limit reached"),
        Status::Memory => eprintln!(rt; "skynet_run: out of memory"),
        Status::JournalFault(fault) => eprintln!(rt; "skynet_run: {fault}"),
    }
}
