//! skynet_tools: looks at a folder of scripts without running it.
#![tactic(auto)]

use disk_ports::{DiskFolder, Output};
use sk_types::Status;
use std::process::ExitCode;
use std::{env, io};
use tools::check_folder;

fn main(rt: HostRuntime) -> io::Result<ExitCode> {
    let status = match words(&rt) {
        Ok(words) => call(&rt, &words),
        Err(error) if error.kind() == io::ErrorKind::InvalidData => Status::Usage,
        Err(_) => Status::Memory,
    };
    report(&rt, &status)?;
    Ok(ExitCode::from(status.code()))
}

/// The command's words without the program's name; words that are no text are refused.
fn words(rt: &HostRuntime) -> io::Result<Vec<String>> {
    let words = env::args(rt)?.skip(1).collect(rt.alloc())?;
    Ok(words)
}

/// Calls the command that the first word names.
fn call(rt: &HostRuntime, words: &[String]) -> Status {
    match words.split_first() {
        Some((command, rest)) if command.as_str() == "check" => check(rt, rest),
        _ => Status::Usage,
    }
}

/// Checks the folder that the words name.
fn check(rt: &HostRuntime, words: &[String]) -> Status {
    let alloc = rt.alloc();
    let folder = words.first().map_or("", |word| word.as_str());
    let Ok(root) = String::from_str(alloc, folder) else {
        return Status::Memory;
    };
    check_folder(
        alloc,
        words,
        &mut DiskFolder::new(rt, root),
        &mut Output::new(rt),
    )
}

/// Writes one line on standard error for a status that is not Done.
fn report(rt: &impl Eprint, status: &Status) -> io::Result<()> {
    match status {
        Status::Done => Ok(()),
        Status::Usage => eprintln!(rt; "skynet_run: usage: skynet_tools check FOLDER"),
        Status::NoStart(_) => eprintln!(rt; "skynet_run: a script does not read"),
        Status::ReadFault => eprintln!(rt; "skynet_run: reading failed"),
        Status::WriteFault => eprintln!(rt; "skynet_run: writing failed"),
        Status::EventsFull => eprintln!(rt; "skynet_run: event limit reached"),
        Status::TicksSpent => eprintln!(rt; "skynet_run: no ticks left"),
        Status::BytesFull => eprintln!(rt; "skynet_run: byte limit reached"),
        Status::Memory => eprintln!(rt; "skynet_run: out of memory"),
        Status::JournalFault(fault) => eprintln!(rt; "skynet_run: {fault}"),
    }
}
