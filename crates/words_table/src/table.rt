use std::alloc::{AllocError, Global};
use words::{ReplayWords, RunWords, WordsFault, read_replay, read_run};

/// What the words of a line say, the first of which names the command.
pub fn said(alloc: Global, line: &str) -> Result<String, AllocError> {
    let words = words_of(alloc, line)?;
    match words.as_slice() {
        [command, words @ ..] if command.as_str() == "run" => match read_run(alloc, words) {
            Ok(run) => said_of_run(alloc, &run),
            Err(fault) => said_of_fault(alloc, &fault),
        },
        [_, words @ ..] => match read_replay(alloc, words) {
            Ok(replay) => said_of_replay(alloc, &replay),
            Err(fault) => said_of_fault(alloc, &fault),
        },
        [] => Ok(String::new(alloc)),
    }
}

fn words_of(alloc: Global, line: &str) -> Result<Vec<String>, AllocError> {
    let mut words = Vec::new(alloc);
    for word in line.split(' ') {
        words.push(String::from_str(alloc, word)?)?;
    }
    Ok(words)
}

fn said_of_run(alloc: Global, run: &RunWords<'_>) -> Result<String, AllocError> {
    let limits = &run.limits;
    format!(in alloc;
        "[{}] start [{}] workers {} ticks {} budget {} heap {} events {} bytes {} journal {:?}",
        run.folder,
        run.start,
        run.workers,
        run.ticks,
        limits.budget,
        limits.heap,
        limits.events,
        limits.bytes,
        run.journal
    )
}

fn said_of_replay(alloc: Global, replay: &ReplayWords<'_>) -> Result<String, AllocError> {
    format!(in alloc;
        "[{}] journal [{}] start [{}] budget {} heap {}",
        replay.folder, replay.journal, replay.start, replay.budget, replay.heap
    )
}

fn said_of_fault(alloc: Global, fault: &WordsFault) -> Result<String, AllocError> {
    match fault {
        WordsFault::Usage => String::from_str(alloc, "usage"),
        WordsFault::Memory => String::from_str(alloc, "out of memory"),
    }
}
