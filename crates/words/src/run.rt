ghost use Rattle.std.specs.Prelude.{◌≡◌, true, false, map, string_bytes, codes, Err, OnOk, IfOk, IfSome, IfNone, is_some};
ghost use Rattle.clap.specs.Words.{app_of, found_of, is_simple_and_free, matches_of, rows_of};
ghost use Rattle.words.specs.Commands.{run_command};
ghost use Rattle.words.specs.Forms.{RunSays, are_run_numbers, are_limits, LimitsSay, is_run};

use crate::command::{bare, taken, with_option, with_positional};
use crate::fault::WordsFault;
use crate::numbers::{Range, number_or, text_or};
use clap::{ArgMatches, Command};
use sk_types::Limits;
use std::alloc::{AllocError, Global};

const WORKERS: Range = Range {
    least: 1,
    greatest: 64,
    default: 4,
};

const TICKS: Range = Range {
    least: 0,
    greatest: 1_000_000_000,
    default: 1_000_000,
};

const EVENTS: Range = Range {
    least: 1,
    greatest: 4_000_000,
    default: 1_000_000,
};

pub(crate) const BUDGET: Range = Range {
    least: 1_000,
    greatest: 1_000_000_000,
    default: 1_000_000,
};

pub(crate) const HEAP: Range = Range {
    least: 1_000,
    greatest: 16_777_216,
    default: 1_048_576,
};

/// The weights of all bodies that are put and launched, and the lengths of all logger lines: no word says it.
const BYTES: u64 = 268_435_456;

/// The script that is started where the words name no other.
pub(crate) const START: &str = "main";

/// What the words of a run say.
#[derive(Clone, Copy)]
pub struct RunWords<'a> {
    /// The folder of the scripts.
    pub folder: &'a str,
    /// The name of the script that is launched first, without its ending.
    pub start: &'a str,
    pub workers: u32,
    /// The ticks of the whole run.
    pub ticks: u64,
    pub limits: Limits,
    /// The file to which the journal is written, where one is asked for.
    pub journal: Option<&'a str>,
}

/// `FOLDER [--workers N] [--start NAME] [--ticks N] [--budget N] [--heap N] [--events N] [--journal FILE]`
fn run_command<'a>(alloc: Global) -> Result<Command<'a>, AllocError>
    ensures { IfOk result (λ c. app_of c ≡ run_command) }
{
    let folder = with_positional(alloc, bare(alloc, "skynet_run"), "FOLDER")?;
    let workers = with_option(alloc, folder, "workers")?;
    let start = with_option(alloc, workers, "start")?;
    let ticks = with_option(alloc, start, "ticks")?;
    let budget = with_option(alloc, ticks, "budget")?;
    let heap = with_option(alloc, budget, "heap")?;
    let events = with_option(alloc, heap, "events")?;
    with_option(alloc, events, "journal")
}

/// What the options say of a run's limits, or None where a number is out of its range.
fn limits(matches: &ArgMatches<'_>) -> Option<Limits>
    ensures some { IfSome result (LimitsSay (rows_of (found_of matches.now))) }
    ensures test { is_some result ≡ are_limits (rows_of (found_of matches.now)) }
{
    let events = number_or(matches, "events", &EVENTS)?;
    let budget = number_or(matches, "budget", &BUDGET)?;
    let heap = number_or(matches, "heap", &HEAP)?;
    Some(Limits {
        events: events as u32,
        bytes: BYTES,
        budget,
        heap,
    })
}

/// What the matches say of a run, or None where a number is out of its range.
fn run_words<'a>(matches: &ArgMatches<'a>) -> Option<RunWords<'a>>
    ensures some { IfSome result (RunSays (rows_of (found_of matches.now))) }
    ensures test { is_some result ≡ are_run_numbers (rows_of (found_of matches.now)) }
{
    let workers = number_or(matches, "workers", &WORKERS)?;
    let ticks = number_or(matches, "ticks", &TICKS)?;
    let limits = limits(matches)?;
    Some(RunWords {
        folder: text_or(matches, "FOLDER", ""),
        start: text_or(matches, "start", START),
        workers: workers as u32,
        ticks,
        limits,
        journal: matches.get_str("journal"),
    })
}

/// What the words of a run say, or Usage exactly where they are not of its form; want of memory aside.
pub fn read_run<'a>(alloc: Global, words: &'a [String]) -> Result<RunWords<'a>, WordsFault>
    ensures says { IfOk result (RunSays (matches_of run_command (map string_bytes words.entry.now))) }
    ensures form { OnOk result (is_run (map string_bytes words.entry.now) ≡ true) }
    ensures usage { result ≡ Err WordsFault.Usage → is_run (map string_bytes words.entry.now) ≡ false }
{
    let command = run_command(alloc)?;
    let matches = taken(command, words)?;
    match run_words(&matches) {
        Some(said) => Ok(said),
        None => Err(WordsFault::Usage),
    }
}
