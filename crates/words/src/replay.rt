ghost use Rattle.std.specs.Prelude.{◌≡◌, true, false, map, string_bytes, Err, OnOk, IfOk, IfSome, is_some};
ghost use Rattle.clap.specs.Words.{app_of, found_of, matches_of, rows_of};
ghost use Rattle.words.specs.Commands.{replay_command};
ghost use Rattle.words.specs.Forms.{ReplaySays, are_replay_numbers, is_replay};

use crate::command::{bare, taken, with_option, with_positional};
use crate::fault::WordsFault;
use crate::numbers::{number_or, text_or};
use crate::run::{BUDGET, HEAP, START};
use clap::{ArgMatches, Command};
use std::alloc::{AllocError, Global};

/// What the words of a replay say.
#[derive(Clone, Copy)]
pub struct ReplayWords<'a> {
    /// The folder of the scripts.
    pub folder: &'a str,
    /// The file of the journal.
    pub journal: &'a str,
    /// The name of the script that is launched first, without its ending.
    pub start: &'a str,
    /// The ticks of one message.
    pub budget: u64,
    /// The heap units of one service.
    pub heap: u64,
}

/// `FOLDER JOURNAL [--start NAME] [--budget N] [--heap N]`
fn replay_command<'a>(alloc: Global) -> Result<Command<'a>, AllocError>
    ensures { IfOk result (λ c. app_of c ≡ replay_command) }
{
    let folder = with_positional(alloc, bare(alloc, "replay"), "FOLDER")?;
    let journal = with_positional(alloc, folder, "JOURNAL")?;
    let start = with_option(alloc, journal, "start")?;
    let budget = with_option(alloc, start, "budget")?;
    with_option(alloc, budget, "heap")
}

/// What the matches say of a replay, or None where a number is out of its range.
fn replay_words<'a>(matches: &ArgMatches<'a>) -> Option<ReplayWords<'a>>
    ensures some { IfSome result (ReplaySays (rows_of (found_of matches.now))) }
    ensures test { is_some result ≡ are_replay_numbers (rows_of (found_of matches.now)) }
{
    let budget = number_or(matches, "budget", &BUDGET)?;
    let heap = number_or(matches, "heap", &HEAP)?;
    Some(ReplayWords {
        folder: text_or(matches, "FOLDER", ""),
        journal: text_or(matches, "JOURNAL", ""),
        start: text_or(matches, "start", START),
        budget,
        heap,
    })
}

/// What the words of a replay say, or Usage exactly where they are not of its form; want of memory aside.
pub fn read_replay<'a>(alloc: Global, words: &'a [String]) -> Result<ReplayWords<'a>, WordsFault>
    ensures says { IfOk result (ReplaySays (matches_of replay_command (map string_bytes words.entry.now))) }
    ensures form { OnOk result (is_replay (map string_bytes words.entry.now) ≡ true) }
    ensures usage { result ≡ Err WordsFault.Usage → is_replay (map string_bytes words.entry.now) ≡ false }
{
    let command = replay_command(alloc)?;
    let matches = taken(command, words)?;
    match replay_words(&matches) {
        Some(said) => Ok(said),
        None => Err(WordsFault::Usage),
    }
}
