ghost use Rattle.std.specs.Prelude.{IfOk, IfErr};
ghost use Rattle.journal.specs.Faults.{IsBody, IsFault};
ghost use Rattle.journal.specs.Tails.{IsPlace, LastBegins, Takes};

use crate::fault::ReadError;
use sk_types::{Handle, Journal};
use std::alloc::Global;

/// The most entries of a journal.
const MOST_ENTRIES: usize = 4_000_000;

/// The greatest number of an agent.
const MOST_AGENT: u32 = 65_535;

/// A place in the lines of a journal.
#[derive(Clone, Copy)]
pub(crate) enum Spot {
    /// At the head of a line.
    Line,
    /// After digits, which write this number so far.
    Number(u32),
}

/// What a byte does at a place.
#[derive(Clone, Copy)]
pub(crate) enum Step {
    /// It is a digit of a number, which is this one now.
    Digit(u32),
    /// It ends an entry's line, of this number.
    Entry(u32),
    /// It begins the last line.
    Last,
    /// No journal has it there.
    Fault,
}

/// The entries that were read, and where the last line begins.
#[derive(Drop)]
pub(crate) struct Entries {
    pub journal: Journal,
    pub last: usize,
}

/// What the byte does at the head of a line, after so many entries.
fn step_at_line(byte: u8, entries: usize) -> Step
    ensures { Takes Spot.Line byte entries result }
{
    if byte == b'e' {
        return Step::Last;
    }
    if byte < b'0' || byte > b'9' {
        return Step::Fault;
    }
    if entries >= MOST_ENTRIES {
        return Step::Fault;
    }
    Step::Digit((byte - b'0') as u32)
}

/// What the byte does after digits that write this number.
fn step_in_number(number: u32, byte: u8, entries: usize) -> Step
    requires { IsPlace (Spot.Number number) entries }
    ensures { Takes (Spot.Number number) byte entries result }
{
    if byte == b'\n' {
        return Step::Entry(number);
    }
    if byte < b'0' || byte > b'9' {
        return Step::Fault;
    }
    let longer = number * 10 + (byte - b'0') as u32;
    if number == 0 || longer > MOST_AGENT {
        return Step::Fault;
    }
    Step::Digit(longer)
}

/// What the byte does at that place, after so many entries.
fn step_at(place: Spot, byte: u8, entries: usize) -> Step
    requires { IsPlace place entries }
    ensures { Takes place byte entries result }
{
    match place {
        Spot::Line => step_at_line(byte, entries),
        Spot::Number(number) => step_in_number(number, byte, entries),
    }
}

/// Reads entries until the last line begins.
pub(crate) fn read_entries(alloc: Global, body: &[u8]) -> Result<Entries, ReadError>
    ensures ok { IfOk result (λ e. LastBegins body.now e.last e.journal.agents) }
    ensures err { IfErr result (IsFault IsBody body.now) }
{
    let mut journal = Journal::new(alloc);
    let mut place = Spot::Line;
    for (at, byte) in body.iter().enumerate() {
        match step_at(place, *byte, journal.len()) {
            Step::Digit(number) => place = Spot::Number(number),
            Step::Entry(number) => {
                journal.push(Handle(number))?;
                place = Spot::Line;
            }
            Step::Last => return Ok(Entries { journal, last: at }),
            Step::Fault => return Err(ReadError::Form { offset: at as u64 }),
        }
    }
    Err(ReadError::Form {
        offset: body.len() as u64,
    })
}
