ghost use Rattle.std.specs.Prelude.{◌≡◌, ◌++◌, IfOk, OnOk, codes, decimal};
ghost use Rattle.journal.specs.Format.{header, last_line, spelled};

use itoa::Buffer;
use sk_types::{Bytes, Journal, NoMemory};
use std::alloc::Global;

pub(crate) const HEADER: &[u8] = b"skynet-journal 1\n";

/// Adds a number in decimal, and the end of its line.
fn push_number(text: &mut Bytes, number: u64) -> Result<(), NoMemory>
    ensures { OnOk result (text.new ≡ text.old ++ (decimal number ++ codes "\n")) }
{
    let mut buffer = Buffer::new();
    text.push_slice(buffer.format(number).as_bytes())?;
    text.push(b'\n')
}

/// The last line of a journal with so many entries.
pub(crate) fn last_line(alloc: Global, count: usize) -> Result<Bytes, NoMemory>
    ensures { IfOk result (λ line. line ≡ last_line count) }
{
    let mut line = Bytes::from_slice(alloc, b"end ")?;
    push_number(&mut line, count as u64)?;
    Ok(line)
}

/// The text of a journal.
pub fn write(alloc: Global, journal: &Journal) -> Result<Bytes, NoMemory>
    ensures { IfOk result (λ text. text ≡ spelled journal.now.agents) }
{
    let mut text = Bytes::from_slice(alloc, HEADER)?;
    for agent in journal.as_slice() {
        push_number(&mut text, agent.0 as u64)?;
    }
    let last = last_line(alloc, journal.len())?;
    text.push_slice(last.as_slice())?;
    Ok(text)
}
