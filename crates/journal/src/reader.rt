ghost use Rattle.std.specs.Prelude.{IfOk, IfErr};
ghost use Rattle.journal.specs.Faults.{IsBody, IsFault, IsText};
ghost use Rattle.journal.specs.Format.{Spells, SpellsBody};

use crate::fault::ReadError;
use crate::lines::read_entries;
use crate::prefix::common;
use crate::writer::{HEADER, last_line};
use sk_types::Journal;
use std::alloc::Global;

/// Reads what stands behind the first line.
fn read_body(alloc: Global, body: &[u8]) -> Result<Journal, ReadError>
    ensures ok { IfOk result (λ journal. SpellsBody body.now journal.agents) }
    ensures err { IfErr result (IsFault IsBody body.now) }
{
    let entries = read_entries(alloc, body)?;
    let line = last_line(alloc, entries.journal.len())?;
    let rest = &body[entries.last..];
    if rest == line.as_slice() {
        return Ok(entries.journal);
    }
    let same = common(rest, line.as_slice());
    Err(ReadError::Form {
        offset: (entries.last + same) as u64,
    })
}

/// The journal that a text spells, or the first fault of one that spells none.
pub fn read(alloc: Global, text: &[u8]) -> Result<Journal, ReadError>
    ensures ok { IfOk result (λ journal. Spells text.now journal.agents) }
    ensures err { IfErr result (IsFault IsText text.now) }
{
    let begun = common(text, HEADER);
    if begun < HEADER.len() {
        return Err(ReadError::Form {
            offset: begun as u64,
        });
    }
    match read_body(alloc, &text[HEADER.len()..]) {
        Ok(journal) => Ok(journal),
        Err(ReadError::Form { offset }) => Err(ReadError::Form {
            offset: HEADER.len() as u64 + offset,
        }),
        Err(ReadError::Memory) => Err(ReadError::Memory),
    }
}
