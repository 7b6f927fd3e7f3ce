//! Journals as texts, in format 1: the line `skynet-journal 1`, the number of an agent on each line, and `end` with their number.
#![tactic(auto)]

ghost use Rattle.std.specs.Prelude.{◌≡◌, List};
ghost use Rattle.sk_types.specs.declared.number.Handle.{Handle};
ghost use Rattle.journal.specs.Format.{IsJournal, spelled};

mod fault;
mod lines;
mod prefix;
mod reader;
mod writer;

pub use fault::ReadError;
pub use reader::read;
pub use writer::write;

/// No two journals have one text, so that reading what was written gives it back.
pub fn law_one_journal()
    ensures { (a b : List Handle) → IsJournal a → IsJournal b → spelled a ≡ spelled b → a ≡ b }
{}

#[cfg(test)]
mod tests;
