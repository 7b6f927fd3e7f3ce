ghost use Rattle.std.specs.Prelude.{◌≡◌};

use crate::fault::{JournalFault, StartFault};

/// How a call of a program ended.
#[derive(Clone, Copy, Debug, PartialEq, Eq)]
pub enum Status {
    /// The run drained and all was written.
    Done,
    /// The command's words are not of its form.
    Usage,
    /// The start script is missing or does not read.
    NoStart(StartFault),
    /// The folder failed.
    ReadFault,
    /// A sink failed.
    WriteFault,
    /// The limit of events was reached.
    EventsFull,
    /// A timer waits and no tick is left.
    TicksSpent,
    /// The limit of bytes was reached.
    BytesFull,
    /// Memory was wanting.
    Memory,
    /// The journal is no run.
    JournalFault(JournalFault),
}

impl Status {
    ghost use Rattle.sk_types.specs.Status.{code_of};

    /// The exit code of the program.
    pub fn code(&self) -> u8
        ensures { result ≡ code_of self.now }
    {
        match self {
            Status::Done => 0,
            Status::Usage => 2,
            Status::NoStart(_) => 3,
            Status::ReadFault => 4,
            Status::WriteFault => 5,
            Status::EventsFull => 6,
            Status::TicksSpent => 7,
            Status::BytesFull => 8,
            Status::Memory => 9,
            Status::JournalFault(_) => 10,
        }
    }
}
