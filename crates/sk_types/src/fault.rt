ghost use Rattle.std.specs.Prelude.{◌≡◌};

use std::fmt;
use thiserror::Error;

/// Why a text is no script.
#[derive(Clone, Copy, Debug, PartialEq, Eq)]
pub enum SyntaxKind {
    BadByte,
    OpenString,
    OpenLong,
    BadEscape,
    BadNumeral,
    TooLong,
    Float,
    Unexpected,
    Nesting,
    Locals,
    Break,
    Vararg,
    Unsupported,
    NotBuilt,
}

impl SyntaxKind {
    ghost use Rattle.sk_types.specs.Fault.{text_of};

    /// The text by which the programs name the fault.
    pub fn text(&self) -> &'static str
        ensures { result.now ≡ text_of self.now }
    {
        match self {
            SyntaxKind::BadByte => "bad byte",
            SyntaxKind::OpenString => "unfinished string",
            SyntaxKind::OpenLong => "unfinished long string",
            SyntaxKind::BadEscape => "bad escape",
            SyntaxKind::BadNumeral => "bad numeral",
            SyntaxKind::TooLong => "script too long",
            SyntaxKind::Float => "float operator",
            SyntaxKind::Unexpected => "unexpected token",
            SyntaxKind::Nesting => "too deeply nested",
            SyntaxKind::Locals => "too many locals",
            SyntaxKind::Break => "break outside a loop",
            SyntaxKind::Vararg => "vararg outside a vararg function",
            SyntaxKind::Unsupported => "not supported",
            SyntaxKind::NotBuilt => "not built yet",
        }
    }
}

impl fmt::Display for SyntaxKind {
    fn fmt<W: fmt::Write>(&self, f: &mut fmt::Formatter<W>) -> fmt::Result {
        f.write_str(self.text())
    }
}

/// The first fault of a text that is no script, and its line, from 1.
#[derive(Clone, Copy, Debug, PartialEq, Eq, Error)]
#[error("{line}: {kind}")]
pub struct SyntaxFault {
    pub line: u32,
    pub kind: SyntaxKind,
}

/// Why the start script cannot be launched.
#[derive(Clone, Copy, Debug, PartialEq, Eq)]
pub enum StartFault {
    /// The folder has no such script.
    Missing,
    /// The script does not read.
    Unread(SyntaxFault),
}

/// Why a journal is no run.
#[derive(Clone, Copy, Debug, PartialEq, Eq, Error)]
pub enum JournalFault {
    /// The bytes spell no journal: the longest prefix that one begins with ends here.
    #[error("bad journal at byte {offset}")]
    Form { offset: u64 },
    /// The entry with this many before it names an agent without an action.
    #[error("no action at entry {place}")]
    Entry { place: u64 },
}
