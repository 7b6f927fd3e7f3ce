use sk_types::NoMemory;
use thiserror::Error;

/// Why no journal was read.
#[derive(Clone, Copy, Debug, PartialEq, Eq, Error)]
pub enum ReadError {
    /// The bytes spell no journal: the longest prefix that one begins with ends here.
    #[error("bad journal at byte {offset}")]
    Form { offset: u64 },
    #[error("out of memory")]
    Memory,
}

impl From<NoMemory> for ReadError {
    ghost use Rattle.std.specs.Prelude.{◌≡◌};
    ghost use Rattle.journal.specs.declared.fault.ReadError.TheVariants.{Memory};

    ghost from_gives = { λ _ error. error ≡ Memory };

    fn from(_error: NoMemory) -> ReadError {
        ReadError::Memory
    }
}
