use sk_types::{NoMemory, SyntaxFault};
use thiserror::Error;

/// Why tokens gave no chunk.
#[derive(Clone, Copy, Debug, PartialEq, Eq, Error)]
pub enum ParseError {
    #[error("out of memory")]
    Memory,
    #[error("{0}")]
    Fault(SyntaxFault),
}

impl From<NoMemory> for ParseError {
    ghost use Rattle.std.specs.Prelude.{◌≡◌};
    ghost use Rattle.lua_parser.specs.declared.error.ParseError.TheVariants.{Memory};

    ghost from_gives = { λ _ error. error ≡ Memory };

    fn from(_error: NoMemory) -> ParseError {
        ParseError::Memory
    }
}
