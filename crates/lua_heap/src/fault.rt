use sk_types::NoMemory;
use std::alloc::{AllocError, AllocFailed};
use thiserror::Error;

/// The units would pass the limit.
#[derive(Clone, Copy, Debug, PartialEq, Eq, Error)]
#[error("heap limit reached")]
pub struct HeapFull;

/// Why a heap makes nothing.
#[derive(Clone, Copy, Debug, PartialEq, Eq, Error)]
pub enum HeapFault {
    #[error("out of memory")]
    Memory,
    #[error("heap limit reached")]
    Fault(HeapFull),
}

impl From<NoMemory> for HeapFault {
    ghost use Rattle.lua_heap.specs.declared.fault.HeapFault.TheVariants as fault;
    ghost use Rattle.std.specs.Prelude.{◌≡◌};

    ghost from_gives = { λ _ f. f ≡ fault.Memory };

    fn from(_error: NoMemory) -> HeapFault {
        HeapFault::Memory
    }
}

impl From<AllocError> for HeapFault {
    ghost use Rattle.lua_heap.specs.declared.fault.HeapFault.TheVariants as fault;
    ghost use Rattle.std.specs.Prelude.{◌≡◌};

    ghost from_gives = { λ _ f. f ≡ fault.Memory };

    fn from(_error: AllocError) -> HeapFault {
        HeapFault::Memory
    }
}

impl<T: Drop> From<AllocFailed<T>> for HeapFault {
    ghost use Rattle.lua_heap.specs.declared.fault.HeapFault.TheVariants as fault;
    ghost use Rattle.std.specs.Prelude.{◌≡◌};

    ghost from_gives = { λ _ f. f ≡ fault.Memory };

    fn from(_error: AllocFailed<T>) -> HeapFault {
        HeapFault::Memory
    }
}

impl From<HeapFull> for HeapFault {
    ghost use Rattle.lua_heap.specs.declared.fault.HeapFault.TheVariants as fault;
    ghost use Rattle.std.specs.Prelude.{◌≡◌};

    ghost from_gives = { λ e f. f ≡ fault.Fault e };

    fn from(full: HeapFull) -> HeapFault {
        HeapFault::Fault(full)
    }
}
