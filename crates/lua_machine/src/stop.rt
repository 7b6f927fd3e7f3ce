ghost use Rattle.std.specs.Prelude.{◌≡◌};
ghost use Rattle.lua_machine.specs.Views.{ends};

use lua_value::{Value, Values};
use sk_types::NoMemory;
use thiserror::Error;

/// A call of a function that the host has.
#[derive(Drop)]
pub struct NativeCall {
    pub called: Value,
    pub args: Values,
}

/// Where a thread stops.
#[derive(Drop)]
pub enum Stop {
    /// The host is called, and the thread waits for the results.
    Native(NativeCall),
    /// It ends with these values.
    Return(Values),
    /// It ends with an error.
    Raise(Value),
    /// The next ticks would pass the budget.
    Budget,
    /// The next units would pass the heap.
    HeapFull,
}

impl Stop {
    /// Whether the thread ends there: it does at each stop but a call of the host.
    pub fn is_end(&self) -> bool
        ensures { result ≡ ends self.now }
    {
        match self {
            Stop::Native(_) => false,
            Stop::Return(_) | Stop::Raise(_) | Stop::Budget | Stop::HeapFull => true,
        }
    }
}

/// What an operation leads to.
#[derive(Drop)]
pub enum Went {
    /// The next operation.
    On,
    Off(Stop),
    /// There is nothing that it does. Code that serves a chunk never comes here.
    Stuck,
}

/// Why a machine does not come to a stop. It is spent from then on.
#[derive(Clone, Copy, Debug, PartialEq, Eq, Error)]
pub enum GoError {
    #[error("out of memory")]
    Memory,
    /// The code comes to an operation that it cannot do. Code that serves a chunk never does.
    #[error("the code is stuck")]
    Stuck,
    /// It ended or failed before.
    #[error("the machine is spent")]
    Spent,
}

impl From<NoMemory> for GoError {
    ghost use Rattle.lua_machine.specs.declared.stop.GoError.TheVariants as error;
    ghost use Rattle.std.specs.Prelude.{◌≡◌};

    ghost from_gives = { λ _ f. f ≡ error.Memory };

    fn from(_error: NoMemory) -> GoError {
        GoError::Memory
    }
}
