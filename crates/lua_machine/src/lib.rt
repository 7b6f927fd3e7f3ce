//! The machine that runs compiled Lua: it does what each operation says, up to the end of the thread, a limit, or a call of the host.
#![tactic(auto)]

mod call_info;
mod calls;
mod cells;
mod frame;
mod inner;
mod kinds;
mod lists;
mod loops;
mod machine;
mod nest;
mod pace;
mod pass;
mod perform;
mod quick;
mod run;
mod slots;
mod stack;
mod state;
mod stop;
mod stretch;

pub use machine::Machine;
pub use stop::{GoError, NativeCall, Stop};
