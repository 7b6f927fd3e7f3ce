//! What the operations of compiled Lua do, one after another, and which code serves which chunk.
//!
//! The definitions stand in `specs/`. The functions here do nothing; the contract of each is a law of the definitions.
#![tactic(auto)]

mod scope;

ghost use Rattle.lua_steps.specs.Measure.{MeasureFalls};
ghost use Rattle.lua_steps.specs.Worked.{CodeRunsAsInLua};

pub use scope::{Known, Place};

/// In valid code a number falls with each operation, so that a run comes to a stop or to a call of the host.
pub fn law_measure_falls()
    ensures { MeasureFalls }
{}

/// Small pieces of code give what Lua 5.4 gives.
pub fn law_worked_runs()
    ensures { CodeRunsAsInLua }
{}
