//! What a Lua chunk means: one small step after another, and where it stops.
//!
//! The definitions stand in `specs/`. The functions here do nothing; the contract of each is a law of the definitions.
#![tactic(auto)]

ghost use Rattle.lua_meaning.specs.Laws.{StepIsDetermined, BudgetFalls, UnitsRise};
ghost use Rattle.lua_meaning.specs.Worked.{ChunksAreAsInLua};

/// Each state has one next state or stop, and comes to one stop, or to one call of the host.
pub fn law_step_determined()
    ensures { StepIsDetermined }
{}

/// A step without a tick leaves fewer unfinished terms, and the ticks that are left never rise.
pub fn law_budget_falls()
    ensures { BudgetFalls }
{}

/// The units of the heap never fall.
pub fn law_units_rise()
    ensures { UnitsRise }
{}

/// Small chunks give what Lua 5.4 gives.
pub fn law_worked_chunks()
    ensures { ChunksAreAsInLua }
{}
