//! Compiled Lua stops as the source does.
//!
//! The definitions stand in `specs/`. The functions here do nothing; the contract of each is a law.
#![tactic(auto)]

ghost use Rattle.lua_follow.specs.Follows.{CodeFollows};

/// A machine with valid code that serves a chunk waits as the chunk does at its beginning. Given any values, it comes to the stop of the
/// source, or to its call of the host, where it waits as the source does. Results, errors and calls have the same values, and as many
/// ticks are left; where ticks or units run out, both have the same heap. Ticks and units are those of `lua_meaning`, which follows the
/// manual's section 3. The source comes to no term without a rule.
pub fn law_code_follows()
    ensures { CodeFollows }
{}
