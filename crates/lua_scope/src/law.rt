//! Worked cases of the definitions: the function does nothing, and its contract is the law.

ghost use Rattle.lua_scope.specs.Worked.{ScopesAreAsInLua};

/// Small chunks have the scopes that the manual gives them.
pub fn law_worked_scopes()
    ensures { ScopesAreAsInLua }
{}
