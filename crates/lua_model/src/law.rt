//! Laws and worked cases of the definitions: each function does nothing, and its contract is the law.

ghost use Rattle.lua_model.specs.Worked.{IntegersAreAsInLua, NumbersAreOfBytes};

/// Integers at the ends of their range, with the values that Lua 5.4 gives.
pub fn law_integers()
    ensures { IntegersAreAsInLua }
{}

/// Equal bytes have one number, whatever is made in between, and the number gives the bytes back.
pub fn law_texts()
    ensures { NumbersAreOfBytes }
{}
