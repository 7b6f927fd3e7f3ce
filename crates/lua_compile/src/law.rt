//! Laws of the definitions: the functions do nothing, and the contract of each is a law.

ghost use Rattle.lua_compile.specs.Laws.{CompiledCodeServes, CompiledCodeIsValid, ChunksHaveCode};
ghost use Rattle.lua_compile.specs.Worked.{CompiledChunksAreAsInLua};

/// Whichever locals go to cells, the code of a chunk serves it, if nothing in it was without code.
pub fn law_compiled_code_serves()
    ensures { CompiledCodeServes }
{}

/// And it is valid: each jump, slot, cell, constant and function number is in range, each path returns, and each jump back pays.
pub fn law_compiled_code_is_valid()
    ensures { CompiledCodeIsValid }
{}

/// Where each local goes to a cell, all terms have code but those that make or read a table or name what no local has.
pub fn law_chunks_have_code()
    ensures { ChunksHaveCode }
{}

/// Small chunks, compiled and run, give what Lua 5.4 gives.
pub fn law_worked_chunks()
    ensures { CompiledChunksAreAsInLua }
{}
