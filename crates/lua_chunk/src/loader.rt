ghost use Rattle.std.specs.Prelude.{◌≡◌, IfOk, IfErr};
ghost use Rattle.sk_types.specs.declared.fault.SyntaxFault.{SyntaxFault};
ghost use Rattle.lua_tree.specs.declared.tree.Chunk.{Chunk};
ghost use Rattle.lua_tree.specs.View.{chunk_of};
ghost use Rattle.lua_syntax.specs.Script.{IsFault, Reads};
ghost use Rattle.lua_code.specs.Valid.{IsValid};
ghost use Rattle.lua_steps.specs.Serves.{Serves};
ghost use Rattle.lua_compile.specs.HasCode.{HasCode};
ghost use Rattle.lua_chunk.specs.Load.{Begins, ComesTo, HasCause, IsLoaded, LacksCodeIf, Refuses, Succeeds};

use lua_code::Code;
use lua_compile::{CompileError, compile};
use lua_machine::{Machine, Stop};
use lua_scope::resolve;
use lua_syntax::{ParseError, law_one_reading, parse};
use lua_tree::Chunk;
use lua_value::Values;
use sk_types::{Bytes, NoMemory, SyntaxFault};
use std::alloc::Global;
use thiserror::Error;

/// Why a text gave no machine.
#[derive(Clone, Copy, Debug, PartialEq, Eq, Error)]
pub enum LoadError {
    #[error("out of memory")]
    Memory,
    /// It does not read.
    #[error("{0}")]
    Fault(SyntaxFault),
    /// It makes or reads a table, calls a method or names a global variable.
    #[error("a table or a global variable has no code")]
    NoCode,
}

impl From<NoMemory> for LoadError {
    ghost use Rattle.std.specs.Prelude.{◌≡◌};
    ghost use Rattle.lua_chunk.specs.declared.loader.LoadError.TheVariants.{Memory};

    ghost from_gives = { λ _ error. error ≡ Memory };

    fn from(_error: NoMemory) -> LoadError {
        LoadError::Memory
    }
}

// The text as a tree.
fn read(alloc: Global, text: &[u8]) -> Result<Chunk, LoadError>
    ensures reads { IfOk result (λ chunk. Reads text.now chunk) }
    ensures cause { IfErr result (HasCause text.now) }
    ensures refused { (f : SyntaxFault) → IsFault text.now f → Refuses f result }
    ensures succeeds { (chunk : Chunk) → Reads text.now chunk → Succeeds result }
{
    match parse(alloc, text) {
        Ok(chunk) => Ok(chunk),
        Err(ParseError::Memory) => Err(LoadError::Memory),
        Err(ParseError::Fault(fault)) => Err(LoadError::Fault(fault)),
    }
}

// The code of a tree.
fn code_of(alloc: Global, chunk: &Chunk) -> Result<Code, LoadError>
    ensures valid { IfOk result (λ code. IsValid code) }
    ensures serves { IfOk result (λ code. Serves code (chunk_of chunk.now)) }
    ensures cause { IfErr result (LacksCodeIf (chunk_of chunk.now)) }
{
    let scoped = resolve(alloc, chunk)?;
    match compile(alloc, &chunk.block, &scoped) {
        Ok(code) => Ok(code),
        Err(CompileError::Memory) => Err(LoadError::Memory),
        Err(CompileError::NoCode) => Err(LoadError::NoCode),
    }
}

/// A machine that has not run, with code for the chunk that a text reads as (Lua 5.4 manual, section 3.3.2). Errors of the chunk name
/// the script by `name`. It has `budget` ticks a message and a heap of `units` units.
///
/// # Errors
/// `Fault` is the text's first fault, of a text that reads as no chunk. `NoCode` tells that the chunk makes or reads a table, calls a
/// method or names a global variable. `Memory` is want of memory.
pub fn load(
    alloc: Global,
    text: &[u8],
    name: Bytes,
    budget: u64,
    units: u64,
) -> Result<Machine, LoadError>
    ensures machine { IfOk result (λ m. IsLoaded text.now name budget units m) }
    ensures begins { IfOk result (λ m. Begins text.now name budget units m) }
    ensures cause { IfErr result (HasCause text.now) }
    ensures refused { (f : SyntaxFault) → IsFault text.now f → Refuses f result }
    ensures succeeds { (chunk : Chunk) → Reads text.now chunk → HasCode (chunk_of chunk) → Succeeds result }
{
    law_one_reading();
    let chunk = read(alloc, text)?;
    let code = code_of(alloc, &chunk)?;
    let machine = Machine::new(alloc, code, name, budget, units)?;
    Ok(machine)
}

/// A chunk that has run to a stop, and the machine that ran it.
#[derive(Drop)]
pub struct Stopped {
    pub machine: Machine,
    pub stop: Stop,
}

/// Runs a text with these values to its first stop: the results or the error of the chunk that it reads as, its first call of the host,
/// or the limit that it passes. The other arguments and the errors are those of `load`.
pub fn run(
    alloc: Global,
    text: &[u8],
    name: Bytes,
    budget: u64,
    units: u64,
    values: Values,
) -> Result<Stopped, LoadError>
    ensures outcome { IfOk result (λ r. ComesTo text.now name budget units values r.stop r.machine) }
    ensures cause { IfErr result (HasCause text.now) }
    ensures refused { (f : SyntaxFault) → IsFault text.now f → Refuses f result }
{
    let mut machine = load(alloc, text, name, budget, units)?;
    match machine.go(values) {
        Ok(stop) => Ok(Stopped { machine, stop }),
        // A machine that was loaded is neither stuck nor spent.
        Err(_) => Err(LoadError::Memory),
    }
}
