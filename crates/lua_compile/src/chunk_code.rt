//! The code of whole chunks.

ghost use Rattle.std.specs.Prelude.{◌≡◌, [], IfOk, IsErrOf};
ghost use Rattle.lua_tree.specs.View.{block_of};
ghost use Rattle.lua_code.specs.Valid.{IsValid};
ghost use Rattle.lua_steps.specs.Serves.{Serves};
ghost use Rattle.lua_compile.specs.HasCode.{HasCode};
ghost use Rattle.lua_compile.specs.Written.{chunk_written};
ghost use Rattle.lua_compile.specs.Compiled.{compiled};

use crate::scope::Scope;
use crate::statement::write_body;
use crate::writer::Writer;
use lua_code::Code;
use lua_scope::Scoped;
use lua_tree::Block;
use sk_types::{Bytes, NoMemory};
use std::alloc::Global;
use thiserror::Error;

/// Why a chunk got no code.
#[derive(Clone, Copy, Debug, PartialEq, Eq, Error)]
pub enum CompileError {
    #[error("out of memory")]
    Memory,
    /// It makes or reads a table, or names a global variable.
    #[error("a table or a global variable has no code")]
    NoCode,
}

impl From<NoMemory> for CompileError {
    ghost use Rattle.std.specs.Prelude.{◌≡◌};
    ghost use Rattle.lua_compile.specs.declared.chunk_code.CompileError.TheVariants.{Memory};

    ghost from_gives = { λ _ error. error ≡ Memory };

    fn from(_error: NoMemory) -> CompileError {
        CompileError::Memory
    }
}

/// The code of a chunk, whose locals with these flags go to cells, and whether something had no code.
pub fn write_chunk(alloc: Global, block: &Block, flags: &[bool]) -> Result<(Code, bool), NoMemory>
    ensures code { IfOk result (λ c. c.0 ≡ (chunk_written flags.now (block_of block.now)).made) }
    ensures lost { IfOk result (λ c. c.1 ≡ (chunk_written flags.now (block_of block.now)).lost) }
{
    let mut w = Writer::new(alloc, flags)?;
    let outside = Scope::new(alloc);
    let names: Vec<Bytes> = Vec::new(alloc);
    let chunk = write_body(&mut w, &outside, names.as_slice(), true, block)?;
    w.resume(chunk)?;
    Ok(w.into_parts())
}

// All locals go to cells.
#[tactic(auto, using(crate::proofs::CodeLemmas::without_code))]
fn compile_with_cells(alloc: Global, chunk: &Block) -> Result<Code, CompileError>
    ensures valid { IfOk result (λ code. IsValid code) }
    ensures serves { IfOk result (λ code. Serves code (block_of chunk.now)) }
    ensures code { IfOk result (λ code. code ≡ (chunk_written [] (block_of chunk.now)).made) }
    ensures refused { IsErrOf result CompileError.NoCode → HasCode (block_of chunk.now) → ⊥ }
{
    let (code, lost) = write_chunk(alloc, chunk, &[])?;
    if lost {
        return Err(CompileError::NoCode);
    }
    Ok(code)
}

/// The code of a chunk that makes and reads no table and names no global variable; any other may be refused. It is valid and serves
/// the chunk: a local that a closure captures, as `scoped` tells, is in a cell, and any other in a slot. Where `scoped` is of another
/// chunk, so that a captured local would be in a slot, all locals are in cells.
///
/// # Errors
/// `NoCode` tells that the chunk makes or reads a table or names a global variable. `Memory` is want of memory; a chunk with more
/// slots, cells or operations than an operation can name gets it too, and no chunk that the parser reads comes near that.
#[tactic(auto, using(crate::proofs::CodeLemmas::by_flags, crate::proofs::CodeLemmas::by_cells))]
pub fn compile(alloc: Global, chunk: &Block, scoped: &Scoped) -> Result<Code, CompileError>
    ensures valid { IfOk result (λ code. IsValid code) }
    ensures serves { IfOk result (λ code. Serves code (block_of chunk.now)) }
    ensures code { IfOk result (λ code. code ≡ compiled scoped.now.captured (block_of chunk.now)) }
    ensures refused { IsErrOf result CompileError.NoCode → HasCode (block_of chunk.now) → ⊥ }
{
    let (code, lost) = write_chunk(alloc, chunk, scoped.captured())?;
    if lost {
        return compile_with_cells(alloc, chunk);
    }
    Ok(code)
}
