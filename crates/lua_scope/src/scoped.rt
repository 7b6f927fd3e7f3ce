ghost use Rattle.std.specs.Prelude.{◌≡◌, ◌<◌, ℕ, length, IfOk};
ghost use Rattle.lua_tree.specs.View.{chunk_of};
ghost use Rattle.lua_scope.specs.Scope.{is_captured};
ghost use Rattle.lua_scope.specs.Scoped.{IsScoped, AreFlags, marked};

use crate::reader::read_chunk;
use crate::usage::Use;
use crate::walk::Walk;
use lua_tree::Chunk;
use sk_types::NoMemory;
use std::alloc::Global;
use std::marker::Model;

/// The names of a chunk, resolved.
#[derive(Drop)]
pub struct Scoped {
    uses: Vec<Use>,
    captured: Vec<bool>,
}

impl Model for Scoped {
    ghost use Rattle.lua_scope.specs.Scoped.{Resolved};

    ghost Value = { Resolved };

    ghost view = { λ s. record { uses = s.uses.items; captured = s.captured.items } };
}

impl Scoped {
    /// What each use of a name means, in the order of the text.
    pub fn uses(&self) -> &[Use]
        ensures { result.now ≡ self.now.uses }
    {
        self.uses.as_slice()
    }

    /// Whether a closure captures it, for each local in the order of the text.
    pub fn captured(&self) -> &[bool]
        ensures { result.now ≡ self.now.captured }
    {
        self.captured.as_slice()
    }
}

// An upvalue is a local that a closure captures.
fn mark(captured: &mut [bool], usage: Use)
    ensures { captured.new ≡ marked usage captured.old }
{
    if let Use::Upvalue(local) = usage {
        if (local as usize) < captured.len() {
            captured[local as usize] = true;
        }
    }
}

fn flags(alloc: Global, uses: &[Use], locals: usize) -> Result<Vec<bool>, NoMemory>
    ensures { IfOk result (λ v. AreFlags uses.now locals v.items) }
{
    let mut captured = vec![in alloc; false; locals]?;
    let marks = captured.as_mut_slice();
    for usage in uses {
        mark(marks, *usage);
    }
    Ok(captured)
}

/// What the names of a chunk mean (manual, section 3.5).
pub fn resolve(alloc: Global, chunk: &Chunk) -> Result<Scoped, NoMemory>
    ensures { IfOk result (λ s. IsScoped (chunk_of chunk.now) s) }
{
    let mut walk = Walk::new(alloc);
    read_chunk(&mut walk, &chunk.block)?;
    let captured = flags(alloc, walk.uses(), walk.locals())?;
    let uses = walk.into_uses();
    Ok(Scoped { uses, captured })
}
