//! What is assigned to.

ghost use Rattle.std.specs.Prelude.{◌≡◌, IfOk};
ghost use Rattle.lua_tree.specs.declared.tree.Expr.{out-Expr};
ghost use Rattle.lua_tree.specs.declared.tree.Suffix.{out-Suffix};
ghost use Rattle.lua_grammar.specs.Parts.{element_of, target_of, variable_of};

use super::exprs::suffixed;
use lua_tree::{Expr, Suffix, Target};
use sk_types::{Bytes, NoMemory};
use sqlite_items::Items;
use std::alloc::Global;

/// The variable that an expression names.
fn variable(alloc: Global, expr: Expr) -> Target
    ensures { result ≡ variable_of expr (out-Expr expr) }
{
    match expr {
        Expr::Name(name) => Target::Variable(name),
        _ => Target::Variable(Bytes::new(alloc)),
    }
}

/// The element under the key of an index.
fn element(alloc: Global, table: Expr, suffix: Suffix) -> Target
    ensures { result ≡ element_of table (out-Suffix suffix) }
{
    match suffix {
        Suffix::Index(key, line) => Target::Element(table, key, line),
        _ => Target::Variable(Bytes::new(alloc)),
    }
}

/// The target that a prefix is.
#[tactic(auto, using(crate::proofs::Targets::target_last, crate::proofs::Targets::target_none))]
pub fn target(alloc: Global, base: Expr, mut suffixes: Items<Suffix>) -> Result<Target, NoMemory>
    ensures { IfOk result (λ target. target ≡ target_of base suffixes) }
{
    match suffixes.pop() {
        Some(last) => {
            let table = suffixed(alloc, base, suffixes)?;
            Ok(element(alloc, table, last))
        }
        None => Ok(variable(alloc, base)),
    }
}
