ghost use Rattle.std.specs.Prelude.{◌≡◌, ℕ, List, map, string_bytes, cond, true, if◌then◌else◌, IfOk, OnOk};
ghost use Rattle.std.specs.BTreeSet.{contains_text};
ghost use Rattle.std.specs.List.Sorted.{IsStrictlySortedBy};
ghost use Rattle.std.specs.Str.{bytes_eq};
ghost use Rattle.std.specs.String.{string_cmp};
ghost use Rattle.runner.specs.Scripts.{is_script};
ghost use Rattle.tools.specs.Report.{AreScripts};

use runner::is_script;
use std::alloc::{AllocError, Global};
use std::collections::BTreeSet;

/// The names of the scripts among these names, each once, in byte order.
pub fn script_names(alloc: Global, listed: &[String]) -> Result<Vec<String>, AllocError>
    ensures { IfOk result (λ names. AreScripts (map string_bytes listed.now) (map string_bytes names.items)) }
{
    let mut names = BTreeSet::new(alloc);
    for name in listed {
        add_script(alloc, &mut names, name.as_str())?;
    }
    in_order(alloc, names)
}

/// Adds a name, where it is a script's.
fn add_script(alloc: Global, names: &mut BTreeSet<String>, name: &str) -> Result<(), AllocError>
    ensures { OnOk result ((other : List ℕ) → contains_text names.new other ≡ (if is_script name.now then cond (bytes_eq name.now other) true (contains_text names.old other) else contains_text names.old other)) }
{
    if is_script(name) {
        names.insert(String::from_str(alloc, name)?)?;
    }
    Ok(())
}

/// The names of a set as a list.
fn in_order(alloc: Global, names: BTreeSet<String>) -> Result<Vec<String>, AllocError>
    ensures list { IfOk result (λ list. list.items ≡ names.keys) }
    ensures order { IsStrictlySortedBy string_cmp names.keys }
{
    names.into_iter().collect(alloc)
}
