ghost use Rattle.std.specs.Prelude.{IsTrue};
ghost use Rattle.launcher.specs.Listed.{AllBelow};

use sk_types::Handle;
use std::collections::BTreeMap;

/// Whether this handle is greater than all of the map.
pub fn is_last<T>(by_handle: &BTreeMap<Handle, T>, handle: Handle) -> bool
    ensures { IsTrue result → AllBelow handle by_handle.now.entries }
{
    match by_handle.last_key_value() {
        Some((last, _value)) => last.0 < handle.0,
        None => true,
    }
}
