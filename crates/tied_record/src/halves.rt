//! The halves of a record, in a map. One that is taken out leaves its place, so that no memory is wanted to put it back.

ghost use Rattle.std.specs.Prelude.{◌≡◌, ℕ, ◌==◌, cond, Some, None, OnOk, OnErr};
ghost use Rattle.std.specs.Ordering.{nat_cmp};
ghost use Rattle.std.specs.BTreeMap.{get};
ghost use Rattle.tied_record.specs.Halves.{IsHere, Holds, IsSame, IsSet};

use message::Entry;
use sk_types::NoMemory;
use std::collections::BTreeMap;
use tie::Half;

pub(crate) type Halves = BTreeMap<u64, Option<Half<Entry>>>;

/// Makes an empty place for an end that has none.
pub(crate) fn make_place(halves: &mut Halves, key: u64) -> Result<(), NoMemory>
    requires { get nat_cmp halves.old key ≡ None }
    ensures ok { OnOk result (IsSet halves.old halves.new key (Some None)) }
    ensures err { OnErr result (IsSame halves.old halves.new) }
{
    halves.insert(key, None)?;
    Ok(())
}

/// Removes a place.
pub(crate) fn remove_place(halves: &mut Halves, key: u64)
    ensures { IsSet halves.old halves.new key None }
{
    halves.remove(&key);
}

/// Takes a half out of its place.
pub(crate) fn take(halves: &mut Halves, key: u64) -> Half<Entry>
    requires { IsHere halves.old key }
    ensures half { Holds halves.old key result }
    ensures rest { IsSet halves.old halves.new key (Some None) }
{
    let Some(place) = halves.get_mut(&key) else {
        unreachable!()
    };
    let Some(half) = place.take() else {
        unreachable!()
    };
    half
}

/// Puts a half into its place.
pub(crate) fn put(halves: &mut Halves, key: u64, half: Half<Entry>)
    requires { get nat_cmp halves.old key ≡ Some None }
    ensures { IsSet halves.old halves.new key (Some (Some half)) }
{
    let Some(place) = halves.get_mut(&key) else {
        unreachable!()
    };
    *place = Some(half);
}

/// Whether there is a half for an end.
pub(crate) fn has(halves: &Halves, key: u64) -> bool
    ensures { result ≡ is_some (get nat_cmp halves.now key) }
{
    halves.contains_key(&key)
}

ghost use Rattle.std.specs.Prelude.{is_some};
