ghost use Rattle.std.specs.Prelude.{◌≡◌, true, false, None, Some, IfOk, IsTrue, OnOk, OnErr};
ghost use Rattle.std.specs.Ordering.{nat_cmp};
ghost use Rattle.std.specs.BTreeMap.{get};
ghost use Rattle.tied_record.specs.Answers.{EnteredAs};
ghost use Rattle.tied_record.specs.Halves.{IsSame, IsSet};
ghost use Rattle.tied_record.specs.Tied.{Agree, IsMaster, IsTorn, at, entered, meets, number};

use crate::halves::{Halves, has, make_place, put, remove_place, take};
use crate::trail::{Naming, OfAgent, OfPlace, TiedRecord};
use message::Entry;
use sk_types::NoMemory;
use tie::{Master, Tie, add, same_list};

/// What became of an entry.
#[derive(Clone, Copy, Debug, PartialEq, Eq)]
pub enum Entered {
    /// It is in both records.
    Both,
    /// It is in none, since one of them has a half of the pair and the other has not.
    Neither,
}

/// Adds an entry to the record of its agent, and an equal one to that of its place.
pub fn enter<B: Naming>(
    tie: &Tie<Entry>,
    master: &mut Master<Entry>,
    mine: &mut TiedRecord<B, OfAgent>,
    yours: &mut TiedRecord<B, OfPlace>,
    entry: Entry,
    copy: Entry,
) -> Result<Entered, NoMemory>
    requires tie { tie.now ≡ B.table }
    requires master { IsMaster B.table mine.old master.old }
    requires agent { entry.agent.0 ≡ mine.old.own }
    requires place { number entry.place ≡ yours.old.own }
    requires copy { copy ≡ entry }
    ensures master { IsMaster B.table mine.new master.new }
    ensures done { IfOk result (EnteredAs entry mine.old yours.old mine.new yours.new) }
    ensures err { OnErr result ((mine.new ≡ mine.old) × (yours.new ≡ yours.old)) }
{
    let known = has(&mine.halves, yours.own);
    if known != has(&yours.halves, mine.own) {
        return Ok(Entered::Neither);
    }
    if known {
        enter_known(tie, mine, yours, entry, copy)?;
    } else {
        enter_new(tie, master, mine, yours, entry, copy)?;
    }
    Ok(Entered::Both)
}

/// Adds an entry of an agent and a place that have met.
fn enter_known<B: Naming>(
    tie: &Tie<Entry>,
    mine: &mut TiedRecord<B, OfAgent>,
    yours: &mut TiedRecord<B, OfPlace>,
    entry: Entry,
    copy: Entry,
) -> Result<(), NoMemory>
    requires tie { tie.now ≡ B.table }
    requires agent { entry.agent.0 ≡ mine.old.own }
    requires place { number entry.place ≡ yours.old.own }
    requires copy { copy ≡ entry }
    requires mine { meets (at false yours.old.own mine.old.entries) ≡ true }
    requires yours { meets (at true mine.old.own yours.old.entries) ≡ true }
    ensures ok { OnOk result ((mine.new ≡ entered entry mine.old) × (yours.new ≡ entered entry yours.old)) }
    ensures err { OnErr result ((mine.new ≡ mine.old) × (yours.new ≡ yours.old)) }
{
    mine.entries.reserve(1)?;
    yours.entries.reserve(1)?;
    let mut first = take(&mut mine.halves, yours.own);
    let mut second = take(&mut yours.halves, mine.own);
    add(tie, &mut first, &mut second, &entry);
    put(&mut mine.halves, yours.own, first);
    put(&mut yours.halves, mine.own, second);
    mine.entries.push_reserved(entry);
    yours.entries.push_reserved(copy);
    Ok(())
}

/// Adds the first entry of an agent at a place.
fn enter_new<B: Naming>(
    tie: &Tie<Entry>,
    master: &mut Master<Entry>,
    mine: &mut TiedRecord<B, OfAgent>,
    yours: &mut TiedRecord<B, OfPlace>,
    entry: Entry,
    copy: Entry,
) -> Result<(), NoMemory>
    requires tie { tie.now ≡ B.table }
    requires master { IsMaster B.table mine.old master.old }
    requires agent { entry.agent.0 ≡ mine.old.own }
    requires place { number entry.place ≡ yours.old.own }
    requires copy { copy ≡ entry }
    requires mine { meets (at false yours.old.own mine.old.entries) ≡ false }
    requires yours { meets (at true mine.old.own yours.old.entries) ≡ false }
    ensures master { IsMaster B.table mine.new master.new }
    ensures ok { OnOk result ((mine.new ≡ entered entry mine.old) × (yours.new ≡ entered entry yours.old)) }
    ensures err { OnErr result ((mine.new ≡ mine.old) × (yours.new ≡ yours.old)) }
{
    mine.entries.reserve(1)?;
    yours.entries.reserve(1)?;
    make_places(&mut mine.halves, yours.own, &mut yours.halves, mine.own)?;
    let (mut first, mut second) = master.pair(tie, yours.own);
    add(tie, &mut first, &mut second, &entry);
    put(&mut mine.halves, yours.own, first);
    put(&mut yours.halves, mine.own, second);
    mine.entries.push_reserved(entry);
    yours.entries.push_reserved(copy);
    Ok(())
}

/// Makes a place in each of two maps, or in none.
fn make_places(
    first: &mut Halves,
    place: u64,
    second: &mut Halves,
    agent: u64,
) -> Result<(), NoMemory>
    requires first { get nat_cmp first.old place ≡ None }
    requires second { get nat_cmp second.old agent ≡ None }
    ensures ok { OnOk result (IsSet first.old first.new place (Some None) × IsSet second.old second.new agent (Some None)) }
    ensures err { OnErr result (IsSame first.old first.new × IsSame second.old second.new) }
{
    make_place(first, place)?;
    let Err(error) = make_place(second, agent) else {
        return Ok(());
    };
    remove_place(first, place);
    Err(error)
}

/// Tells that the record of an agent and that of a place have the same entries of this agent at this place.
///
/// It is false only where one of them has a half of the pair and the other has not.
pub fn agree<B: Naming>(
    tie: &Tie<Entry>,
    mine: &mut TiedRecord<B, OfAgent>,
    yours: &mut TiedRecord<B, OfPlace>,
) -> bool
    requires tie { tie.now ≡ B.table }
    ensures agree { IsTrue result → Agree mine.old yours.old }
    ensures torn { result ≡ false → IsTorn mine.old yours.old }
    ensures mine { mine.new ≡ mine.old }
    ensures yours { yours.new ≡ yours.old }
{
    let known = has(&mine.halves, yours.own);
    if known != has(&yours.halves, mine.own) {
        return false;
    }
    if known {
        compare(tie, mine, yours);
    }
    true
}

/// Puts the two halves of a pair together, and takes them apart again.
fn compare<B: Naming>(
    tie: &Tie<Entry>,
    mine: &mut TiedRecord<B, OfAgent>,
    yours: &mut TiedRecord<B, OfPlace>,
)
    requires tie { tie.now ≡ B.table }
    requires mine { meets (at false yours.old.own mine.old.entries) ≡ true }
    requires yours { meets (at true mine.old.own yours.old.entries) ≡ true }
    ensures agree { Agree mine.old yours.old }
    ensures mine { mine.new ≡ mine.old }
    ensures yours { yours.new ≡ yours.old }
{
    let mut first = take(&mut mine.halves, yours.own);
    let mut second = take(&mut yours.halves, mine.own);
    same_list(tie, &mut first, &mut second);
    put(&mut mine.halves, yours.own, first);
    put(&mut yours.halves, mine.own, second);
}
