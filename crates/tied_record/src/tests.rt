//! Two agents on two threads, and a place under a lock.

ghost use Rattle.std.specs.Prelude.{◌≡◌, ◌++◌, ◌∷◌, []};
ghost use Rattle.tie.specs.Rules.{Has};
ghost use Rattle.tied_record.specs.Tied.{IsMaster};

use crate::{Entered, Naming, OfAgent, OfPlace, TiedRecord, agree, enter, number};
use message::{Entry, Place, What};
use sk_types::{Handle, NoMemory, Stamp};
use std::alloc::Global;
use std::marker::Brand;
use std::sync::{Mutex, Wait};
use std::test::Fail;
use std::thread::{Threads, join};
use tie::{Master, Root, Tie};

/// An agent's record, and the master that makes its pairs.
#[derive(Drop)]
struct Agent<B: Naming> {
    trail: TiedRecord<B, OfAgent>,
    master: Master<Entry>,
    ghost lord: { IsMaster B.table trail master },
}

const PLACE: Place = Place::Inbox(Handle(9));

const COUNT: u64 = 1000;

fn new_agent<B: Naming>(
    alloc: Global,
    tie: &Tie<Entry>,
    root: &mut Root<Entry>,
    handle: Handle,
) -> Agent<B>
    requires tie { tie.now ≡ B.table }
    requires root { root.old.table ≡ B.table }
    requires fresh { ¬ (Has root.old.agents handle.0) }
    ensures root { (root.new.table ≡ root.old.table) × (root.new.agents ≡ root.old.agents ++ handle.0 ∷ []) }
    ensures own { result.trail.own ≡ handle.0 }
{
    Agent {
        master: root.master(tie, handle.0 as u64),
        trail: TiedRecord::new(alloc, handle.0 as u64),
    }
}

/// The agent acts at the place.
fn act<B: Naming>(
    alloc: Global,
    tie: &Tie<Entry>,
    agent: &mut Agent<B>,
    handle: Handle,
    place: &mut TiedRecord<B, OfPlace>,
    count: u64,
) -> Result<bool, NoMemory>
    requires tie { tie.now ≡ B.table }
    requires agent { handle.0 ≡ agent.old.trail.own }
    ensures own { (agent.new.trail.own ≡ agent.old.trail.own) × (place.new.own ≡ place.old.own) }
{
    if place.own() != number(&PLACE) {
        return Ok(false);
    }
    let entry = Entry {
        stamp: Stamp(count),
        agent: handle,
        place: PLACE,
        what: What::Now(count),
    };
    let copy = entry.copy(alloc)?;
    let entered = enter(tie, &mut agent.master, &mut agent.trail, place, entry, copy)?;
    Ok(entered == Entered::Both)
}

/// The agent acts many times, each time under the place's lock.
fn work<B: Naming, R: Wait>(
    rt: &R,
    alloc: Global,
    tie: &Tie<Entry>,
    mut agent: Agent<B>,
    handle: Handle,
    place: &Mutex<TiedRecord<B, OfPlace>>,
) -> Agent<B>
    requires tie { tie.now ≡ B.table }
    requires own { handle.0 ≡ agent.trail.own }
{
    for count in 0..COUNT {
        match act(alloc, tie, &mut agent, handle, &mut place.lock(rt), count) {
            Ok(true) => (),
            _ => return agent,
        }
    }
    agent
}

/// How many entries the agents and the place have, where the records agree.
fn counted<B: Naming>(
    tie: &Tie<Entry>,
    one: Agent<B>,
    two: Agent<B>,
    mut place: TiedRecord<B, OfPlace>,
) -> Option<(usize, usize, usize)>
    requires tie { tie.now ≡ B.table }
{
    let Agent {
        trail: mut one,
        master: _,
    } = one;
    let Agent {
        trail: mut two,
        master: _,
    } = two;
    if !agree(tie, &mut one, &mut place) || !agree(tie, &mut two, &mut place) {
        return None;
    }
    Some((
        one.entries().len(),
        two.entries().len(),
        place.entries().len(),
    ))
}

fn two_agents<B: Naming + Send + Sync, R: Threads + Wait + Sync>(
    rt: &R,
    alloc: Global,
    tie: &Tie<Entry>,
    mut root: Root<Entry>,
) -> Option<(usize, usize, usize)>
    requires tie { tie.now ≡ B.table }
    requires root { root ≡ record { table = B.table; agents = [] } }
{
    let one: Agent<B> = new_agent(alloc, tie, &mut root, Handle(1));
    let two: Agent<B> = new_agent(alloc, tie, &mut root, Handle(2));
    let place = Mutex::new(TiedRecord::<B, OfPlace>::new(alloc, number(&PLACE)));
    let (one, two) = join(
        rt,
        || -> Agent<B>
            requires { (tie.now ≡ B.table) × (1 ≡ one.trail.own) }
        { work(rt, alloc, tie, one, Handle(1), &place) },
        || -> Agent<B>
            requires { (tie.now ≡ B.table) × (2 ≡ two.trail.own) }
        { work(rt, alloc, tie, two, Handle(2), &place) },
    );
    counted(tie, one, two, place.into_inner())
}

#[test]
fn records_of_two_threads_agree(rt: HostRuntime) -> Result<(), Fail> {
    let (tie, root) = Tie::new(rt.alloc())?;
    let counts = two_agents::<Brand, HostRuntime>(&rt, rt.alloc(), &tie, root);
    assert_eq!(rt; counts, Some((1000, 1000, 2000)));
    Ok(())
}
