ghost use Rattle.std.specs.Prelude.{◌↔◌, IsTrue, Contains, ◌≡◌, ◌≤◌, ◌+◌, ◌∷◌, ◌++◌, [], None, OnOk, OnErr, IfSome, find, position, length, vec_len, vec_capacity};
ghost use Rattle.std.specs.List.{list_any};
ghost use Rattle.std.specs.Option.{option_map};
ghost use Rattle.launcher.specs.Rows.{without, at_first, is_served, is_pending, is_served_as, is_pending_as, is_held_as, held as held_lem};
ghost use Rattle.launcher.specs.Listed.{pending_in, AllBelow, StartsServed};
ghost use Rattle.launcher.specs.declared.desk.Role.TheVariants.{Pending};

use crate::desk::{Role, Taken};
use crate::handles::is_last;
use message::{Held, HeldList};
use sk_types::{Handle, NoMemory, Session};
use std::alloc::Global;
use std::collections::BTreeMap;
use std::marker::Model;
use std::mem;

/// The held requests. Contracts see their list, in the order taken.
#[derive(Drop)]
pub struct Requests {
    alloc: Global,
    /// The pending launches whose handles rise, as handles are drawn in turn.
    pending: BTreeMap<Handle, Held>,
    /// Those taken since: the one that is served, and those that get no answer.
    others: Vec<Taken>,
    /// Room to hand them out: it is empty, and holds as many as there are.
    room: Vec<Held>,
}

impl Model for Requests {
    ghost use Rattle.std.specs.Prelude.{◌≡◌, ◌≤◌, ◌+◌, ◌++◌, length, vec_len, vec_capacity, List};
    ghost use Rattle.launcher.specs.declared.desk.Taken.{Taken};
    ghost use Rattle.launcher.specs.Listed.{pending_in};

    ghost Value = { List Taken };

    ghost view = { λ r. pending_in r.pending.entries ++ r.others.items };

    ghost invariant = { λ r. (vec_len r.room ≡ 0) × (length r.pending.entries + length r.others.items ≤ vec_capacity r.room) };
}

impl Requests {
    pub fn new(alloc: Global) -> Requests
        ensures { result ≡ [] }
    {
        Requests {
            alloc,
            pending: BTreeMap::new(alloc),
            others: Vec::new(alloc),
            room: Vec::new(alloc),
        }
    }

    /// Holds one more.
    pub fn push(&mut self, taken: Taken) -> Result<(), NoMemory>
        ensures ok { OnOk result (self.new ≡ self.old ++ taken ∷ []) }
        ensures err { OnErr result (self.new ≡ self.old) }
    {
        let many = self.pending.len() + self.others.len();
        self.room.reserve(many + 1)?;
        self.others.push(taken)?;
        Ok(())
    }

    /// The one that is served is held no more.
    pub fn take_served(&mut self) -> Option<Held>
        ensures found { result ≡ option_map (λ t. t.held) (find is_served self.old) }
        ensures rest { self.new ≡ without is_served self.old }
        ensures same { result ≡ None → self.new ≡ self.old }
    {
        match take_served(&mut self.others) {
            None => None,
            Some(taken) => Some(taken.held),
        }
    }

    /// The one that waits for this handle is held no more.
    pub fn take_pending(&mut self, handle: Handle) -> Option<Held>
        ensures found { result ≡ option_map (λ t. t.held) (find (is_pending handle) self.old) }
        ensures rest { self.new ≡ without (is_pending handle) self.old }
        ensures same { result ≡ None → self.new ≡ self.old }
    {
        match self.pending.remove(&handle) {
            Some(held) => Some(held),
            None => match take_pending(&mut self.others, handle) {
                None => None,
                Some(taken) => Some(taken.held),
            },
        }
    }

    /// The one that is served waits for this handle from now on.
    pub fn pends(&mut self, handle: Handle) -> Result<(), NoMemory>
        ensures ok { OnOk result (self.new ≡ at_first is_served (λ t. record { role = Pending handle; held = t.held }) self.old) }
        ensures err { OnErr result (self.new ≡ self.old) }
    {
        match comes_last(&self.pending, &self.others, handle) {
            Some(held) => {
                let Ok(_) = self.pending.insert(handle, held) else {
                    return Err(NoMemory);
                };
                let _ = self.others.remove(0);
            }
            None => pend_served(&mut self.others, handle),
        }
        Ok(())
    }

    /// Hands them out, in the order taken.
    pub fn hand_out(&mut self) -> HeldList
        ensures held { result ≡ held_lem self.old }
        ensures after { self.new ≡ [] }
    {
        fill_pending(&mut self.room, &self.pending);
        fill(&mut self.room, &self.others);
        self.pending.clear();
        self.others.clear();
        HeldList::from_vec(mem::replace(&mut self.room, Vec::new(self.alloc)))
    }

    /// Whether a request of this source and session is held.
    pub fn holds(&self, source: Handle, session: Session) -> bool
        ensures { IsTrue result ↔ Contains (held_lem self.now) (record { source = source; session = session }) }
    {
        is_held(&self.pending, &self.others, source, session)
    }
}

fn is_held(
    pending: &BTreeMap<Handle, Held>,
    others: &[Taken],
    source: Handle,
    session: Session,
) -> bool
    ensures { IsTrue result ↔ Contains (held_lem (pending_in pending.now.entries ++ others.now)) (record { source = source; session = session }) }
{
    any_held(pending, others, source, session)
}

fn any_held(
    pending: &BTreeMap<Handle, Held>,
    others: &[Taken],
    source: Handle,
    session: Session,
) -> bool
    ensures { result ≡ list_any (λ x. is_held_as source session x.held) (pending_in pending.now.entries ++ others.now) }
{
    if any_pending(pending, source, session) {
        return true;
    }
    any_other(others, source, session)
}

fn any_pending(pending: &BTreeMap<Handle, Held>, source: Handle, session: Session) -> bool
    ensures { result ≡ list_any (λ x. is_held_as source session x.held) (pending_in pending.now.entries) }
{
    for (_handle, held) in pending {
        if is_held_as(*held, source, session) {
            return true;
        }
    }
    false
}

fn any_other(others: &[Taken], source: Handle, session: Session) -> bool
    ensures { result ≡ list_any (λ x. is_held_as source session x.held) others.now }
{
    others.iter().any(|t| t.held.source.0 == source.0 && t.held.session.0 == session.0)
}

fn is_held_as(held: Held, source: Handle, session: Session) -> bool
    ensures { result ≡ is_held_as source session held }
{
    held.source.0 == source.0 && held.session.0 == session.0
}

/// Puts the pending ones into the room that was made for all.
fn fill_pending(room: &mut Vec<Held>, pending: &BTreeMap<Handle, Held>)
    requires { (vec_len room.old ≡ 0) × (length pending.now.entries ≤ vec_capacity room.old) }
    ensures all { room.new.items ≡ held_lem (pending_in pending.now.entries) }
    ensures room { vec_capacity room.new ≡ vec_capacity room.old }
{
    for (_handle, held) in pending {
        room.push_reserved(*held);
    }
}

/// Puts the others behind them.
fn fill(room: &mut Vec<Held>, others: &[Taken])
    requires { vec_len room.old + length others.now ≤ vec_capacity room.old }
    ensures { room.new.items ≡ room.old.items ++ held_lem others.now }
{
    for one in others {
        room.push_reserved(one.held);
    }
}

/// The request that is served, where it stands first among the others and this handle is greater than all that are pending.
fn comes_last(pending: &BTreeMap<Handle, Held>, others: &[Taken], handle: Handle) -> Option<Held>
    ensures last { IfSome result (λ x. AllBelow handle pending.now.entries) }
    ensures first { IfSome result (λ x. StartsServed x others.now) }
{
    if !is_last(pending, handle) {
        return None;
    }
    first_served(others)
}

fn first_served(others: &[Taken]) -> Option<Held>
    ensures { IfSome result (λ x. StartsServed x others.now) }
{
    match others {
        [first, ..] => match first.role {
            Role::Served => Some(first.held),
            Role::Pending(_) | Role::Kept => None,
        },
        [] => None,
    }
}

fn is_served(role: &Role) -> bool
    ensures { result ≡ is_served_as role.now }
{
    matches!(role, Role::Served)
}

fn is_pending(role: &Role, handle: Handle) -> bool
    ensures { result ≡ is_pending_as handle role.now }
{
    match role {
        Role::Pending(launched) => launched.0 == handle.0,
        Role::Served | Role::Kept => false,
    }
}

fn place_of_served(taken: &[Taken]) -> Option<usize>
    ensures { result ≡ position is_served taken.now }
{
    taken.iter().position(|t| is_served(&t.role))
}

fn place_of_pending(taken: &[Taken], handle: Handle) -> Option<usize>
    ensures { result ≡ position (is_pending handle) taken.now }
{
    taken.iter().position(|t| is_pending(&t.role, handle))
}

#[tactic(auto, using(crate::proofs::Firsts::first_taken))]
fn take_served(taken: &mut Vec<Taken>) -> Option<Taken>
    ensures found { result ≡ find is_served taken.old.items }
    ensures rest { taken.new.items ≡ without is_served taken.old.items }
    ensures same { result ≡ None → taken.new.items ≡ taken.old.items }
    ensures fewer { length taken.new.items ≤ length taken.old.items }
{
    match place_of_served(taken) {
        None => None,
        Some(at) => Some(taken.remove(at)),
    }
}

#[tactic(auto, using(crate::proofs::Firsts::first_taken))]
fn take_pending(taken: &mut Vec<Taken>, handle: Handle) -> Option<Taken>
    ensures found { result ≡ find (is_pending handle) taken.old.items }
    ensures rest { taken.new.items ≡ without (is_pending handle) taken.old.items }
    ensures same { result ≡ None → taken.new.items ≡ taken.old.items }
    ensures fewer { length taken.new.items ≤ length taken.old.items }
{
    match place_of_pending(taken, handle) {
        None => None,
        Some(at) => Some(taken.remove(at)),
    }
}

fn pend_served(taken: &mut Vec<Taken>, handle: Handle)
    ensures pends { taken.new.items ≡ at_first is_served (λ t. record { role = Pending handle; held = t.held }) taken.old.items }
    ensures many { length taken.new.items ≡ length taken.old.items }
{
    match place_of_served(taken) {
        None => {}
        Some(at) => {
            let held = taken[at].held;
            taken[at] = Taken {
                role: Role::Pending(handle),
                held,
            };
        }
    }
}
