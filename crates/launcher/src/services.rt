ghost use Rattle.std.specs.Prelude.{◌≡◌, ◌∷◌, ◌++◌, [], IfOk, OnOk, OnErr, IsTrue, find, position, map};
ghost use Rattle.launcher.specs.Rows.{without, is_service, entry};
ghost use Rattle.launcher.specs.Listed.{services_in, AllBelow};

use crate::desk::Service;
use crate::handles::is_last;
use crate::replies::entry;
use message::Pairs;
use sk_types::{Bytes, Handle, NoMemory};
use sqlite_items::Items;
use std::alloc::Global;
use std::collections::BTreeMap;
use std::marker::Model;

/// The services that are listed. Contracts see their list, in the order of their launches.
#[derive(Drop)]
pub struct Services {
    by_handle: BTreeMap<Handle, Bytes>,
    /// Those launched after one of a greater handle, and all after them: none where handles are drawn in turn.
    late: Vec<Service>,
}

impl Model for Services {
    ghost use Rattle.std.specs.Prelude.{List, ◌++◌};
    ghost use Rattle.launcher.specs.declared.desk.Service.{Service};
    ghost use Rattle.launcher.specs.Listed.{services_in};

    ghost Value = { List Service };

    ghost view = { λ s. services_in s.by_handle.entries ++ s.late.items };
}

impl Services {
    pub fn new(alloc: Global) -> Services
        ensures { result ≡ [] }
    {
        Services {
            by_handle: BTreeMap::new(alloc),
            late: Vec::new(alloc),
        }
    }

    /// Lists one more.
    pub fn push(&mut self, service: Service) -> Result<(), NoMemory>
        ensures ok { OnOk result (self.new ≡ self.old ++ service ∷ []) }
        ensures err { OnErr result (self.new ≡ self.old) }
    {
        if comes_last(&self.by_handle, &self.late, service.handle) {
            let Ok(_) = self.by_handle.insert(service.handle, service.name) else {
                return Err(NoMemory);
            };
            return Ok(());
        }
        self.late.push(service)?;
        Ok(())
    }

    /// The first of this handle is listed no more.
    pub fn remove(&mut self, handle: Handle)
        ensures { self.new ≡ without (is_service handle) self.old }
    {
        match self.by_handle.remove(&handle) {
            Some(_name) => {}
            None => remove_late(&mut self.late, handle),
        }
    }

    /// What a list of them says.
    pub fn entries(&self, alloc: Global) -> Result<Pairs, NoMemory>
        ensures { IfOk result (λ p. p ≡ map entry self.now) }
    {
        let pairs = entries_by_handle(alloc, &self.by_handle)?;
        with_late(alloc, pairs, &self.late)
    }
}

/// Whether this handle is greater than those of all that are listed.
fn comes_last(by_handle: &BTreeMap<Handle, Bytes>, late: &[Service], handle: Handle) -> bool
    ensures late { IsTrue result → late.now ≡ [] }
    ensures last { IsTrue result → AllBelow handle by_handle.now.entries }
{
    if !late.is_empty() {
        return false;
    }
    is_last(by_handle, handle)
}

fn entries_by_handle(alloc: Global, by_handle: &BTreeMap<Handle, Bytes>) -> Result<Pairs, NoMemory>
    ensures { IfOk result (λ p. p ≡ map entry (services_in by_handle.now.entries)) }
{
    let mut pairs = Items::new(alloc);
    for (handle, name) in by_handle {
        pairs.push(entry(alloc, *handle, name)?)?;
    }
    Ok(pairs)
}

fn with_late(alloc: Global, pairs: Pairs, late: &[Service]) -> Result<Pairs, NoMemory>
    ensures { IfOk result (λ p. p ≡ pairs ++ map entry late.now) }
{
    let mut pairs = pairs;
    for service in late {
        pairs.push(entry(alloc, service.handle, &service.name)?)?;
    }
    Ok(pairs)
}

fn place_of_late(late: &[Service], handle: Handle) -> Option<usize>
    ensures { result ≡ position (is_service handle) late.now }
{
    late.iter().position(|s| s.handle.0 == handle.0)
}

#[tactic(auto, using(crate::proofs::Firsts::first_taken))]
fn remove_late(late: &mut Vec<Service>, handle: Handle)
    ensures { late.new.items ≡ without (is_service handle) late.old.items }
{
    if let Some(at) = place_of_late(late, handle) {
        let _ = late.remove(at);
    }
}
