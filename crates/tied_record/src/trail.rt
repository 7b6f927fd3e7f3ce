ghost use Rattle.std.specs.Prelude.{◌≡◌, []};
ghost use Rattle.tied_record.specs.Tied.{number};

use message::{Entry, Place};
use std::alloc::Global;
use std::collections::BTreeMap;
use std::marker::{Brand, Model, PhantomData};
use tie::Half;

/// Which table the halves are of. Each run picks it.
pub trait Naming {
    ghost use Rattle.atomic_table.specs.Seated.{TableId};

    ghost table: { TableId };
}

impl Naming for Brand {
    ghost use Rattle.tied_record.specs.Names.{no_table};

    ghost table = { no_table };
}

/// Whether a record is a place's.
pub trait Side {
    ghost use Rattle.std.specs.Prelude.{Bool};

    ghost side: { Bool };
}

/// A record is an agent's.
pub struct OfAgent;

impl Side for OfAgent {
    ghost use Rattle.std.specs.Prelude.{false};

    ghost side = { false };
}

/// A record is a place's.
pub struct OfPlace;

impl Side for OfPlace {
    ghost use Rattle.std.specs.Prelude.{true};

    ghost side = { true };
}

/// The number of a place, by which it is paired: a mailbox has its handle, the others have numbers above all handles.
pub fn number(place: &Place) -> u64
    ensures { result ≡ number place.now }
{
    match place {
        Place::Inbox(handle) => handle.0 as u64,
        Place::Registry => 4_294_967_296,
        Place::Clock => 4_294_967_297,
    }
}

/// The record of an agent or of a place, with a half for each other end in it.
#[derive(Drop)]
pub struct TiedRecord<B: Naming, S: Side> {
    pub(crate) own: u64,
    pub(crate) entries: Vec<Entry>,
    /// By the number of the other end.
    pub(crate) halves: BTreeMap<u64, Option<Half<Entry>>>,
    of: PhantomData<(B, S)>,
}

impl<B: Naming, S: Side> Model for TiedRecord<B, S> {
    ghost use Rattle.message.specs.contracts.datum.Datum as datum_contract;
    ghost use Rattle.std.specs.Coded.{codes};
    ghost use Rattle.tied_record.specs.Tied.{Tied, Trail};

    ghost Value = { Trail };

    ghost coded = { Prim.hlevel (codes, datum_contract.the_row.coded) };

    ghost view = { λ t. record { own = t.own; entries = t.entries.items } };

    ghost invariant = { λ t. Tied B.table S.side t.own t.entries.items t.halves };
}

impl<B: Naming, S: Side> TiedRecord<B, S> {
    /// An empty record of the agent or place with this number.
    pub fn new(alloc: Global, own: u64) -> TiedRecord<B, S>
        ensures { result ≡ record { own = own; entries = [] } }
    {
        TiedRecord {
            own,
            entries: Vec::new(alloc),
            halves: BTreeMap::new(alloc),
            of: PhantomData,
        }
    }

    pub fn own(&self) -> u64
        ensures { result ≡ self.now.own }
    {
        self.own
    }

    pub fn entries(&self) -> &[Entry]
        ensures { result.now ≡ self.now.entries }
    {
        self.entries.as_slice()
    }

    /// The entries; the halves are let go.
    pub fn into_entries(self) -> Vec<Entry>
        ensures { result.items ≡ self.entries }
    {
        let TiedRecord {
            own: _,
            entries,
            halves: _,
            of: _,
        } = self;
        entries
    }
}
