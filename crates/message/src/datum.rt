ghost use Rattle.std.specs.Prelude.{◌≡◌, ◌∷◌, ◌++◌, [], ◌↔◌, length, IsTrue, IfOk, OnOk, OnErr};

use sk_types::{Bytes, NoMemory};
use sqlite_items::Items;
use std::alloc::Global;
use std::marker::Model;

/// The pairs of a table, in the order in which it was packed.
pub type Pairs = Items<(Datum, Datum)>;

/// One value of a message's body: a Lua value as it is packed.
#[derive(Drop)]
pub enum Datum {
    Nil,
    Bool(bool),
    Int(i64),
    Text(Bytes),
    Table(Pairs),
}

impl Datum {
    ghost use Rattle.message.specs.Data.{capped, datum_weight};

    /// An equal value, on the allocator that is given.
    pub fn copy(&self, alloc: Global) -> Result<Datum, NoMemory>
        ensures { IfOk result (λ d. d ≡ self.now) }
    {
        match self {
            Datum::Nil => Ok(Datum::Nil),
            Datum::Bool(b) => Ok(Datum::Bool(*b)),
            Datum::Int(n) => Ok(Datum::Int(*n)),
            Datum::Text(text) => Ok(Datum::Text(text.copy(alloc)?)),
            Datum::Table(pairs) => {
                let mut out = Items::new(alloc);
                for pair in pairs.as_slice() {
                    let key = pair.0.copy(alloc)?;
                    let value = pair.1.copy(alloc)?;
                    out.push((key, value))?;
                }
                Ok(Datum::Table(out))
            }
        }
    }

    /// What it weighs in the run's limit of bytes, or `u64::MAX` where that is less.
    pub fn weight(&self) -> u64
        ensures { result ≡ capped (datum_weight self.now) }
    {
        match self {
            Datum::Nil | Datum::Bool(_) | Datum::Int(_) => 16,
            Datum::Text(text) => (text.len() as u64).saturating_add(16),
            Datum::Table(pairs) => {
                let mut total: u64 = 16;
                for pair in pairs.as_slice() {
                    let key = pair.0.weight();
                    let value = pair.1.weight();
                    total = total.saturating_add(key).saturating_add(value);
                }
                total
            }
        }
    }

    /// Whether both are the same value: tables by their pairs, in order.
    #[cycle(same)]
    pub fn same(&self, other: &Datum) -> bool
        ensures { IsTrue result ↔ (self.now ≡ other.now) }
    {
        match (self, other) {
            (Datum::Nil, Datum::Nil) => true,
            (Datum::Bool(a), Datum::Bool(b)) => a == b,
            (Datum::Int(a), Datum::Int(b)) => a == b,
            (Datum::Text(a), Datum::Text(b)) => a.same(b),
            (Datum::Table(a), Datum::Table(b)) => same_pairs(a.as_slice(), b.as_slice()),
            _ => false,
        }
    }
}

#[cycle(same)]
fn same_pairs(a: &[(Datum, Datum)], b: &[(Datum, Datum)]) -> bool
    ensures { IsTrue result ↔ (a.now ≡ b.now) }
{
    if a.len() != b.len() {
        return false;
    }
    for i in 0..a.len() {
        if !a[i].0.same(&b[i].0) || !a[i].1.same(&b[i].1) {
            return false;
        }
    }
    true
}

/// The values of a message, which contracts see as a list of data.
#[derive(Drop)]
pub struct Body {
    data: Items<Datum>,
}

impl Model for Body {
    ghost use Rattle.std.specs.Prelude.{List};
    ghost use Rattle.message.specs.declared.datum.Datum.{Datum};
    ghost use Rattle.message.specs.contracts.datum.Datum as datum_contract;
    ghost use Rattle.std.specs.Coded.{codes};

    ghost Value = { List Datum };

    ghost coded = { Prim.hlevel (codes, datum_contract.the_row.coded) };

    ghost view = { λ b. b.data };
}

impl Body {
    ghost use Rattle.message.specs.Data.{capped, weight};

    pub fn new(alloc: Global) -> Body
        ensures { result ≡ [] }
    {
        Body {
            data: Items::new(alloc),
        }
    }

    pub fn from_items(items: Items<Datum>) -> Body
        ensures { result ≡ items }
    {
        Body { data: items }
    }

    pub fn as_slice(&self) -> &[Datum]
        ensures { result.now ≡ self.now }
    {
        self.data.as_slice()
    }

    pub fn push(&mut self, datum: Datum) -> Result<(), NoMemory>
        ensures ok { OnOk result (self.new ≡ self.old ++ datum ∷ []) }
        ensures err { OnErr result (self.new ≡ self.old) }
    {
        self.data.push(datum)?;
        Ok(())
    }

    /// An equal body, on the allocator that is given.
    pub fn copy(&self, alloc: Global) -> Result<Body, NoMemory>
        ensures { IfOk result (λ b. b ≡ self.now) }
    {
        let mut data = Items::new(alloc);
        for datum in self.data.as_slice() {
            data.push(datum.copy(alloc)?)?;
        }
        Ok(Body { data })
    }

    /// What its data weigh, or `u64::MAX` where that is less.
    pub fn weight(&self) -> u64
        ensures { result ≡ capped (weight self.now) }
    {
        let mut total: u64 = 0;
        for datum in self.data.as_slice() {
            total = total.saturating_add(datum.weight());
        }
        total
    }

    /// Whether both are the same list of data.
    pub fn same(&self, other: &Body) -> bool
        ensures { IsTrue result ↔ (self.now ≡ other.now) }
    {
        let (a, b) = (self.data.as_slice(), other.data.as_slice());
        if a.len() != b.len() {
            return false;
        }
        for i in 0..a.len() {
            if !a[i].same(&b[i]) {
                return false;
            }
        }
        true
    }
}
