ghost use Rattle.std.specs.Prelude.{◌≡◌, [], ◌∷◌, ◌++◌, IfOk};
ghost use Rattle.tie.specs.Rules.{Has};

use crate::law::{Asks, Law, NewMaster};
use crate::master::Master;
use crate::view::View;
use atomic_table::{Seat, Table};
use std::alloc::{AllocError, Global};
use std::marker::Model;

/// The table that all halves step on. Threads share it by reference.
pub struct Tie<E> {
    pub(crate) table: Table<E, View<E>, (), Law, Global>,
}

impl<E> Model for Tie<E> {
    ghost use Rattle.std.specs.Prelude.{◌<◌};
    ghost use Rattle.atomic_table.specs.Seated.{TableId};

    ghost Value = { TableId };

    ghost view = { λ t. t.table.shared.table_id };

    ghost invariant = { λ t. 0 < t.table.shared.table_id.words };
}

impl<E: Drop> Drop for Tie<E> {
    fn drop(self) {
        let Tie { table: _ } = self;
    }
}

/// The seat that makes masters.
#[derive(Drop)]
pub struct Root<E> {
    seat: Seat<E, View<E>>,
}

impl<E> Model for Root<E> {
    ghost use Rattle.std.specs.Prelude.{◌≡◌, [], ◌∷◌};
    ghost use Rattle.tie.specs.declared.view.View.TheVariants.{Root as RootView};
    ghost use Rattle.tie.specs.Rules.{Rooted, listed_of, asked_of};

    ghost Value = { Rooted };

    ghost view = { λ r. record { table = r.seat.table_id; agents = listed_of (r.seat.me.0 ∷ []) } };

    ghost invariant = { λ r. r.seat.me ≡ (RootView (listed_of (r.seat.me.0 ∷ [])) (asked_of (r.seat.me.0 ∷ [])), []) };
}

impl<E> Tie<E> {
    /// A table, and its root, which has made no master.
    pub fn new(alloc: Global) -> Result<(Tie<E>, Root<E>), AllocError>
        ensures { IfOk result (λ t. t.1 ≡ record { table = t.0; agents = [] }) }
    {
        let (table, seat) = Table::<E, View<E>, (), Law, Global>::of_words(alloc, &[0], &())?;
        Ok((Tie { table }, Root { seat }))
    }
}

impl<E> Root<E> {
    /// The master of an agent that has none.
    pub fn master(&mut self, tie: &Tie<E>, agent: u64) -> Master<E>
        requires table { self.old.table ≡ tie.now }
        requires fresh { ¬ (Has self.old.agents agent) }
        ensures listed { self.new ≡ record { table = self.old.table; agents = self.old.agents ++ agent ∷ [] } }
        ensures master { result ≡ record { table = self.old.table; agent = agent; places = [] } }
    {
        let shared = &tie.table.shared;
        shared.compare_exchange::<Asks>(&mut self.seat, 0, agent, agent);
        let seat = shared.split_seat::<NewMaster>(&mut self.seat);
        Master { seat }
    }
}
