ghost use Rattle.std.specs.Prelude.{◌≡◌, [], ◌∷◌, ◌++◌, true, false};
ghost use Rattle.tie.specs.Rules.{Has};

use crate::law::{Asks, NewPair};
use crate::pair::{Half, cut};
use crate::root::Tie;
use crate::view::View;
use atomic_table::Seat;
use std::marker::Model;

/// The seat of one agent, which makes its pairs.
#[derive(Drop)]
pub struct Master<E> {
    pub(crate) seat: Seat<E, View<E>>,
}

impl<E> Model for Master<E> {
    ghost use Rattle.std.specs.Prelude.{◌≡◌, [], ◌∷◌};
    ghost use Rattle.tie.specs.declared.view.View.TheVariants.{Master as MasterView};
    ghost use Rattle.tie.specs.Rules.{Mastered, agent_of, listed_of, asked_of};

    ghost Value = { Mastered };

    ghost view = { λ m. record { table = m.seat.table_id; agent = agent_of (m.seat.me.0 ∷ []); places = listed_of (m.seat.me.0 ∷ []) } };

    ghost invariant = { λ m. m.seat.me ≡ (MasterView (agent_of (m.seat.me.0 ∷ [])) (listed_of (m.seat.me.0 ∷ [])) (asked_of (m.seat.me.0 ∷ [])), []) };
}

impl<E> Master<E> {
    /// The two halves of a new pair with a place, the agent's and then the place's. The master has no pair with this place yet.
    pub fn pair(&mut self, tie: &Tie<E>, place: u64) -> (Half<E>, Half<E>)
        requires table { self.old.table ≡ tie.now }
        requires fresh { ¬ (Has self.old.places place) }
        ensures listed { self.new ≡ record { table = self.old.table; agent = self.old.agent; places = self.old.places ++ place ∷ [] } }
        ensures mine { result.0 ≡ record { table = self.old.table; agent = self.old.agent; place = place; side = false; entries = [] } }
        ensures yours { result.1 ≡ record { table = self.old.table; agent = self.old.agent; place = place; side = true; entries = [] } }
    {
        let shared = &tie.table.shared;
        shared.compare_exchange::<Asks>(&mut self.seat, 0, place, place);
        let whole = shared.split_seat::<NewPair>(&mut self.seat);
        let (mine, yours) = cut(tie, whole);
        (Half { badge: mine }, Half { badge: yours })
    }
}
