ghost use Rattle.std.specs.Prelude.{◌≡◌, [], ◌∷◌, ◌++◌, true, false};
ghost use Rattle.tie.specs.declared.view.View.TheVariants.{Half as HalfView, Whole};
ghost use Rattle.tie.specs.Rules.{IsPair, agent_of, place_of, entries_of};

use crate::law::{Adds, HalfAgain, Reads, Together};
use crate::root::Tie;
use crate::view::View;
use atomic_table::{Badge, Seat};
use std::marker::Model;
use std::mem;

/// One half of a pair. It keeps no entries: the list that it knows exists in the proofs alone.
#[derive(Drop)]
pub struct Half<E> {
    pub(crate) badge: Badge<View<E>>,
}

impl<E> Model for Half<E> {
    ghost use Rattle.std.specs.Prelude.{◌≡◌, [], ◌∷◌};
    ghost use Rattle.tie.specs.declared.view.View.TheVariants.{Half as HalfView};
    ghost use Rattle.tie.specs.Rules.{Piece, agent_of, place_of, side_of, entries_of};

    ghost Value = { Piece E };

    ghost view = { λ h. record { table = h.badge.table_id; agent = agent_of h.badge.views; place = place_of h.badge.views; side = side_of h.badge.views; entries = entries_of h.badge.views } };

    ghost invariant = { λ h. h.badge.views ≡ HalfView (agent_of h.badge.views) (place_of h.badge.views) (side_of h.badge.views) (entries_of h.badge.views) ∷ [] };
}

/// One seat for the whole pair.
fn put_together<E>(tie: &Tie<E>, mine: Badge<View<E>>, yours: Badge<View<E>>) -> Seat<E, View<E>>
    requires table { (mine.table_id ≡ tie.now) × (yours.table_id ≡ tie.now) }
    requires mine { mine.views ≡ HalfView (agent_of mine.views) (place_of mine.views) false (entries_of mine.views) ∷ [] }
    requires yours { yours.views ≡ HalfView (agent_of mine.views) (place_of mine.views) true (entries_of yours.views) ∷ [] }
    ensures table { result.table_id ≡ tie.now }
    ensures whole { result.me ≡ (Whole (agent_of mine.views) (place_of mine.views) (entries_of mine.views) (entries_of yours.views), []) }
{
    let mut whole = mine.into_seat();
    tie.table
        .shared
        .join_seat::<Together>(&mut whole, yours.into_seat());
    whole
}

/// The two halves of the seat of a whole pair.
pub(crate) fn cut<E>(tie: &Tie<E>, mut whole: Seat<E, View<E>>) -> (Badge<View<E>>, Badge<View<E>>)
    requires table { whole.table_id ≡ tie.now }
    requires whole { whole.me ≡ (Whole (agent_of (whole.me.0 ∷ [])) (place_of (whole.me.0 ∷ [])) (entries_of (whole.me.0 ∷ [])) (entries_of (whole.me.0 ∷ [])), []) }
    ensures table { (result.0.table_id ≡ tie.now) × (result.1.table_id ≡ tie.now) }
    ensures mine { result.0.views ≡ HalfView (agent_of (whole.me.0 ∷ [])) (place_of (whole.me.0 ∷ [])) false (entries_of (whole.me.0 ∷ [])) ∷ [] }
    ensures yours { result.1.views ≡ HalfView (agent_of (whole.me.0 ∷ [])) (place_of (whole.me.0 ∷ [])) true (entries_of (whole.me.0 ∷ [])) ∷ [] }
{
    let second = tie.table.shared.split_seat::<HalfAgain>(&mut whole);
    (whole.into_badge(), second.into_badge())
}

/// Adds one entry to the list of a pair, which both halves then know. It takes no memory.
pub fn add<E>(tie: &Tie<E>, mine: &mut Half<E>, yours: &mut Half<E>, entry: &E)
    requires table { mine.old.table ≡ tie.now }
    requires pair { IsPair mine.old yours.old }
    ensures one { mine.old.entries ≡ yours.old.entries }
    ensures mine { mine.new ≡ record mine.old { entries = mine.old.entries ++ entry.now ∷ [] } }
    ensures yours { yours.new ≡ record yours.old { entries = yours.old.entries ++ entry.now ∷ [] } }
{
    let first = mem::replace(&mut mine.badge, Badge::blank());
    let second = mem::replace(&mut yours.badge, Badge::blank());
    let mut whole = put_together(tie, first, second);
    tie.table
        .shared
        .compare_exchange_with::<Adds>(&mut whole, 0, 0, 0, entry);
    let (first, second) = cut(tie, whole);
    mine.badge = first;
    yours.badge = second;
}

/// Tells that the two halves of a pair know one list, and changes nothing.
pub fn same_list<E>(tie: &Tie<E>, mine: &mut Half<E>, yours: &mut Half<E>)
    requires table { mine.old.table ≡ tie.now }
    requires pair { IsPair mine.old yours.old }
    ensures one { mine.old.entries ≡ yours.old.entries }
    ensures mine { mine.new ≡ mine.old }
    ensures yours { yours.new ≡ yours.old }
{
    let first = mem::replace(&mut mine.badge, Badge::blank());
    let second = mem::replace(&mut yours.badge, Badge::blank());
    let mut whole = put_together(tie, first, second);
    tie.table.shared.load::<Reads>(&mut whole, 0);
    let (first, second) = cut(tie, whole);
    mine.badge = first;
    yours.badge = second;
}
