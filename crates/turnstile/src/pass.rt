ghost use Rattle.std.specs.Prelude.{◌≡◌, ℕ, List, Option};

use crate::grows::Grows;
use crate::view::View;
use atomic_table::Seat;
use std::marker::Model;

/// The right to enter one turnstile, and what its owner has seen of the history. It has no bytes.
///
/// Callers see it as a `Place`: which turnstile it is for, the number of its seat, what it has seen, and, while its owner is
/// inside, the history at entry.
#[derive(Drop)]
pub struct Pass<S: Grows> {
    pub(crate) seat: Seat<Option<S>, View<S::Item>>,
}

impl<S: Grows> Model for Pass<S> {
    ghost use Rattle.turnstile.specs.Places.{Place, place_coded};

    ghost Value = { Place S.Item };

    ghost coded = { place_coded S.Item.code };

    ghost use Rattle.turnstile.specs.Tidy.{inside_of, IsTidy};

    ghost view = { λ p. record { turnstile = p.seat.table_id; number = p.seat.me.0.number; seen = p.seat.me.0.seen; inside = inside_of p.seat.me.0.stage } };

    ghost invariant = { λ p. IsTidy S.names p.seat.me };
}
