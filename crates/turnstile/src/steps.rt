//! What each kind of atomic step on a word tells the pass that takes it.
ghost use Rattle.turnstile.specs.Steps.{drew, looked, released, split_left, split_right, joined, gone};

use crate::grows::Grows;
use crate::view::View;
use atomic_table::{Join, Play, Split};

/// Takes the next ticket.
pub(crate) struct Draw;

impl<S: Grows> Play<Option<S>, View<S::Item>> for Draw {
    ghost then = { drew };
}

/// Looks which ticket is served, and is inside where it is the own one.
pub(crate) struct Look;

impl<S: Grows> Play<Option<S>, View<S::Item>> for Look {
    ghost then = { looked S.history S.names };
}

/// Lets the next ticket be served.
pub(crate) struct Release;

impl<S: Grows> Play<Option<S>, View<S::Item>> for Release {
    ghost then = { released S.history };
}

/// Makes another pass.
pub(crate) struct Another;

impl<I> Split<View<I>> for Another {
    ghost left = { split_left };

    ghost right = { split_right };
}

/// Takes another pass in.
pub(crate) struct TakeIn;

impl<I> Join<View<I>> for TakeIn {
    ghost both = { joined };

    ghost spent = { gone };
}
