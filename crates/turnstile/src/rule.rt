use crate::grows::Grows;
use crate::view::View;
use atomic_table::TableRule;
use std::snapshot::Snapshot;

/// What is fixed when a turnstile is made.
#[derive(Drop)]
pub struct About<S> {
    /// The state that it was given.
    pub opening: Snapshot<S>,
    pub seats: u64,
}

/// The rule of the turnstile: one at a time has the state, and what each pass has seen is a beginning of its history.
pub struct OneAtATime;

impl<S: Grows> TableRule<Option<S>, View<S::Item>, About<S>> for OneAtATime {
    ghost use Rattle.turnstile.specs.Rule.{Kept};
    ghost use Rattle.turnstile.specs.Steps.{maker};

    ghost holds = { λ about. Kept S.history S.names (S.history about.opening.value) about.seats };

    ghost first = { λ about. maker (S.history about.opening.value) };
}
