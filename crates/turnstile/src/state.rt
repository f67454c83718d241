//! `state` has a file of its own, since its clause names the row of `Held`.
ghost use Rattle.std.specs.Prelude.{◌≡◌};
ghost use Rattle.std.specs.Borrow.{sem, follows};
ghost use Rattle.turnstile.specs.contracts.held.Held.{the_row};

use crate::held::Held;

impl<S> Held<S> {
    /// The state, to read and to change. What is written there is what is given back.
    pub fn state(&mut self) -> &mut S
        ensures value { result.now ≡ self.old.state }
        ensures* writes_back { sem 𝓛 (follows (the_row S.row) S.row self.entry.ghost_name result.ghost_name (λ w. record { state = w })) }
    {
        &mut self.state
    }
}
