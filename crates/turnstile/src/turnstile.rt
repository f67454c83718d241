ghost use Rattle.std.specs.Prelude.{◌≡◌, ◌<◌, ℕ, [], ◌∷◌, Some, None, length, slice_get, IfOk, IfErr, IfSome, IsSome};
ghost use Rattle.turnstile.specs.Before.{before};
ghost use Rattle.turnstile.specs.Histories.{Enters, Extends, Follows, Since};
ghost use Rattle.turnstile.specs.Rows.{ArePasses};

use crate::dealing::{Gate, deal, passes_of};
use crate::grows::Grows;
use crate::held::Held;
use crate::pass::Pass;
use crate::rule::{About, OneAtATime};
use crate::steps::{Draw, Look, Release, TakeIn};
use crate::view::View;
use crate::waiting::pause;
use atomic_table::{Refused, Seat, Table};
use std::alloc::Global;
use std::marker::Model;
use std::snapshot::Snapshot;
use std::sync::Wait;

/// Lets those who hold one of its passes in one at a time, and hands them its state.
///
/// Callers see it as an `Entrance`: which turnstile it is, how many seats it has, and the history of the state that it was
/// given.
#[derive(Drop)]
pub struct Turnstile<S: Grows> {
    table: Table<Option<S>, View<S::Item>, About<S>, OneAtATime, Global>,
}

impl<S: Grows> Model for Turnstile<S> {
    ghost use Rattle.std.specs.Prelude.{◌≡◌, ◌<◌};
    ghost use Rattle.turnstile.specs.Places.{Entrance, entrance_coded};

    ghost Value = { Entrance S.Item };

    ghost coded = { entrance_coded S.Item.code };

    ghost view = { λ t. record { id = t.table.shared.table_id; seats = t.table.shared.key.seats; opening = S.history t.table.shared.key.opening.value } };

    ghost invariant = { λ t. (t.table.shared.table_id.words ≡ 2) × (t.table.shared.table_id.slots ≡ 1) × (0 < t.table.shared.key.seats) };
}

impl<S: Grows> Turnstile<S> {
    /// A turnstile with the state behind it, and a pass for each of its seats, of which there is at least one: in the order of
    /// their numbers, from 0, all outside, and each has seen the state's history. At `Err` there was no memory, and the state
    /// comes back.
    pub fn new(alloc: Global, state: S, seats: u16) -> Result<(Turnstile<S>, Vec<Pass<S>>), S>
        requires { 0 < seats }
        ensures turnstile { IfOk result (λ t. (t.0.seats ≡ seats) × (t.0.opening ≡ S.history state)) }
        ensures count { IfOk result (λ t. length t.1.items ≡ seats) }
        ensures passes { IfOk result (λ t. ArePasses t.0.id 0 t.1.items) }
        ensures seen { IfOk result (λ t. (k : ℕ) (p : _) → slice_get t.1.items k ≡ Some p → p.seen ≡ S.history state) }
        ensures err { IfErr result (λ s. s ≡ state) }
    {
        let Ok(passes) = Vec::with_capacity(alloc, seats as usize) else {
            return Err(state);
        };
        let Ok(row) = Vec::with_capacity(alloc, seats as usize) else {
            return Err(state);
        };
        let Ok(mut slots) = Vec::with_capacity(alloc, 1) else {
            return Err(state);
        };
        let about = About {
            opening: Snapshot::of(&state),
            seats: seats as u64,
        };
        slots.push_reserved(Some(state));
        let made: Result<(Gate<S>, Seat<Option<S>, View<S::Item>>), Refused<Option<S>, Global>> =
            Table::new(alloc, &[0, 0], slots, &about);
        match made {
            Ok((table, first)) => {
                let row = deal(&table, first, row, seats);
                let passes = passes_of(row, passes, &table);
                Ok((Turnstile { table }, passes))
            }
            Err(Refused { mut slots }) => {
                let last = slots.pop();
                slots.destroy_empty();
                let Some(slot) = last else { unreachable!() };
                let Some(state) = slot else { unreachable!() };
                Err(state)
            }
        }
    }

    /// Waits until the pass, which is outside, has its turn. The history of the state that it gets is all that the pass has
    /// seen, and then items of other seats alone. It takes no memory.
    pub fn enter<R: Wait>(&self, rt: &R, pass: &mut Pass<S>) -> Held<S>
        requires own { pass.old.turnstile ≡ self.now.id }
        requires outside { pass.old.inside ≡ None }
        ensures own { (pass.new.turnstile ≡ pass.old.turnstile) × (pass.new.number ≡ pass.old.number) }
        ensures inside { pass.new.inside ≡ Some (S.history result.state) }
        ensures seen { pass.new.seen ≡ pass.old.seen }
        ensures follows { Enters S.names pass.old.number pass.old.seen (S.history result.state) }
    {
        let ticket = self.table.shared.fetch_add::<Draw>(&mut pass.seat, 0, 1);
        let mut looks = 0u32;
        for _ in rt.forever() {
            let served = self.table.shared.load::<Look>(&mut pass.seat, 1);
            if served == ticket {
                let found = self.table.shared.exchange(&mut pass.seat, 0, None);
                let Some(state) = found else { unreachable!() };
                return Held { state };
            }
            pause(rt, &self.table, served, looks);
            looks = looks.saturating_add(1);
        }
        unreachable!()
    }

    /// Gives the state back, whose history is that at entry and then items of this pass's seat alone. The pass is outside
    /// then, and has seen it all. What it had seen and what it has seen tell what it found. It takes no memory.
    pub fn leave(&self, pass: &mut Pass<S>, held: Held<S>)
        requires own { pass.old.turnstile ≡ self.now.id }
        requires inside { IfSome pass.old.inside (λ entry. Extends S.names pass.old.number entry (S.history held.state)) × IsSome pass.old.inside }
        ensures own { (pass.new.turnstile ≡ pass.old.turnstile) × (pass.new.number ≡ pass.old.number) }
        ensures outside { pass.new.inside ≡ None }
        ensures seen { pass.new.seen ≡ S.history held.state }
        ensures found { IfSome pass.old.inside (λ entry. before S.names pass.old.number pass.old.seen pass.new.seen ≡ entry) }
    {
        let Held { state } = held;
        let left = self.table.shared.exchange(&mut pass.seat, 0, Some(state));
        let None = left else { unreachable!() };
        self.table.shared.fetch_add::<Release>(&mut pass.seat, 1, 1);
    }

    /// The state, for all passes, in the order of their numbers and all outside. Its history begins with all that each pass
    /// has seen; each item that names a pass's seat stands within what that pass has seen, and each other item within the
    /// history of the state that `new` was given.
    pub fn close(self, mut passes: Vec<Pass<S>>) -> S
        requires count { length passes.items ≡ self.seats }
        requires passes { ArePasses self.id 0 passes.items }
        ensures seen { (k : ℕ) (p : _) → slice_get passes.items k ≡ Some p → Follows S.names k p.seen (S.history result) }
        ensures others { Since S.names self.seats self.opening (S.history result) }
    {
        let Turnstile { table } = self;
        let Pass { mut seat } = passes.remove(0);
        for pass in passes {
            let Pass { seat: other } = pass;
            table.shared.join_seat::<TakeIn>(&mut seat, other);
        }
        let mut closed = table.close_with(seat);
        let found = closed.take(0);
        closed.free();
        let Some(state) = found else { unreachable!() };
        state
    }
}
