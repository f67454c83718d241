//! The passes of a new turnstile.
ghost use Rattle.std.specs.Prelude.{◌≡◌, ◌<◌, ◌≤◌, ℕ, [], length, map, vec_len};
ghost use Rattle.std.specs.Vec.{vec_capacity};
ghost use Rattle.turnstile.specs.Rows.{AreSeats, HaveSeen, place_of};
ghost use Rattle.turnstile.specs.Steps.{maker};

use crate::grows::Grows;
use crate::pass::Pass;
use crate::rule::{About, OneAtATime};
use crate::steps::Another;
use crate::view::View;
use atomic_table::{Seat, Table};
use std::alloc::Global;

/// Word 0 is the next ticket, word 1 the one that is served; slot 0 has the state, or nothing while one is inside.
pub(crate) type Gate<S> = Table<Option<S>, View<<S as Grows>::Item>, About<S>, OneAtATime, Global>;

/// A seat for each number from 0 on, of which the first makes the others, into a row that has room for them.
pub(crate) fn deal<S: Grows>(
    table: &Gate<S>,
    first: Seat<Option<S>, View<S::Item>>,
    mut row: Vec<Seat<Option<S>, View<S::Item>>>,
    seats: u16,
) -> Vec<Seat<Option<S>, View<S::Item>>>
    requires table { (first.table_id ≡ table.now.shared.table_id) × (table.now.shared.table_id.words ≡ 2) × (table.now.shared.key.seats ≡ seats) }
    requires first { first.me ≡ (maker (S.history table.now.shared.key.opening.value), []) }
    requires room { (row.items ≡ []) × (seats ≤ vec_capacity row) × (0 < seats) }
    ensures count { length result.items ≡ seats }
    ensures row { AreSeats table.now.shared.table_id 0 result.items }
    ensures seen { HaveSeen (S.history table.now.shared.key.opening.value) result.items }
{
    row.push_reserved(first);
    for _number in 1..seats {
        let seat = table.shared.split_seat::<Another>(&mut row[0]);
        row.push_reserved(seat);
    }
    row
}

/// The seats as passes, into a list that has room for them.
pub(crate) fn passes_of<S: Grows>(
    row: Vec<Seat<Option<S>, View<S::Item>>>,
    mut passes: Vec<Pass<S>>,
    table: &Gate<S>,
) -> Vec<Pass<S>>
    requires row { AreSeats table.now.shared.table_id 0 row.items }
    requires room { (passes.items ≡ []) × (vec_len row ≤ vec_capacity passes) }
    ensures { result.items ≡ map place_of row.items }
{
    for seat in row {
        passes.push_reserved(Pass { seat });
    }
    passes
}
