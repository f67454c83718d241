ghost use Rattle.std.specs.Prelude.{◌≡◌, ◌<◌, true, length, OnOk};
ghost use Rattle.task_index.specs.Fed.{has, KeepPlaces};

use crate::row::Row;
use std::alloc::{AllocError, Global};

/// Puts a place into the row of a renderer. After an `Err` no row has lost a place.
pub fn put_place(
    alloc: Global,
    rows: &mut Vec<Row>,
    renderer: u16,
    place: u32,
) -> Result<(), AllocError>
    ensures kept { KeepPlaces rows.old.items rows.new.items }
    ensures there { OnOk result (has rows.new.items renderer place ≡ true) }
{
    reach(alloc, rows, renderer)?;
    put_at(rows, renderer, place)
}

/// Makes empty rows up to that of a renderer.
fn reach(alloc: Global, rows: &mut Vec<Row>, renderer: u16) -> Result<(), AllocError>
    ensures kept { KeepPlaces rows.old.items rows.new.items }
    ensures there { OnOk result (renderer < length rows.new.items) }
{
    while rows.len() <= renderer as usize {
        rows.push(Row::new(alloc))?;
    }
    Ok(())
}

fn put_at(rows: &mut Vec<Row>, renderer: u16, place: u32) -> Result<(), AllocError>
    requires { renderer < length rows.old.items }
    ensures kept { KeepPlaces rows.old.items rows.new.items }
    ensures there { OnOk result (has rows.new.items renderer place ≡ true) }
{
    let row = &mut rows[renderer as usize];
    row.put(place)
}
