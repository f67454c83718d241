// The children of a document by their names.
ghost use Rattle.std.specs.Prelude.{◌≡◌, ℕ, List, OnOk, IsSome, if◌then◌else◌};
ghost use Rattle.std.specs.HashMap.{get_by_text};
ghost use Rattle.indexed_view.specs.Lists.{IsAscending, with_one, without};
ghost use Rattle.indexed_view.specs.Families.{named, renamed, HasRoom, HasRoomIfAny};
ghost use Rattle.indexed_view.specs.Live.{is_name};
ghost use Rattle.tree_log.specs.Siblings.{first_if_any};

use crate::lists::{put, take_out};
use indexmap::IndexMap;
use std::alloc::{AllocError, Global};

/// The first navigable of a name.
pub(crate) fn first_of(names: &IndexMap<String, Vec<u32>>, name: &str) -> Option<u32>
    ensures { result ≡ first_if_any (named names.now name.now) }
{
    match names.get(name) {
        Some(list) => list.first().copied(),
        None => None,
    }
}

/// Makes a list for the navigables of a name, if there is none. Even after an `Err` the names say what they said.
fn note_name(
    alloc: Global,
    names: &mut IndexMap<String, Vec<u32>>,
    name: &str,
) -> Result<(), AllocError>
    ensures same { (q : List ℕ) → named names.new q ≡ named names.old q }
    ensures noted { OnOk result (IsSome (get_by_text names.new name.now)) }
{
    if names.contains_key(name) {
        return Ok(());
    }
    names.insert(String::from_str(alloc, name)?, Vec::new(alloc))?;
    Ok(())
}

/// Makes room for one more navigable of a name. Even after an `Err` the names say what they said.
fn make_room_in_list(
    alloc: Global,
    names: &mut IndexMap<String, Vec<u32>>,
    name: &str,
) -> Result<(), AllocError>
    ensures same { (q : List ℕ) → named names.new q ≡ named names.old q }
    ensures room { OnOk result (HasRoom names.new name.now) }
{
    note_name(alloc, names, name)?;
    match names.get_mut(name) {
        Some(list) => list.reserve(1),
        None => unreachable!(),
    }
}

/// The same, if the name is not empty.
#[tactic(auto, using(crate::proofs::Naming::room_of_none, crate::proofs::Naming::room_of_one))]
pub(crate) fn make_room(
    alloc: Global,
    names: &mut IndexMap<String, Vec<u32>>,
    name: &str,
) -> Result<(), AllocError>
    ensures same { (q : List ℕ) → named names.new q ≡ named names.old q }
    ensures room { OnOk result (HasRoomIfAny names.new name.now) }
{
    if name.is_empty() {
        return Ok(());
    }
    make_room_in_list(alloc, names, name)
}

/// Puts a navigable among those of its name, if that is not empty. There is room for it.
pub(crate) fn put_name(names: &mut IndexMap<String, Vec<u32>>, name: &str, nav: u32)
    requires ascending { IsAscending (named names.old name.now) }
    requires room { HasRoomIfAny names.old name.now }
    ensures { (q : List ℕ) → named names.new q ≡ (if is_name name.now q then with_one nav (named names.old q) else named names.old q) }
{
    if name.is_empty() {
        return;
    }
    match names.get_mut(name) {
        Some(list) => put(list, nav),
        None => {}
    }
}

/// Takes a navigable out of those of its name, if that is not empty.
pub(crate) fn take_name(names: &mut IndexMap<String, Vec<u32>>, name: &str, nav: u32)
    requires ascending { IsAscending (named names.old name.now) }
    ensures names { (q : List ℕ) → named names.new q ≡ (if is_name name.now q then without nav (named names.old q) else named names.old q) }
    ensures room { (q : List ℕ) → HasRoom names.old q → HasRoom names.new q }
{
    if name.is_empty() {
        return;
    }
    match names.get_mut(name) {
        Some(list) => take_out(list, nav),
        None => {}
    }
}

/// Moves a navigable from those of a name to those of another. There is room for it.
pub(crate) fn rename(names: &mut IndexMap<String, Vec<u32>>, from: &str, to: &str, nav: u32)
    requires ascending { (q : List ℕ) → IsAscending (named names.old q) }
    requires room { HasRoomIfAny names.old to.now }
    ensures { (q : List ℕ) → named names.new q ≡ renamed nav from.now to.now q (named names.old q) }
{
    take_name(names, from, nav);
    put_name(names, to, nav);
}
