ghost use Rattle.std.specs.Prelude.{◌≡◌, ◌++◌, ◌∷◌, [], MatchOption, IfOk, OnOk, OnErr, None, slice_get, Some};
ghost use Rattle.window_props.specs.Keys.{AreApart};
ghost use Rattle.window_props.specs.Rows.{lookup, IsPlace, row_keys, IsActed};
ghost use Rattle.window_props.specs.Ordinary.{Define, Set, Delete};
ghost use Rattle.window_props.specs.declared.props.SetAnswer.TheVariants.{Truth};

use crate::descriptor::{Change, Descriptor, made, plain, redefine, reset};
use crate::key::{Key, same_key};
use crate::platform::{Object, is_default, role_at};
use crate::props::SetAnswer;
use crate::value::Value;
use std::alloc::AllocError;

/// A property with its key.
#[derive(Drop)]
pub struct Row {
    pub key: Key,
    pub property: Descriptor,
}

/// Where the key stands; `None` where it doesn't. It takes no memory.
pub fn find_row(rows: &[Row], key: &Key) -> Option<usize>
    ensures { MatchOption result (lookup rows.now key.now ≡ None) (λ i. IsPlace rows.now key.now i) }
{
    for i in 0..rows.len() {
        if same_key(&rows[i].key, key) {
            return Some(i);
        }
    }
    None
}

// A new row at the end. On want of memory the rows are as before.
fn add(rows: &mut Vec<Row>, key: &Key, property: Descriptor) -> Result<(), AllocError>
    ensures ok { OnOk result (rows.new.items ≡ rows.old.items ++ record { key = key.now; property = property } ∷ []) }
    ensures err { OnErr result (rows.new.items ≡ rows.old.items) }
{
    let key = key.clone()?;
    rows.push(Row { key, property })?;
    Ok(())
}

/// Defines the property at the key. On want of memory the rows are as before.
#[tactic(auto, unfolding(crate::specs::Ordinary::acted))]
pub fn define_in(
    object: Object,
    rows: &mut Vec<Row>,
    key: &Key,
    change: Change,
) -> Result<bool, AllocError>
    requires { AreApart (row_keys rows.old.items) }
    ensures ok { IfOk result (λ b. IsActed object rows.old.items rows.new.items key.now (Define change) (Truth b)) }
    ensures err { OnErr result (rows.new.items ≡ rows.old.items) }
{
    if is_default(object, key) {
        return Ok(false);
    }
    match place_of(rows, key) {
        None => {
            add(rows, key, made(change))?;
            Ok(true)
        }
        Some(i) => {
            let row = &mut rows[i];
            Ok(redefine(&mut row.property, change))
        }
    }
}

/// Sets the property at the key. On want of memory the rows are as before.
#[tactic(auto, unfolding(crate::specs::Ordinary::acted))]
pub fn set_in(
    object: Object,
    rows: &mut Vec<Row>,
    key: &Key,
    value: Value,
) -> Result<SetAnswer, AllocError>
    requires { AreApart (row_keys rows.old.items) }
    ensures ok { IfOk result (λ answer. IsActed object rows.old.items rows.new.items key.now (Set value) answer) }
    ensures err { OnErr result (rows.new.items ≡ rows.old.items) }
{
    match place_of(rows, key) {
        None => {
            add(rows, key, plain(value))?;
            Ok(SetAnswer::Truth(true))
        }
        Some(i) => {
            let role = role_at(object, key);
            let row = &mut rows[i];
            Ok(reset(role, &mut row.property, value))
        }
    }
}

/// Deletes the property at the key, where it can be.
#[tactic(auto, unfolding(crate::specs::Ordinary::acted))]
pub fn delete_in(object: Object, rows: &mut Vec<Row>, key: &Key) -> bool
    requires { AreApart (row_keys rows.old.items) }
    ensures { IsActed object rows.old.items rows.new.items key.now Delete (Truth result) }
{
    if is_default(object, key) {
        return false;
    }
    match place_of(rows, key) {
        None => true,
        Some(i) => {
            if !rows[i].property.configurable {
                return false;
            }
            rows.remove(i);
            true
        }
    }
}

/// Where the key stands among the rows.
pub fn place_of(rows: &Vec<Row>, key: &Key) -> Option<usize>
    ensures { MatchOption result (lookup rows.now.items key.now ≡ None) (λ i. IsPlace rows.now.items key.now i) }
{
    find_row(rows.as_slice(), key)
}
