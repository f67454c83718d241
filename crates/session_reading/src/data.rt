// Readers of plain data.
ghost use Rattle.std.specs.Prelude.{◌≡◌, []};
ghost use Rattle.serde_json.specs.View.{view, number_view, items_view, members_view};
ghost use Rattle.serde_json.specs.Written.{has_float as float_in, items_have_float as float_in_items, members_have_float as float_in_members};
ghost use Rattle.session_reading.specs.Refusing.{Gives};
ghost use Rattle.session_reading.specs.PlainData as spec;

use crate::error::{SessionError, out_of_range, wrong_kind};
use crate::limits::{is_safe, within_limits};
use plain_data::{Data, Items, Text};
use serde_json::{Map, Number, Value};
use std::alloc::Global;

/// The plain data that the value is. A number anywhere in it that isn't a whole one of 64 bits (with a fraction or an
/// exponent, `-0`, or beyond -2^63 to 2^64 - 1) is of the wrong kind, whatever else is wrong; a refusal has the place of
/// the whole value.
#[tactic(auto, unfolding(crate::specs::PlainData::data_read))]
pub fn read_data(alloc: Global, value: &Value) -> Result<Data, SessionError>
    ensures { Gives result (spec.data_read (view value.now)) }
{
    if has_float(value) {
        return Err(wrong_kind(alloc));
    }
    let data = plain(alloc, value)?;
    limited(alloc, data)
}

#[tactic(auto, unfolding(crate::specs::PlainData::limited))]
fn limited(alloc: Global, value: Data) -> Result<Data, SessionError>
    ensures { Gives result (spec.limited value) }
{
    if !within_limits(&value) {
        return Err(out_of_range(alloc));
    }
    Ok(value)
}

#[tactic(auto, unfolding(crate::specs::PlainData::safe))]
fn safe(alloc: Global, number: &Number) -> Result<i64, SessionError>
    ensures { Gives result (spec.safe (number_view number.now)) }
{
    match number.as_i64() {
        Some(n) => {
            if !is_safe(n) {
                return Err(out_of_range(alloc));
            }
            Ok(n)
        }
        None => {
            if number.is_u64() {
                return Err(out_of_range(alloc));
            }
            Err(wrong_kind(alloc))
        }
    }
}

#[cycle(plain)]
#[tactic(auto, unfolding(crate::specs::PlainData::plain))]
fn plain(alloc: Global, value: &Value) -> Result<Data, SessionError>
    ensures { Gives result (spec.plain (view value.now)) }
{
    match value {
        Value::Null => Ok(Data::Null),
        Value::Bool(truth) => Ok(Data::Truth(*truth)),
        Value::Number(number) => Ok(Data::Whole(safe(alloc, number)?)),
        Value::String(text) => Ok(Data::Text(Text::copy_of(alloc, text.as_str())?)),
        Value::Array(items) => Ok(Data::List(plain_items(alloc, items)?)),
        Value::Object(members) => Ok(Data::Record(plain_members(alloc, members)?)),
    }
}

#[cycle(plain)]
#[tactic(auto, unfolding(crate::specs::PlainData::plain_items))]
fn plain_items(alloc: Global, items: &Vec<Value>) -> Result<Items<Data>, SessionError>
    ensures { Gives result (spec.plain_items [] (items_view items.now.items)) }
{
    let mut found = Items::from_vec(Vec::with_capacity(alloc, items.len())?);
    for item in items {
        found.push(plain(alloc, item)?)?;
    }
    Ok(found)
}

#[cycle(plain)]
#[tactic(auto, unfolding(crate::specs::PlainData::plain_members))]
fn plain_members(
    alloc: Global,
    members: &Map<String, Value>,
) -> Result<Items<(Text, Data)>, SessionError>
    ensures { Gives result (spec.plain_members [] (members_view members.now.entries)) }
{
    let mut found = Items::from_vec(Vec::with_capacity(alloc, members.len())?);
    for (name, value) in members.iter() {
        let key = Text::copy_of(alloc, name.as_str())?;
        found.push((key, plain(alloc, value)?))?;
    }
    Ok(found)
}

#[cycle(has_float)]
fn has_float(value: &Value) -> bool
    ensures { result ≡ float_in (view value.now) }
{
    match value {
        Value::Null | Value::Bool(_) | Value::String(_) => false,
        Value::Number(number) => number.is_f64(),
        Value::Array(items) => items_have_float(items),
        Value::Object(members) => members_have_float(members),
    }
}

#[cycle(has_float)]
fn items_have_float(items: &Vec<Value>) -> bool
    ensures { result ≡ float_in_items (items_view items.now.items) }
{
    for item in items {
        if has_float(item) {
            return true;
        }
    }
    false
}

#[cycle(has_float)]
fn members_have_float(members: &Map<String, Value>) -> bool
    ensures { result ≡ float_in_members (members_view members.now.entries) }
{
    for (_name, value) in members.iter() {
        if has_float(value) {
            return true;
        }
    }
    false
}
