// Readers of JSON values, and the one loop over a list of them.
ghost use Rattle.std.specs.Prelude.{◌≤◌, ◌≡◌, ⊤, All, List, [], Ok, IfOk, MatchResult};
ghost use Rattle.serde_json.specs.View.{view, items_view, members_view};
ghost use Rattle.session_reading.specs.Refusing.{Gives, Refuses, Outcome};
ghost use Rattle.session_reading.specs.Reading.{Json};
ghost use Rattle.session_reading.specs.Reading as spec;

use crate::error::{SessionError, missing, out_of_range, unknown_field, wrong_kind};
use crate::limits::MAX_TEXT;
use crate::name::Name;
use plain_data::Items;
use serde_json::{Map, Value};
use std::alloc::Global;

/// Reads one kind of value.
pub trait Reads {
    type Out: Drop;

    /// What a value is, or why it is none of this kind.
    ghost reads: { Self → Json → Outcome Self.Out };

    /// What the type of what is read promises besides.
    ghost holds: { Self.Out → Type 0 } = { λ _. ⊤ };

    fn read(&self, alloc: Global, value: &Value) -> Result<Self::Out, SessionError>
        ensures given { Gives result (reads self.now (view value.now)) }
        ensures held { IfOk result holds };
}

/// Reads the items of a list, each told what the ones before it are.
pub trait ReadsItem {
    type Out: Drop;

    /// What an item is, or why it is none of this kind.
    ghost reads_item: { Self → List Self.Out → Json → Outcome Self.Out };

    /// What the type of an item promises besides.
    ghost holds_item: { Self.Out → Type 0 } = { λ _. ⊤ };

    fn read_item(
        &self,
        alloc: Global,
        before: &[Self::Out],
        value: &Value,
    ) -> Result<Self::Out, SessionError>
        ensures given { Gives result (reads_item self.now before.now (view value.now)) }
        ensures held { IfOk result holds_item };
}

/// The whole number that the value is, from `least` to `most`.
#[tactic(auto, unfolding(crate::specs::Reading::whole))]
pub fn whole(alloc: Global, least: u64, most: u64, value: &Value) -> Result<u64, SessionError>
    ensures value { Gives result (spec.whole least most (view value.now)) }
    ensures within { IfOk result (λ n. n ≤ most) }
{
    if let Some(n) = value.as_u64() {
        if n < least || most < n {
            return Err(out_of_range(alloc));
        }
        return Ok(n);
    }
    if value.is_i64() {
        return Err(out_of_range(alloc));
    }
    Err(wrong_kind(alloc))
}

/// The truth value that the value is.
#[tactic(auto, unfolding(crate::specs::Reading::truth))]
pub fn truth(alloc: Global, value: &Value) -> Result<bool, SessionError>
    ensures { Gives result (spec.truth (view value.now)) }
{
    match value.as_bool() {
        Some(truth) => Ok(truth),
        None => Err(wrong_kind(alloc)),
    }
}

/// The text that the value is, of at most 1,024 bytes.
#[tactic(auto, unfolding(crate::specs::Reading::text))]
pub fn text(alloc: Global, value: &Value) -> Result<&str, SessionError>
    ensures { MatchResult result (λ s. spec.text (view value.now) ≡ Ok s.now) (λ e. Refuses e (spec.text (view value.now))) }
{
    let Some(text) = value.as_str() else {
        return Err(wrong_kind(alloc));
    };
    if text.len() > MAX_TEXT {
        return Err(out_of_range(alloc));
    }
    Ok(text)
}

/// The items of the list that the value is, from `least` to `most` of them.
#[tactic(auto, using(crate::proofs::Lists::length_of_items), unfolding(crate::specs::Reading::list_of))]
pub fn list_of<R: ReadsItem>(
    alloc: Global,
    least: usize,
    most: usize,
    item: &R,
    value: &Value,
) -> Result<Items<R::Out>, SessionError>
    ensures given { Gives result (spec.list_of least most (R.reads_item item.now) (view value.now)) }
    ensures held { IfOk result (All R.holds_item) }
{
    let Some(values) = value.as_array() else {
        return Err(wrong_kind(alloc));
    };
    let count = values.len();
    if count < least {
        return Err(out_of_range(alloc));
    }
    if most < count {
        return Err(out_of_range(alloc));
    }
    each(alloc, item, values.as_slice())
}

/// The items of the list that the value is, of any length.
#[tactic(auto, unfolding(crate::specs::Reading::any_list))]
pub fn any_list<R: ReadsItem>(
    alloc: Global,
    item: &R,
    value: &Value,
) -> Result<Items<R::Out>, SessionError>
    ensures given { Gives result (spec.any_list (R.reads_item item.now) (view value.now)) }
    ensures held { IfOk result (All R.holds_item) }
{
    let Some(values) = value.as_array() else {
        return Err(wrong_kind(alloc));
    };
    each(alloc, item, values.as_slice())
}

#[tactic(auto, unfolding(crate::specs::Reading::each))]
fn each<R: ReadsItem>(
    alloc: Global,
    item: &R,
    values: &[Value],
) -> Result<Items<R::Out>, SessionError>
    ensures given { Gives result (spec.each (R.reads_item item.now) [] (items_view values.now)) }
    ensures held { IfOk result (All R.holds_item) }
{
    let mut found = Items::new(alloc);
    for (i, value) in values.iter().enumerate() {
        match item.read_item(alloc, found.as_slice(), value) {
            Ok(out) => found.push(out)?,
            Err(e) => return Err(e.in_item(i)),
        }
    }
    Ok(found)
}

/// What a field of the object holds.
#[tactic(auto, unfolding(crate::specs::Reading::field))]
pub(crate) fn field<R: Reads>(
    alloc: Global,
    name: Name,
    reader: &R,
    object: &Value,
) -> Result<R::Out, SessionError>
    ensures given { Gives result (spec.field name (R.reads reader.now) (view object.now)) }
    ensures held { IfOk result R.holds }
{
    match object.get(name.text()) {
        None => Err(missing(alloc).in_field(alloc, name.text())),
        Some(value) => match reader.read(alloc, value) {
            Ok(out) => Ok(out),
            Err(e) => Err(e.in_field(alloc, name.text())),
        },
    }
}

/// What a field of the object holds, or the default where the object has no such field.
#[tactic(auto, unfolding(crate::specs::Reading::field_or))]
pub(crate) fn field_or<R: Reads>(
    alloc: Global,
    name: Name,
    absent: R::Out,
    reader: &R,
    object: &Value,
) -> Result<R::Out, SessionError>
    ensures { Gives result (spec.field_or name absent (R.reads reader.now) (view object.now)) }
{
    match object.get(name.text()) {
        None => Ok(absent),
        Some(value) => match reader.read(alloc, value) {
            Ok(out) => Ok(out),
            Err(e) => Err(e.in_field(alloc, name.text())),
        },
    }
}

/// What a field of the object holds, where it has such a field.
#[tactic(auto, unfolding(crate::specs::Reading::optional))]
pub(crate) fn optional<R: Reads>(
    alloc: Global,
    name: Name,
    reader: &R,
    object: &Value,
) -> Result<Option<R::Out>, SessionError>
    ensures { Gives result (spec.optional name (R.reads reader.now) (view object.now)) }
{
    match object.get(name.text()) {
        None => Ok(None),
        Some(value) => match reader.read(alloc, value) {
            Ok(out) => Ok(Some(out)),
            Err(e) => Err(e.in_field(alloc, name.text())),
        },
    }
}

/// Refuses the first field, by bytes, that has none of these names.
#[tactic(auto, unfolding(crate::specs::Reading::no_others))]
pub(crate) fn no_others(alloc: Global, known: &[Name], object: &Value) -> Result<(), SessionError>
    ensures { Gives result (spec.no_others known.now (view object.now)) }
{
    let Some(members) = object.as_object() else {
        return Err(wrong_kind(alloc));
    };
    only(alloc, known, members)
}

#[tactic(auto, unfolding(crate::specs::Reading::only))]
fn only(alloc: Global, known: &[Name], members: &Map<String, Value>) -> Result<(), SessionError>
    ensures { Gives result (spec.only known.now (members_view members.now.entries)) }
{
    for (name, _value) in members.iter() {
        if !is_known(known, name.as_str()) {
            return Err(unknown_field(alloc).in_field(alloc, name.as_str()));
        }
    }
    Ok(())
}

#[tactic(auto, unfolding(crate::specs::Reading::is_known))]
fn is_known(known: &[Name], spelled: &str) -> bool
    ensures { result ≡ spec.is_known known.now spelled.now }
{
    known.iter().any(|name| name.text() == spelled)
}
