ghost use Rattle.std.specs.Prelude.{◌≡◌, ◌↔◌, IfOk, IsTrue};
ghost use Rattle.plain_data.specs.Same.{same_data};

use crate::items::Items;
use crate::text::Text;
use std::alloc::AllocError;

/// A value that a message may hold: what the HTML Standard's StructuredSerialize takes of ECMA-262's values, without
/// objects that have a shape of their own.
///
/// The keys of a record that is read from a text or from the wire strictly ascend by bytes, at each level. The type
/// itself lets them stand in any order, and [`same`] and [`copy`] keep to that order.
#[derive(Drop)]
pub enum Data {
    Undefined,
    Null,
    Truth(bool),
    /// A whole number. Readers take those within plus or minus 9,007,199,254,740,991 alone.
    Whole(i64),
    Text(Text),
    List(Items<Data>),
    /// The members, each its key with its value.
    Record(Items<(Text, Data)>),
}

impl Clone for Data {
    ghost is_clone = { λ value copy. copy ≡ value };

    fn clone(&self) -> Result<Data, AllocError> {
        copy(self)
    }
}

/// An equal tree.
#[cycle(copy)]
pub fn copy(value: &Data) -> Result<Data, AllocError>
    ensures { IfOk result (λ copy. copy ≡ value.now) }
{
    match value {
        Data::Undefined => Ok(Data::Undefined),
        Data::Null => Ok(Data::Null),
        Data::Truth(truth) => Ok(Data::Truth(*truth)),
        Data::Whole(whole) => Ok(Data::Whole(*whole)),
        Data::Text(text) => Ok(Data::Text(text.clone()?)),
        Data::List(items) => Ok(Data::List(copy_items(items)?)),
        Data::Record(members) => Ok(Data::Record(copy_members(members)?)),
    }
}

#[cycle(copy)]
fn copy_items(items: &Items<Data>) -> Result<Items<Data>, AllocError>
    ensures { IfOk result (λ copies. copies ≡ items.now) }
{
    let mut copies = Items::new(items.allocator());
    for item in items.as_slice() {
        copies.push(copy(item)?)?;
    }
    Ok(copies)
}

#[cycle(copy)]
fn copy_members(members: &Items<(Text, Data)>) -> Result<Items<(Text, Data)>, AllocError>
    ensures { IfOk result (λ copies. copies ≡ members.now) }
{
    let mut copies = Items::new(members.allocator());
    for member in members.as_slice() {
        let key = member.0.clone()?;
        copies.push((key, copy(&member.1)?))?;
    }
    Ok(copies)
}

/// Whether two trees are equal: the same kinds, numbers and texts at the same places, and the same keys in the same
/// order. It takes no memory.
pub fn same(a: &Data, b: &Data) -> bool
    ensures equality { IsTrue result ↔ (a.now ≡ b.now) }
    ensures test { result ≡ same_data a.now b.now }
{
    same_trees(a, b)
}

#[cycle(same)]
fn same_trees(a: &Data, b: &Data) -> bool
    ensures { IsTrue result ↔ (a.now ≡ b.now) }
{
    match (a, b) {
        (Data::Undefined, Data::Undefined) => true,
        (Data::Null, Data::Null) => true,
        (Data::Truth(x), Data::Truth(y)) => *x == *y,
        (Data::Whole(x), Data::Whole(y)) => *x == *y,
        (Data::Text(x), Data::Text(y)) => *x == *y,
        (Data::List(x), Data::List(y)) => same_items(x.as_slice(), y.as_slice()),
        (Data::Record(x), Data::Record(y)) => same_members(x.as_slice(), y.as_slice()),
        _ => false,
    }
}

#[cycle(same)]
fn same_items(a: &[Data], b: &[Data]) -> bool
    ensures { IsTrue result ↔ (a.now ≡ b.now) }
{
    if a.len() != b.len() {
        return false;
    }
    for i in 0..a.len() {
        if !same_trees(&a[i], &b[i]) {
            return false;
        }
    }
    true
}

#[cycle(same)]
fn same_members(a: &[(Text, Data)], b: &[(Text, Data)]) -> bool
    ensures { IsTrue result ↔ (a.now ≡ b.now) }
{
    if a.len() != b.len() {
        return false;
    }
    for i in 0..a.len() {
        if a[i].0 != b[i].0 || !same_trees(&a[i].1, &b[i].1) {
            return false;
        }
    }
    true
}
