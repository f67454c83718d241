//! What a script asks of an object, and what it does on it.

use window_props::{Change, Key, Value};

/// What is asked of an object, or done on it.
#[derive(Drop)]
pub(crate) enum Operation<'a> {
    /// What is asked of it.
    Read(Reading<'a>),
    /// What is done on a property.
    Change(&'a Key, Changing),
}

/// What is asked of an object.
#[derive(Clone, Copy)]
pub(crate) enum Reading<'a> {
    Get(&'a Key),
    Has(&'a Key),
    Describe(&'a Key),
    Keys,
    Proto,
    SetProto,
    Extensible,
    Prevent,
    Call(&'a Key, &'a [Value]),
}

/// What is done on a property.
#[derive(Drop)]
pub(crate) enum Changing {
    Set(Value),
    Define(Change),
    Delete,
}
