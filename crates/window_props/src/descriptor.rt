ghost use Rattle.std.specs.Prelude.{◌≡◌, Some};
ghost use Rattle.window_props.specs.Ordinary.{made, is_given, is_other, gives_data, is_refused, is_refused_by_body, body_after, ordinary_define, done, plain, is_null, set_accessor, set_to};

use crate::platform::Role;
use crate::props::SetAnswer;
use crate::value::{Value, same_value};
use plain_data::Data;
use std::alloc::AllocError;

/// What a property is beside its two attributes.
#[derive(Drop)]
pub enum Body {
    /// A data property.
    Value { value: Value, writable: bool },
    /// An accessor, with whether it has a getter and a setter. Only the platform makes accessors, so that the key says
    /// which they are.
    Accessor { get: bool, set: bool },
}

/// A property, as it is described (ECMA-262, Property Descriptor, with all its fields).
#[derive(Drop)]
pub struct Descriptor {
    pub body: Body,
    pub enumerable: bool,
    pub configurable: bool,
}

/// What a define gives (ECMA-262, a generic or data Property Descriptor); `None` is a part that isn't given.
#[derive(Drop)]
pub struct Change {
    pub value: Option<Value>,
    pub writable: Option<bool>,
    pub enumerable: Option<bool>,
    pub configurable: Option<bool>,
}

impl Clone for Body {
    ghost is_clone = { λ body copy. copy ≡ body };

    fn clone(&self) -> Result<Body, AllocError> {
        match self {
            Body::Value { value, writable } => Ok(Body::Value {
                value: value.clone()?,
                writable: *writable,
            }),
            Body::Accessor { get, set } => Ok(Body::Accessor {
                get: *get,
                set: *set,
            }),
        }
    }
}

impl Clone for Descriptor {
    ghost is_clone = { λ property copy. copy ≡ property };

    fn clone(&self) -> Result<Descriptor, AllocError> {
        Ok(Descriptor {
            body: self.body.clone()?,
            enumerable: self.enumerable,
            configurable: self.configurable,
        })
    }
}

impl Clone for Change {
    ghost is_clone = { λ change copy. copy ≡ change };

    fn clone(&self) -> Result<Change, AllocError> {
        Ok(Change {
            value: self.value.clone()?,
            writable: self.writable,
            enumerable: self.enumerable,
            configurable: self.configurable,
        })
    }
}

/// A new property, with the parts that are given: absent ones are false, an absent value is undefined.
pub fn made(change: Change) -> Descriptor
    ensures { result ≡ made change }
{
    Descriptor {
        body: Body::Value {
            value: change.value.unwrap_or(Value::Plain(Data::Undefined)),
            writable: change.writable.unwrap_or(false),
        },
        enumerable: change.enumerable.unwrap_or(false),
        configurable: change.configurable.unwrap_or(false),
    }
}

// Whether the part is given, as this.
fn is_given(part: Option<bool>, as_this: bool) -> bool
    ensures { result ≡ is_given part as_this }
{
    match part {
        None => false,
        Some(true) => as_this,
        Some(false) => !as_this,
    }
}

// Whether a value is given that isn't the same value.
fn is_other(part: &Option<Value>, value: &Value) -> bool
    ensures { result ≡ is_other part.now value.now }
{
    match part {
        None => false,
        Some(given) => !same_value(given, value),
    }
}

// Whether a part is given that data has and an accessor lacks.
fn gives_data(change: &Change) -> bool
    ensures { result ≡ gives_data change.now }
{
    change.value.is_some() || change.writable.is_some()
}

// Whether a body that can't be configured refuses the change.
fn is_refused_by_body(change: &Change, body: &Body) -> bool
    ensures { result ≡ is_refused_by_body change.now body.now }
{
    match body {
        Body::Accessor { .. } => gives_data(change),
        Body::Value { value, writable } => !*writable
            && (is_given(change.writable, true) || is_other(&change.value, value)),
    }
}

// Whether the property, as it is, refuses the change.
fn is_refused(change: &Change, property: &Descriptor) -> bool
    ensures { result ≡ is_refused change.now property.now }
{
    !property.configurable
        && (is_given(change.configurable, true)
            || is_given(change.enumerable, !property.enumerable)
            || is_refused_by_body(change, &property.body))
}

// Puts the given parts in place of the old. An accessor that is given one becomes data.
fn rewrite(body: &mut Body, value: Option<Value>, writable: Option<bool>)
    ensures { body.new ≡ body_after value writable body.old }
{
    match body {
        Body::Value {
            value: old,
            writable: was,
        } => {
            if let Some(given) = value {
                *old = given;
            }
            if let Some(given) = writable {
                *was = given;
            }
        }
        Body::Accessor { .. } => {
            if value.is_some() || writable.is_some() {
                *body = Body::Value {
                    value: value.unwrap_or(Value::Plain(Data::Undefined)),
                    writable: writable.unwrap_or(false),
                };
            }
        }
    }
}

/// Makes the change where the property takes it (ECMA-262, ValidateAndApplyPropertyDescriptor). False leaves it as it was.
#[tactic(auto, unfolding(crate::specs::Ordinary::ordinary_define))]
pub fn redefine(property: &mut Descriptor, change: Change) -> bool
    ensures { ordinary_define change (Some property.old) ≡ done result (Some property.new) }
{
    if is_refused(&change, property) {
        return false;
    }
    let Change {
        value,
        writable,
        enumerable,
        configurable,
    } = change;
    rewrite(&mut property.body, value, writable);
    property.enumerable = enumerable.unwrap_or(property.enumerable);
    property.configurable = configurable.unwrap_or(property.configurable);
    true
}

/// The property that a set makes where nothing is: writable, enumerable and configurable.
pub fn plain(value: Value) -> Descriptor
    ensures { result ≡ plain value }
{
    Descriptor {
        body: Body::Value {
            value,
            writable: true,
        },
        enumerable: true,
        configurable: true,
    }
}

fn is_null(value: &Value) -> bool
    ensures { result ≡ is_null value.now }
{
    match value {
        Value::Plain(Data::Null) => true,
        _ => false,
    }
}

// A set at an accessor, by the accessor's role. All but Truth(true) leave the property as it was.
fn set_accessor(role: Role, property: &mut Descriptor, value: Value) -> SetAnswer
    ensures { set_accessor role value property.old ≡ record { answer = result; property = Some property.new } }
{
    match role {
        Role::Fixed => SetAnswer::Truth(false),
        Role::Runs => SetAnswer::Setter,
        Role::Replaceable => {
            if property.configurable {
                *property = plain(value);
                return SetAnswer::Truth(true);
            }
            SetAnswer::Truth(false)
        }
        Role::Opening => {
            if is_null(&value) {
                return SetAnswer::Setter;
            }
            if property.configurable {
                *property = plain(value);
                return SetAnswer::Truth(true);
            }
            SetAnswer::TypeFault
        }
    }
}

/// Sets the property, or tells that its setter must run. All but `Truth(true)` leave it as it was.
#[tactic(auto, unfolding(crate::specs::Ordinary::set_to))]
pub fn reset(role: Role, property: &mut Descriptor, value: Value) -> SetAnswer
    ensures { set_to role value (Some property.old) ≡ record { answer = result; property = Some property.new } }
{
    match &mut property.body {
        Body::Accessor { .. } => {}
        Body::Value {
            value: old,
            writable,
        } => {
            if *writable {
                *old = value;
                return SetAnswer::Truth(true);
            }
            return SetAnswer::Truth(false);
        }
    }
    set_accessor(role, property, value)
}
