ghost use Rattle.std.specs.Prelude.{◌≡◌};
ghost use Rattle.window_props.specs.Values.{same_value, same_method, same_object, same_kind};
ghost use Rattle.plain_data.specs.Same.{same_data};

use crate::platform::Object;
use plain_data::{Data, same};
use std::alloc::AllocError;

/// The interfaces whose prototype objects a script can meet.
#[derive(Clone, Copy, Debug)]
pub enum Kind {
    Window,
    Location,
}

/// The methods that the platform makes: of a Window `close`, `focus`, `blur` and `postMessage`, of a Location `assign` and
/// `replace`.
#[derive(Clone, Copy, Debug)]
pub enum Method {
    Close,
    Focus,
    Blur,
    PostMessage,
    Assign,
    Replace,
}

/// What a script can hold.
///
/// A WindowProxy is its navigable, since it goes on to each document that becomes active there; a Location belongs to
/// one document.
#[derive(Drop)]
pub enum Value {
    /// Data, no object of the platform.
    Plain(Data),
    /// The WindowProxy of that navigable.
    Window(u32),
    /// The Location of that document.
    Location(u32),
    /// That object's built-in method.
    Function(Method, Object),
    /// The interface's prototype object.
    Prototype(Kind),
}

/// Whether two methods are the same.
pub fn same_method(a: Method, b: Method) -> bool
    ensures { result ≡ same_method a b }
{
    match (a, b) {
        (Method::Close, Method::Close) => true,
        (Method::Focus, Method::Focus) => true,
        (Method::Blur, Method::Blur) => true,
        (Method::PostMessage, Method::PostMessage) => true,
        (Method::Assign, Method::Assign) => true,
        (Method::Replace, Method::Replace) => true,
        _ => false,
    }
}

/// Whether two objects are the same: a Window or a Location, of the same document.
pub fn same_object(a: Object, b: Object) -> bool
    ensures { result ≡ same_object a b }
{
    match (a, b) {
        (Object::Window(x), Object::Window(y)) => x == y,
        (Object::Location(x), Object::Location(y)) => x == y,
        _ => false,
    }
}

fn same_kind(a: Kind, b: Kind) -> bool
    ensures { result ≡ same_kind a b }
{
    match (a, b) {
        (Kind::Window, Kind::Window) => true,
        (Kind::Location, Kind::Location) => true,
        _ => false,
    }
}

/// Whether two values are the same (ECMA-262, SameValue): data where the trees are equal, other values by their variant
/// and all that it holds, so that a method of one object is another function than that of the next. It takes no
/// memory.
#[tactic(auto, unfolding(crate::specs::Values::same_value))]
pub fn same_value(a: &Value, b: &Value) -> bool
    ensures { result ≡ same_value a.now b.now }
{
    match (a, b) {
        (Value::Plain(x), Value::Plain(y)) => same(x, y),
        (Value::Window(x), Value::Window(y)) => *x == *y,
        (Value::Location(x), Value::Location(y)) => *x == *y,
        (Value::Function(m, x), Value::Function(n, y)) => same_method(*m, *n)
            && same_object(*x, *y),
        (Value::Prototype(x), Value::Prototype(y)) => same_kind(*x, *y),
        _ => false,
    }
}

impl Clone for Value {
    ghost is_clone = { λ value copy. copy ≡ value };

    fn clone(&self) -> Result<Value, AllocError> {
        match self {
            Value::Plain(plain) => Ok(Value::Plain(plain.clone()?)),
            Value::Window(nav) => Ok(Value::Window(*nav)),
            Value::Location(doc) => Ok(Value::Location(*doc)),
            Value::Function(method, object) => Ok(Value::Function(*method, *object)),
            Value::Prototype(kind) => Ok(Value::Prototype(*kind)),
        }
    }
}
