ghost use Rattle.std.specs.Prelude.{◌≡◌};
ghost use Rattle.window_props.specs.Cross.{cross_names, made_for_others, cross_named, listed, is_gettable, is_settable, is_fallback};

use crate::descriptor::{Body, Descriptor};
use crate::key::Key;
use crate::names::{CROSS_LOCATION, CROSS_WINDOW};
use crate::platform::{Object, Platform};
use crate::value::Value;

/// The names that the object shows to documents of another origin, in order.
pub fn cross_names(object: Object) -> &'static [Platform]
    ensures { result.now ≡ cross_names object }
{
    match object {
        Object::Window(_) => &CROSS_WINDOW,
        Object::Location(_) => &CROSS_LOCATION,
    }
}

// Whether documents of another origin can read the attribute.
fn is_gettable(name: Platform) -> bool
    ensures { result ≡ is_gettable name }
{
    match name {
        Platform::Href => false,
        _ => true,
    }
}

// Whether they can set it.
fn is_settable(name: Platform) -> bool
    ensures { result ≡ is_settable name }
{
    match name {
        Platform::Location | Platform::Href => true,
        _ => false,
    }
}

// The property that the object shows under that name.
#[tactic(auto, unfolding(crate::specs::Cross::made_for_others))]
fn made_for_others(object: Object, name: Platform) -> Descriptor
    ensures { result ≡ made_for_others object name }
{
    let body = match name.method() {
        Some(method) => Body::Value {
            value: Value::Function(method, object),
            writable: false,
        },
        None => Body::Accessor {
            get: is_gettable(name),
            set: is_settable(name),
        },
    };
    Descriptor {
        body,
        enumerable: false,
        configurable: true,
    }
}

// The name, of those that the object shows, that is the key.
#[tactic(auto, unfolding(crate::specs::Cross::cross_named))]
fn cross_named(object: Object, key: &Key) -> Option<Platform>
    ensures { result ≡ cross_named object key.now }
{
    cross_names(object)
        .iter()
        .copied()
        .find(|name| name.is_key(key))
}

/// The property that the object shows to documents of another origin at the key: a method, or an attribute with a getter,
/// a setter or both (HTML, CrossOriginGetOwnPropertyHelper). `None` exactly where the key is not on its list. It takes
/// no memory.
#[tactic(auto, unfolding(crate::specs::Cross::listed))]
pub fn listed(object: Object, key: &Key) -> Option<Descriptor>
    ensures { result ≡ listed object key.now }
{
    match cross_named(object, key) {
        None => None,
        Some(name) => Some(made_for_others(object, name)),
    }
}

/// Whether the key is one that is undefined to documents of another origin, whatever the object: `then` and the three
/// symbols (HTML, CrossOriginPropertyFallback). It takes no memory.
#[tactic(auto, unfolding(crate::specs::Cross::is_fallback))]
pub fn fallback(key: &Key) -> bool
    ensures { result ≡ is_fallback key.now }
{
    match key {
        Key::Text(text) => text.as_str() == "then",
        _ => true,
    }
}
