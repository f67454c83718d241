ghost use Rattle.std.specs.Prelude.{◌≡◌, is_some};
ghost use Rattle.window_props.specs.Keys.{same_key};
ghost use Rattle.window_props.specs.Platform.{spelled, key_of, names_of, named, made_by_platform, role_of, method_of, is_configurable};
ghost use Rattle.window_props.specs.Ordinary.{role_at, is_default};
ghost use Rattle.window_props.specs.Platform as spec;

use crate::descriptor::{Body, Descriptor};
use crate::key::Key;
use crate::names::{LOCATION_NAMES, WINDOW_NAMES};
use crate::value::{Method, Value};

/// An object that a script can change, by its document.
#[derive(Clone, Copy, Debug)]
pub enum Object {
    Window(u32),
    Location(u32),
}

/// The names of the properties that the platform makes. `Origin` is a name of a Window and of a Location.
#[derive(Clone, Copy, Debug)]
pub enum Platform {
    Window,
    /// `self`.
    Itself,
    Location,
    Close,
    Closed,
    Focus,
    Blur,
    Frames,
    Length,
    Top,
    Opener,
    Parent,
    PostMessage,
    Name,
    Origin,
    Href,
    Assign,
    Replace,
}

/// What a set does to the platform's accessor.
#[derive(Clone, Copy, Debug)]
pub enum Role {
    /// It has no setter.
    Fixed,
    /// An own property takes its place, where it is configurable (Web IDL, [Replaceable]).
    Replaceable,
    /// Null runs the setter, another value takes its place (HTML, opener).
    Opening,
    /// The setter runs.
    Runs,
}

/// The names of the properties that the platform makes of the object, in order: fifteen of a Window, four of a Location.
pub fn names_of(object: Object) -> &'static [Platform]
    ensures { result.now ≡ names_of object }
{
    match object {
        Object::Window(_) => &WINDOW_NAMES,
        Object::Location(_) => &LOCATION_NAMES,
    }
}

impl Platform {
    /// The name as scripts write it.
    #[tactic(auto, unfolding(crate::specs::Platform::spelled))]
    pub fn text(self) -> &'static str
        ensures { result.now ≡ spelled self }
    {
        match self {
            Platform::Window => "window",
            Platform::Itself => "self",
            Platform::Location => "location",
            Platform::Close => "close",
            Platform::Closed => "closed",
            Platform::Focus => "focus",
            Platform::Blur => "blur",
            Platform::Frames => "frames",
            Platform::Length => "length",
            Platform::Top => "top",
            Platform::Opener => "opener",
            Platform::Parent => "parent",
            Platform::PostMessage => "postMessage",
            Platform::Name => "name",
            Platform::Origin => "origin",
            Platform::Href => "href",
            Platform::Assign => "assign",
            Platform::Replace => "replace",
        }
    }

    /// Whether this name is the key.
    #[tactic(auto, unfolding(crate::specs::Keys::same_key))]
    pub fn is_key(self, key: &Key) -> bool
        ensures { result ≡ same_key (key_of self) key.now }
    {
        match key {
            Key::Text(text) => self.text() == text.as_str(),
            Key::ToStringTag => false,
            Key::HasInstance => false,
            Key::IsConcatSpreadable => false,
        }
    }

    /// The method of that name; `None` exactly where the name is an attribute's.
    pub fn method(self) -> Option<Method>
        ensures { result ≡ method_of self }
    {
        match self {
            Platform::Close => Some(Method::Close),
            Platform::Focus => Some(Method::Focus),
            Platform::Blur => Some(Method::Blur),
            Platform::PostMessage => Some(Method::PostMessage),
            Platform::Assign => Some(Method::Assign),
            Platform::Replace => Some(Method::Replace),
            _ => None,
        }
    }

    // All but the attributes that Web IDL calls [LegacyUnforgeable]. Those of a Location are described as configurable.
    fn is_configurable(self) -> bool
        ensures { result ≡ is_configurable self }
    {
        match self {
            Platform::Window | Platform::Location | Platform::Top => false,
            _ => true,
        }
    }

    /// What a set does to the attribute of that name, while it is as the platform made it.
    pub fn role(self, object: Object) -> Role
        ensures { result ≡ role_of object self }
    {
        match self {
            Platform::Itself | Platform::Frames | Platform::Length | Platform::Parent =>
                Role::Replaceable,
            Platform::Opener => Role::Opening,
            Platform::Location | Platform::Name | Platform::Href => Role::Runs,
            Platform::Origin => match object {
                Object::Window(_) => Role::Replaceable,
                Object::Location(_) => Role::Fixed,
            },
            _ => Role::Fixed,
        }
    }

    // Whether the attribute of that name has a setter.
    fn has_setter(self, object: Object) -> bool
        ensures { result ≡ spec.has_setter (role_of object self) }
    {
        match self.role(object) {
            Role::Fixed => false,
            Role::Replaceable => true,
            Role::Opening => true,
            Role::Runs => true,
        }
    }

    /// The property that the platform makes of that name on the object.
    #[tactic(auto, unfolding(crate::specs::Platform::made_by_platform))]
    pub fn made(self, object: Object) -> Descriptor
        ensures { result ≡ made_by_platform object self }
    {
        let body = match self.method() {
            Some(method) => Body::Value {
                value: Value::Function(method, object),
                writable: is_window(object),
            },
            None => Body::Accessor {
                get: true,
                set: self.has_setter(object),
            },
        };
        Descriptor {
            body,
            enumerable: true,
            configurable: self.is_configurable(),
        }
    }
}

// Whether the object's methods are writable: a Window's are.
fn is_window(object: Object) -> bool
    ensures { result ≡ spec.is_writable object }
{
    match object {
        Object::Window(_) => true,
        Object::Location(_) => false,
    }
}

/// The name, of those that the platform makes on the object, that is the key; `None` exactly where none is. It takes no
/// memory, and so does every function here.
#[tactic(auto, unfolding(crate::specs::Platform::named))]
pub fn named(object: Object, key: &Key) -> Option<Platform>
    ensures { result ≡ named object key.now }
{
    names_of(object)
        .iter()
        .copied()
        .find(|name| name.is_key(key))
}

/// What a set does to the platform's accessor at that key; `Fixed` where the platform makes nothing there.
#[tactic(auto, unfolding(crate::specs::Ordinary::role_at))]
pub fn role_at(object: Object, key: &Key) -> Role
    ensures { result ≡ role_at object key.now }
{
    match named(object, key) {
        None => Role::Fixed,
        Some(name) => name.role(object),
    }
}

/// Whether the key is one of a Location's defaults, which nothing defines or deletes (HTML, Location's
/// [[DefineOwnProperty]] and [[Delete]]).
#[tactic(auto, unfolding(crate::specs::Ordinary::is_default))]
pub fn is_default(object: Object, key: &Key) -> bool
    ensures { result ≡ is_default object key.now }
{
    match object {
        Object::Window(_) => false,
        Object::Location(_) => named(object, key).is_some(),
    }
}
