ghost use Rattle.std.specs.Prelude.{◌≡◌};
ghost use Rattle.object_access.specs.LocationAccess as spec;
ghost use Rattle.object_operations.specs.There.{HasLocation};

use crate::attributes::location_value;
use crate::sending::send;
use agent_terms::Outcome;
use object_operations::values::undefined;
use object_operations::{Met, set_href};
use std::alloc::{AllocError, Global};
use tree_view::View;
use window_props::{Key, Kind, Method, Object, Platform, Value, named};

/// The Location of a document, as a document meets it.
#[derive(Drop)]
pub(crate) struct LocationMet<'a, V> {
    pub view: &'a V,
    pub asker: u32,
    pub doc: u32,
}

#[tactic(auto, unfolding(object_access::specs::LocationAccess::location, object_access::specs::LocationAccess::location_set))]
impl<'a, V: View> Met for LocationMet<'a, V> {
    ghost tree = { λ m. V.tree m.view.now };

    ghost urls = { λ m. V.urls m.view.now };

    ghost asker = { λ m. m.asker };

    ghost seen = { λ m. spec.location (V.tree m.view.now) (V.urls m.view.now) m.asker m.doc };

    ghost fits = { λ m. HasLocation (V.tree m.view.now) m.asker m.doc };

    fn is_own(&self) -> bool {
        self.view.same_domain(self.asker, self.doc)
    }

    fn object(&self) -> Object {
        Object::Location(self.doc)
    }

    fn kind(&self) -> Kind {
        Kind::Location
    }

    fn count(&self) -> u32 {
        0
    }

    fn index(&self, _key: &Key) -> Option<u32> {
        None
    }

    fn child(&self, _index: u32) -> Option<u32> {
        None
    }

    fn child_named(&self, _key: &Key) -> Option<u32> {
        None
    }

    fn getter(&self, alloc: Global, key: &Key) -> Result<Value, AllocError> {
        match named(self.object(), key) {
            None => Ok(undefined()),
            Some(name) => location_value(alloc, self.view, self.doc, name),
        }
    }

    fn setter(&self, alloc: Global, key: &Key, value: &Value) -> Result<Outcome, AllocError> {
        match named(self.object(), key) {
            None => Ok(Outcome::Truth(false)),
            Some(Platform::Href) => set_href(alloc, self.view, self.asker, self.doc, value),
            Some(_) => Ok(Outcome::Truth(false)),
        }
    }

    fn run(&self, alloc: Global, method: Method, args: &[Value]) -> Result<Outcome, AllocError> {
        match method {
            Method::Assign | Method::Replace => send(alloc, self.view, self.asker, self.doc, args),
            Method::Close | Method::Focus | Method::Blur | Method::PostMessage => {
                Ok(Outcome::TypeFault)
            }
        }
    }
}
