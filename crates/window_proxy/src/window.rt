ghost use Rattle.std.specs.Prelude.{◌≡◌};
ghost use Rattle.object_access.specs.WindowAccess as spec;
ghost use Rattle.object_operations.specs.There.{HasWindow};

use crate::attributes::{window_set, window_value};
use crate::messages::post;
use agent_terms::{Ask, Outcome};
use object_operations::Met;
use object_operations::values::undefined;
use std::alloc::{AllocError, Global};
use tree_view::View;
use window_props::{Key, Kind, Method, Object, Value, named};

/// The Window of a navigable's active document, as a document meets it through the WindowProxy.
#[derive(Drop)]
pub(crate) struct WindowMet<'a, V> {
    pub view: &'a V,
    pub asker: u32,
    pub nav: u32,
}

#[tactic(auto, unfolding(object_access::specs::WindowAccess::window_of))]
impl<'a, V: View> Met for WindowMet<'a, V> {
    ghost tree = { λ m. V.tree m.view.now };

    ghost urls = { λ m. V.urls m.view.now };

    ghost asker = { λ m. m.asker };

    ghost seen = { λ m. spec.window (V.tree m.view.now) (V.urls m.view.now) m.asker m.nav };

    ghost fits = { λ m. HasWindow (V.tree m.view.now) m.asker m.nav };

    fn is_own(&self) -> bool {
        self.view
            .same_domain(self.asker, self.view.active(self.nav))
    }

    fn object(&self) -> Object {
        Object::Window(self.view.active(self.nav))
    }

    fn kind(&self) -> Kind {
        Kind::Window
    }

    fn count(&self) -> u32 {
        self.view.child_count(self.view.active(self.nav))
    }

    fn index(&self, key: &Key) -> Option<u32> {
        key.array_index()
    }

    fn child(&self, index: u32) -> Option<u32> {
        self.view.child_at(self.view.active(self.nav), index)
    }

    fn child_named(&self, key: &Key) -> Option<u32> {
        match key {
            Key::Text(name) => {
                if key.array_index().is_some() {
                    return None;
                }
                self.view
                    .child_named(self.view.active(self.nav), name.as_str())
            }
            _ => None,
        }
    }

    fn getter(&self, alloc: Global, key: &Key) -> Result<Value, AllocError> {
        match named(Object::Window(self.view.active(self.nav)), key) {
            None => Ok(undefined()),
            Some(name) => window_value(alloc, self.view, self.nav, name),
        }
    }

    fn setter(&self, alloc: Global, key: &Key, value: &Value) -> Result<Outcome, AllocError> {
        let doc = self.view.active(self.nav);
        match named(Object::Window(doc), key) {
            None => Ok(Outcome::Truth(false)),
            Some(name) => window_set(alloc, self.view, self.asker, doc, name, value),
        }
    }

    fn run(&self, alloc: Global, method: Method, args: &[Value]) -> Result<Outcome, AllocError> {
        let doc = self.view.active(self.nav);
        match method {
            Method::Close => Ok(Outcome::Ask(Ask::Close { doc })),
            Method::Focus | Method::Blur => Ok(Outcome::Value(undefined())),
            Method::PostMessage => post(alloc, self.view.origin_of(self.asker), doc, args),
            Method::Assign | Method::Replace => Ok(Outcome::TypeFault),
        }
    }
}
