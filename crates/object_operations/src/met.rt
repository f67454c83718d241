ghost use Rattle.std.specs.Prelude.{◌≡◌, ℕ, List, IfOk};
ghost use Rattle.tree_log.specs.Tree.{Tree};
ghost use Rattle.object_access.specs.Access.{Seen};
ghost use Rattle.object_access.specs.Methods.{run};

use agent_terms::Outcome;
use std::alloc::{AllocError, Global};
use window_props::{Key, Kind, Method, Object, Value};

/// An object as a document meets it: a Window or a Location.
///
/// What the two have in common is said of this trait once, in [`access`](crate::access).
pub trait Met {
    /// The tree that the document goes by.
    ghost tree: { Self → Tree };

    /// The URL of each document of the tree.
    ghost urls: { Self → ℕ → List ℕ };

    /// The document that meets the object.
    ghost asker: { Self → ℕ };

    /// The object as it is met.
    ghost seen: { Self → Seen };

    /// Whether the tree has what is named.
    ghost fits: { Self → Type 0 };

    /// Whether the document is same origin-domain with the object's.
    fn is_own(&self) -> bool
        requires { fits self.now }
        ensures { result ≡ (seen self.now).own };

    /// The object.
    fn object(&self) -> Object
        requires { fits self.now }
        ensures { result ≡ (seen self.now).object };

    /// The object's interface.
    fn kind(&self) -> Kind
        requires { fits self.now }
        ensures { result ≡ (seen self.now).kind };

    /// How many children the object has.
    fn count(&self) -> u32
        requires { fits self.now }
        ensures { result ≡ (seen self.now).count };

    /// The array index that a key is for the object.
    fn index(&self, key: &Key) -> Option<u32>
        requires { fits self.now }
        ensures { result ≡ (seen self.now).index key.now };

    /// The child with an index.
    fn child(&self, index: u32) -> Option<u32>
        requires { fits self.now }
        ensures { result ≡ (seen self.now).child index };

    /// The child that a key reaches by its name.
    fn child_named(&self, key: &Key) -> Option<u32>
        requires { fits self.now }
        ensures { result ≡ (seen self.now).child_named key.now };

    /// What the getter of the platform's accessor at a key gives.
    fn getter(&self, alloc: Global, key: &Key) -> Result<Value, AllocError>
        requires { fits self.now }
        ensures { IfOk result (λ v. v ≡ (seen self.now).getter key.now) };

    /// What the setter of the platform's accessor at a key comes to.
    fn setter(&self, alloc: Global, key: &Key, value: &Value) -> Result<Outcome, AllocError>
        requires { fits self.now }
        ensures { IfOk result (λ o. o ≡ (seen self.now).setter key.now value.now) };

    /// What the object's own built-in method comes to.
    fn run(&self, alloc: Global, method: Method, args: &[Value]) -> Result<Outcome, AllocError>
        requires { fits self.now }
        ensures { IfOk result (λ o. o ≡ run (tree self.now) (urls self.now) (asker self.now) (seen self.now).object method args.now) };
}
