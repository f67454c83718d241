ghost use Rattle.std.specs.Prelude.{◌≡◌};
ghost use Rattle.object_access.specs.Access.{foreign_property, foreign_named, constant, child_property};

use crate::met::Met;
use crate::values::undefined;
use agent_terms::Rule;
use window_props::{Body, Descriptor, Key, Value, fallback, listed};

fn constant(value: Value, enumerable: bool) -> Descriptor
    ensures { result ≡ constant value enumerable }
{
    Descriptor {
        body: Body::Value {
            value,
            writable: false,
        },
        enumerable,
        configurable: true,
    }
}

/// The property that a child makes.
pub(crate) fn child_property(enumerable: bool, nav: u32) -> Descriptor
    ensures { result ≡ child_property enumerable nav }
{
    constant(Value::Window(nav), enumerable)
}

// What others see at a key that is no index: the list, a child of that name, the fallback.
fn foreign_named<M: Met>(met: &M, key: &Key) -> Result<Descriptor, Rule>
    requires { M.fits met.now }
    ensures { result ≡ foreign_named (M.seen met.now) key.now }
{
    if let Some(property) = listed(met.object(), key) {
        return Ok(property);
    }
    if let Some(nav) = met.child_named(key) {
        return Ok(child_property(false, nav));
    }
    if fallback(key) {
        return Ok(constant(undefined(), false));
    }
    Err(Rule::S1)
}

/// What documents that aren't same origin-domain see at a key (HTML Standard, 7.2.1.3.4,
/// CrossOriginGetOwnPropertyHelper, with the WindowProxy's children), or the rule by which they see nothing.
#[tactic(auto, unfolding(object_access::specs::Access::foreign_property))]
pub(crate) fn foreign_property<M: Met>(met: &M, key: &Key) -> Result<Descriptor, Rule>
    requires { M.fits met.now }
    ensures { result ≡ foreign_property (M.seen met.now) key.now }
{
    match met.index(key) {
        None => foreign_named(met, key),
        Some(index) => match met.child(index) {
            None => Err(Rule::S2),
            Some(nav) => Ok(child_property(true, nav)),
        },
    }
}
