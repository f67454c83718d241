ghost use Rattle.std.specs.Prelude.{◌≡◌, option_copied, IfOk};
ghost use Rattle.window_props.specs.Shown.{store_in};
ghost use Rattle.object_access.specs.Access as spec;

use crate::access::foreign::{child_property, foreign_property};
use crate::met::Met;
use crate::values::{null, undefined};
use agent_terms::{Outcome, Rule};
use std::alloc::{AllocError, Global};
use window_props::{Body, Descriptor, Key, Props, Value, own_of};

// The object's own property.
#[tactic(auto, unfolding(object_access::specs::Access::own_property))]
fn own_descriptor<M: Met>(
    met: &M,
    props: Option<&Props>,
    key: &Key,
) -> Result<Option<Descriptor>, AllocError>
    requires { M.fits met.now }
    ensures { IfOk result (λ d. d ≡ spec.own_property (M.seen met.now) (store_in (M.seen met.now).object (option_copied props.entry)) key.now) }
{
    match met.index(key) {
        None => own_of(met.object(), props, key),
        Some(index) => match met.child(index) {
            None => Ok(None),
            Some(nav) => Ok(Some(child_property(true, nav))),
        },
    }
}

/// How an own property is described.
#[tactic(auto, unfolding(object_access::specs::Access::described))]
pub fn own_property<M: Met>(
    met: &M,
    props: Option<&Props>,
    key: &Key,
) -> Result<Outcome, AllocError>
    requires { M.fits met.now }
    ensures { IfOk result (λ o. o ≡ spec.described (M.seen met.now) (store_in (M.seen met.now).object (option_copied props.entry)) key.now) }
{
    if met.is_own() {
        return Ok(Outcome::Own(own_descriptor(met, props, key)?));
    }
    match foreign_property(met, key) {
        Err(rule) => Ok(Outcome::Security(rule)),
        Ok(property) => Ok(Outcome::Own(Some(property))),
    }
}

fn got_own<M: Met>(
    alloc: Global,
    met: &M,
    key: &Key,
    property: Option<Descriptor>,
) -> Result<Value, AllocError>
    requires { M.fits met.now }
    ensures { IfOk result (λ v. v ≡ spec.got_own (M.seen met.now) key.now property) }
{
    match property {
        None => match met.child_named(key) {
            None => Ok(undefined()),
            Some(nav) => Ok(Value::Window(nav)),
        },
        Some(property) => match property.body {
            Body::Value { value, .. } => Ok(value),
            Body::Accessor { .. } => met.getter(alloc, key),
        },
    }
}

fn got_foreign<M: Met>(alloc: Global, met: &M, key: &Key) -> Result<Outcome, AllocError>
    requires { M.fits met.now }
    ensures { IfOk result (λ o. o ≡ spec.got_foreign (M.seen met.now) key.now (spec.foreign_property (M.seen met.now) key.now)) }
{
    match foreign_property(met, key) {
        Err(rule) => Ok(Outcome::Security(rule)),
        Ok(property) => match property.body {
            Body::Value { value, .. } => Ok(Outcome::Value(value)),
            Body::Accessor { get, .. } => {
                if !get {
                    return Ok(Outcome::Security(Rule::S3));
                }
                Ok(Outcome::Value(met.getter(alloc, key)?))
            }
        },
    }
}

/// What a get answers.
#[tactic(auto, unfolding(object_access::specs::Access::got))]
pub fn get<M: Met>(
    alloc: Global,
    met: &M,
    props: Option<&Props>,
    key: &Key,
) -> Result<Outcome, AllocError>
    requires { M.fits met.now }
    ensures { IfOk result (λ o. o ≡ spec.got (M.seen met.now) (store_in (M.seen met.now).object (option_copied props.entry)) key.now) }
{
    if met.is_own() {
        let property = own_descriptor(met, props, key)?;
        return Ok(Outcome::Value(got_own(alloc, met, key, property)?));
    }
    got_foreign(alloc, met, key)
}

/// Whether there is a property.
#[tactic(auto, unfolding(object_access::specs::Access::has))]
pub fn has<M: Met>(met: &M, props: Option<&Props>, key: &Key) -> Result<Outcome, AllocError>
    requires { M.fits met.now }
    ensures { IfOk result (λ o. o ≡ spec.has (M.seen met.now) (store_in (M.seen met.now).object (option_copied props.entry)) key.now) }
{
    if met.is_own() {
        return match own_descriptor(met, props, key)? {
            None => Ok(Outcome::Truth(met.child_named(key).is_some())),
            Some(_) => Ok(Outcome::Truth(true)),
        };
    }
    match foreign_property(met, key) {
        Err(rule) => Ok(Outcome::Security(rule)),
        Ok(_) => Ok(Outcome::Truth(true)),
    }
}

/// The prototype. It takes no memory.
#[tactic(auto, unfolding(object_access::specs::Access::prototype))]
pub fn prototype<M: Met>(met: &M) -> Outcome
    requires { M.fits met.now }
    ensures { result ≡ spec.prototype (M.seen met.now) }
{
    if met.is_own() {
        return Outcome::Value(Value::Prototype(met.kind()));
    }
    Outcome::Value(null())
}

/// What a set of the prototype to null answers. It takes no memory.
pub fn set_prototype<M: Met>(met: &M) -> Outcome
    requires { M.fits met.now }
    ensures { result ≡ spec.prototype_set (M.seen met.now) }
{
    Outcome::Truth(!met.is_own())
}

/// Whether the object is extensible: it is. It takes no memory.
pub fn is_extensible<M: Met>(_met: &M) -> Outcome
    requires { M.fits _met.now }
    ensures { result ≡ spec.extensible (M.seen _met.now) }
{
    Outcome::Truth(true)
}

/// What an end to the object's extensions answers: it is done for none. It takes no memory.
pub fn prevent_extensions<M: Met>(_met: &M) -> Outcome
    requires { M.fits _met.now }
    ensures { result ≡ spec.prevented (M.seen _met.now) }
{
    Outcome::Truth(false)
}
