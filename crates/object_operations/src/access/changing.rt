ghost use Rattle.std.specs.Prelude.{◌≡◌, true, false, IfOk, OnErr, IsTrue};
ghost use Rattle.window_props.specs.Shown.{store_in};
ghost use Rattle.window_props.specs.Holding.{can_hold};
ghost use Rattle.window_props.specs.History.{store_after, answer_in, set_at, define_at, delete_at};
ghost use Rattle.window_props.specs.Ordinary.{Define, Set, Delete};
ghost use Rattle.window_props.specs.declared.props.SetAnswer.TheVariants.{Truth};
ghost use Rattle.object_access.specs.Access as spec;
ghost use Rattle.object_operations.specs.There.{Holds};

use crate::access::foreign::foreign_property;
use crate::met::Met;
use agent_terms::{Outcome, Rule};
use std::alloc::{AllocError, Global};
use window_props::{Body, Change, Key, Object, Props, SetAnswer, Value};

fn set_foreign<M: Met>(
    alloc: Global,
    met: &M,
    key: &Key,
    value: &Value,
) -> Result<Outcome, AllocError>
    requires { M.fits met.now }
    ensures { IfOk result (λ o. o ≡ spec.set_foreign (M.seen met.now) key.now value.now (spec.foreign_property (M.seen met.now) key.now)) }
{
    match foreign_property(met, key) {
        Err(rule) => Ok(Outcome::Security(rule)),
        Ok(property) => match property.body {
            Body::Value { .. } => Ok(Outcome::Security(Rule::S4)),
            Body::Accessor { set, .. } => {
                if !set {
                    return Ok(Outcome::Security(Rule::S4));
                }
                met.setter(alloc, key, value)
            }
        },
    }
}

fn set_stored(
    alloc: Global,
    object: Object,
    props: &mut Option<Props>,
    key: &Key,
    value: Value,
) -> Result<SetAnswer, AllocError>
    requires { IsTrue (can_hold (store_in object props.old).object key.now) }
    ensures ok { IfOk result (λ answer. answer ≡ answer_in (store_in object props.old) (set_at key.now value)) }
    ensures after { IfOk result (λ _. store_in object props.new ≡ store_after (store_in object props.old) (set_at key.now value)) }
    ensures err { OnErr result (store_in object props.new ≡ store_in object props.old) }
{
    let mut store = Props::or_new(alloc, object, props.take())?;
    let answer = store.set(key, value);
    *props = Some(store);
    answer
}

// Sets the own property, or runs the platform's setter.
fn set_own<M: Met>(
    alloc: Global,
    met: &M,
    props: &mut Option<Props>,
    key: &Key,
    value: Value,
) -> Result<Outcome, AllocError>
    requires there { M.fits met.now }
    requires store { IsTrue (can_hold (store_in (M.seen met.now).object props.old).object key.now) }
    ensures ok { IfOk result (λ o. o ≡ spec.settled_own (M.seen met.now) key.now value (answer_in (store_in (M.seen met.now).object props.old) (set_at key.now value))) }
    ensures after { IfOk result (λ _. store_in (M.seen met.now).object props.new ≡ store_after (store_in (M.seen met.now).object props.old) (set_at key.now value)) }
    ensures err { OnErr result (store_in (M.seen met.now).object props.new ≡ store_in (M.seen met.now).object props.old) }
{
    let copy = value.clone()?;
    match set_stored(alloc, met.object(), props, key, value)? {
        SetAnswer::Truth(truth) => Ok(Outcome::Truth(truth)),
        SetAnswer::TypeFault => Ok(Outcome::TypeFault),
        SetAnswer::Setter => met.setter(alloc, key, &copy),
    }
}

fn define_stored(
    alloc: Global,
    object: Object,
    props: &mut Option<Props>,
    key: &Key,
    change: Change,
) -> Result<bool, AllocError>
    requires { IsTrue (can_hold (store_in object props.old).object key.now) }
    ensures ok { IfOk result (λ b. Truth b ≡ answer_in (store_in object props.old) (define_at key.now change)) }
    ensures after { IfOk result (λ _. store_in object props.new ≡ store_after (store_in object props.old) (define_at key.now change)) }
    ensures err { OnErr result (store_in object props.new ≡ store_in object props.old) }
{
    let mut store = Props::or_new(alloc, object, props.take())?;
    let answer = store.define(key, change);
    *props = Some(store);
    answer
}

fn delete_stored(
    alloc: Global,
    object: Object,
    props: &mut Option<Props>,
    key: &Key,
) -> Result<bool, AllocError>
    requires { IsTrue (can_hold (store_in object props.old).object key.now) }
    ensures ok { IfOk result (λ b. Truth b ≡ answer_in (store_in object props.old) (delete_at key.now)) }
    ensures after { IfOk result (λ _. store_in object props.new ≡ store_after (store_in object props.old) (delete_at key.now)) }
    ensures err { OnErr result (store_in object props.new ≡ store_in object props.old) }
    ensures none { OnErr result (props.old ≡ None) }
{
    let mut store = Props::or_new(alloc, object, props.take())?;
    let answer = store.delete(key);
    *props = Some(store);
    Ok(answer)
}

/// What a set answers. Every answer but true leaves the properties as they were, and so does an `Err`. A foreign object
/// is given no store.
#[tactic(auto, unfolding(object_access::specs::Access::set, object_access::specs::Access::store_left))]
pub fn set<M: Met>(
    alloc: Global,
    met: &M,
    props: &mut Option<Props>,
    key: &Key,
    value: Value,
) -> Result<Outcome, AllocError>
    requires there { M.fits met.now }
    requires store { Holds (M.seen met.now) (store_in (M.seen met.now).object props.old) key.now }
    ensures ok { IfOk result (λ o. o ≡ spec.set (M.seen met.now) (store_in (M.seen met.now).object props.old) key.now value) }
    ensures left { IfOk result (λ _. store_in (M.seen met.now).object props.new ≡ spec.store_left (M.seen met.now) (store_in (M.seen met.now).object props.old) key.now (Set value)) }
    ensures kept { IfOk result (λ o. ¬ (o ≡ Outcome.Truth true) → store_in (M.seen met.now).object props.new ≡ store_in (M.seen met.now).object props.old) }
    ensures err { OnErr result (store_in (M.seen met.now).object props.new ≡ store_in (M.seen met.now).object props.old) }
    ensures foreign { (M.seen met.now).own ≡ false → props.new ≡ props.old }
{
    if !met.is_own() {
        return set_foreign(alloc, met, key, &value);
    }
    if met.index(key).is_some() {
        return Ok(Outcome::Truth(false));
    }
    set_own(alloc, met, props, key, value)
}

/// What a define answers. Every answer but true leaves the properties as they were, and so does an `Err`. A foreign object
/// is given no store.
#[tactic(auto, unfolding(object_access::specs::Access::defined, object_access::specs::Access::store_left))]
pub fn define<M: Met>(
    alloc: Global,
    met: &M,
    props: &mut Option<Props>,
    key: &Key,
    change: Change,
) -> Result<Outcome, AllocError>
    requires there { M.fits met.now }
    requires store { Holds (M.seen met.now) (store_in (M.seen met.now).object props.old) key.now }
    ensures ok { IfOk result (λ o. o ≡ spec.defined (M.seen met.now) (store_in (M.seen met.now).object props.old) key.now change) }
    ensures left { IfOk result (λ _. store_in (M.seen met.now).object props.new ≡ spec.store_left (M.seen met.now) (store_in (M.seen met.now).object props.old) key.now (Define change)) }
    ensures kept { IfOk result (λ o. ¬ (o ≡ Outcome.Truth true) → store_in (M.seen met.now).object props.new ≡ store_in (M.seen met.now).object props.old) }
    ensures err { OnErr result (store_in (M.seen met.now).object props.new ≡ store_in (M.seen met.now).object props.old) }
    ensures foreign { (M.seen met.now).own ≡ false → props.new ≡ props.old }
{
    if !met.is_own() {
        return Ok(Outcome::Security(Rule::S5));
    }
    if met.index(key).is_some() {
        return Ok(Outcome::Truth(false));
    }
    let answer = define_stored(alloc, met.object(), props, key, change)?;
    Ok(Outcome::Truth(answer))
}

/// What a delete answers. Every answer but true leaves the properties as they were, and so does an `Err`. Memory can be
/// wanting only where no store is kept, and a foreign object is given none.
#[tactic(auto, unfolding(object_access::specs::Access::deleted, object_access::specs::Access::store_left))]
pub fn delete<M: Met>(
    alloc: Global,
    met: &M,
    props: &mut Option<Props>,
    key: &Key,
) -> Result<Outcome, AllocError>
    requires there { M.fits met.now }
    requires store { Holds (M.seen met.now) (store_in (M.seen met.now).object props.old) key.now }
    ensures ok { IfOk result (λ o. o ≡ spec.deleted (M.seen met.now) (store_in (M.seen met.now).object props.old) key.now) }
    ensures left { IfOk result (λ _. store_in (M.seen met.now).object props.new ≡ spec.store_left (M.seen met.now) (store_in (M.seen met.now).object props.old) key.now Delete) }
    ensures kept { IfOk result (λ o. ¬ (o ≡ Outcome.Truth true) → store_in (M.seen met.now).object props.new ≡ store_in (M.seen met.now).object props.old) }
    ensures err { OnErr result (store_in (M.seen met.now).object props.new ≡ store_in (M.seen met.now).object props.old) }
    ensures none { OnErr result (props.old ≡ None) }
    ensures foreign { (M.seen met.now).own ≡ false → props.new ≡ props.old }
{
    if !met.is_own() {
        return Ok(Outcome::Security(Rule::S6));
    }
    if let Some(index) = met.index(key) {
        return Ok(Outcome::Truth(met.child(index).is_none()));
    }
    let answer = delete_stored(alloc, met.object(), props, key)?;
    Ok(Outcome::Truth(answer))
}
