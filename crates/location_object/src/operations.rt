ghost use Rattle.std.specs.Prelude.{◌≡◌, true, false, None, option_copied, IfOk, OnErr, IsTrue};
ghost use Rattle.window_props.specs.Shown.{store_in};
ghost use Rattle.window_props.specs.Holding.{can_hold};
ghost use Rattle.window_props.specs.declared.platform.Object.TheVariants.{Location};
ghost use Rattle.window_props.specs.Ordinary.{Define, Set, Delete};
ghost use Rattle.object_access.specs.Access as spec;
ghost use Rattle.object_access.specs.Methods.{called};
ghost use Rattle.object_access.specs.LocationAccess.{location};
ghost use Rattle.object_access.specs.Verdict as ruling;
ghost use Rattle.object_operations.specs.There.{HasLocation};

use crate::location::LocationMet;
use agent_terms::{Op, Outcome, Ruling};
use object_operations::access;
use std::alloc::{AllocError, Global};
use tree_view::View;
use window_props::{Change, Key, Props, Value};

/// Whether an operation on a document's Location is allowed, and else by which rule it is refused. It takes no memory.
pub fn verdict<V: View>(view: &V, asker: u32, doc: u32, op: Op, key: &Key) -> Ruling
    requires { HasLocation (V.tree view.now) asker doc }
    ensures { result ≡ ruling.verdict (location (V.tree view.now) (V.urls view.now) asker doc) op key.now }
{
    access::verdict(&LocationMet { view, asker, doc }, op, key)
}

/// How a property is described (HTML Standard, 7.2.4.5, [[GetOwnProperty]]).
pub fn own_property<V: View>(
    view: &V,
    props: Option<&Props>,
    asker: u32,
    doc: u32,
    key: &Key,
) -> Result<Outcome, AllocError>
    requires { HasLocation (V.tree view.now) asker doc }
    ensures { let seen = location (V.tree view.now) (V.urls view.now) asker doc in IfOk result (λ o. o ≡ spec.described seen (store_in seen.object (option_copied props.entry)) key.now) }
{
    access::own_property(&LocationMet { view, asker, doc }, props, key)
}

/// What a get answers (HTML Standard, 7.2.4.7, [[Get]]).
pub fn get<V: View>(
    alloc: Global,
    view: &V,
    props: Option<&Props>,
    asker: u32,
    doc: u32,
    key: &Key,
) -> Result<Outcome, AllocError>
    requires { HasLocation (V.tree view.now) asker doc }
    ensures { let seen = location (V.tree view.now) (V.urls view.now) asker doc in IfOk result (λ o. o ≡ spec.got seen (store_in seen.object (option_copied props.entry)) key.now) }
{
    access::get(alloc, &LocationMet { view, asker, doc }, props, key)
}

/// Whether there is a property (ECMA-262, OrdinaryHasProperty).
pub fn has<V: View>(
    view: &V,
    props: Option<&Props>,
    asker: u32,
    doc: u32,
    key: &Key,
) -> Result<Outcome, AllocError>
    requires { HasLocation (V.tree view.now) asker doc }
    ensures { let seen = location (V.tree view.now) (V.urls view.now) asker doc in IfOk result (λ o. o ≡ spec.has seen (store_in seen.object (option_copied props.entry)) key.now) }
{
    access::has(&LocationMet { view, asker, doc }, props, key)
}

/// What a set answers (HTML Standard, 7.2.4.8, [[Set]]). Every answer but true leaves the properties as they were, and
/// so does an `Err`. A foreign object is given no store.
pub fn set<V: View>(
    alloc: Global,
    view: &V,
    props: &mut Option<Props>,
    asker: u32,
    doc: u32,
    key: &Key,
    value: Value,
) -> Result<Outcome, AllocError>
    requires there { HasLocation (V.tree view.now) asker doc }
    requires store { IsTrue (can_hold (store_in (Location doc) props.old).object key.now) }
    ensures ok { let seen = location (V.tree view.now) (V.urls view.now) asker doc in IfOk result (λ o. o ≡ spec.set seen (store_in seen.object props.old) key.now value) }
    ensures left { let seen = location (V.tree view.now) (V.urls view.now) asker doc in IfOk result (λ _. store_in seen.object props.new ≡ spec.store_left seen (store_in seen.object props.old) key.now (Set value)) }
    ensures kept { let seen = location (V.tree view.now) (V.urls view.now) asker doc in IfOk result (λ o. ¬ (o ≡ Outcome.Truth true) → store_in seen.object props.new ≡ store_in seen.object props.old) }
    ensures err { let seen = location (V.tree view.now) (V.urls view.now) asker doc in OnErr result (store_in seen.object props.new ≡ store_in seen.object props.old) }
    ensures foreign { (location (V.tree view.now) (V.urls view.now) asker doc).own ≡ false → props.new ≡ props.old }
{
    access::set(alloc, &LocationMet { view, asker, doc }, props, key, value)
}

/// What a define answers (HTML Standard, 7.2.4.6, [[DefineOwnProperty]]). Every answer but true leaves the properties as
/// they were, and so does an `Err`. A foreign object is given no store.
pub fn define<V: View>(
    alloc: Global,
    view: &V,
    props: &mut Option<Props>,
    asker: u32,
    doc: u32,
    key: &Key,
    change: Change,
) -> Result<Outcome, AllocError>
    requires there { HasLocation (V.tree view.now) asker doc }
    requires store { IsTrue (can_hold (store_in (Location doc) props.old).object key.now) }
    ensures ok { let seen = location (V.tree view.now) (V.urls view.now) asker doc in IfOk result (λ o. o ≡ spec.defined seen (store_in seen.object props.old) key.now change) }
    ensures left { let seen = location (V.tree view.now) (V.urls view.now) asker doc in IfOk result (λ _. store_in seen.object props.new ≡ spec.store_left seen (store_in seen.object props.old) key.now (Define change)) }
    ensures kept { let seen = location (V.tree view.now) (V.urls view.now) asker doc in IfOk result (λ o. ¬ (o ≡ Outcome.Truth true) → store_in seen.object props.new ≡ store_in seen.object props.old) }
    ensures err { let seen = location (V.tree view.now) (V.urls view.now) asker doc in OnErr result (store_in seen.object props.new ≡ store_in seen.object props.old) }
    ensures foreign { (location (V.tree view.now) (V.urls view.now) asker doc).own ≡ false → props.new ≡ props.old }
{
    access::define(alloc, &LocationMet { view, asker, doc }, props, key, change)
}

/// What a delete answers (HTML Standard, 7.2.4.9, [[Delete]]). Every answer but true leaves the properties as they were, and
/// so does an `Err`. Memory can be wanting only where no store is kept, and a foreign object is given none.
pub fn delete<V: View>(
    alloc: Global,
    view: &V,
    props: &mut Option<Props>,
    asker: u32,
    doc: u32,
    key: &Key,
) -> Result<Outcome, AllocError>
    requires there { HasLocation (V.tree view.now) asker doc }
    requires store { IsTrue (can_hold (store_in (Location doc) props.old).object key.now) }
    ensures ok { let seen = location (V.tree view.now) (V.urls view.now) asker doc in IfOk result (λ o. o ≡ spec.deleted seen (store_in seen.object props.old) key.now) }
    ensures left { let seen = location (V.tree view.now) (V.urls view.now) asker doc in IfOk result (λ _. store_in seen.object props.new ≡ spec.store_left seen (store_in seen.object props.old) key.now Delete) }
    ensures kept { let seen = location (V.tree view.now) (V.urls view.now) asker doc in IfOk result (λ o. ¬ (o ≡ Outcome.Truth true) → store_in seen.object props.new ≡ store_in seen.object props.old) }
    ensures err { let seen = location (V.tree view.now) (V.urls view.now) asker doc in OnErr result (store_in seen.object props.new ≡ store_in seen.object props.old) }
    ensures none { OnErr result (props.old ≡ None) }
    ensures foreign { (location (V.tree view.now) (V.urls view.now) asker doc).own ≡ false → props.new ≡ props.old }
{
    access::delete(alloc, &LocationMet { view, asker, doc }, props, key)
}

/// The keys of the properties, in order (HTML Standard, 7.2.4.10, [[OwnPropertyKeys]]).
pub fn own_keys<V: View>(
    alloc: Global,
    view: &V,
    props: Option<&Props>,
    asker: u32,
    doc: u32,
) -> Result<Outcome, AllocError>
    requires { HasLocation (V.tree view.now) asker doc }
    ensures { let seen = location (V.tree view.now) (V.urls view.now) asker doc in IfOk result (λ o. o ≡ spec.keys seen (store_in seen.object (option_copied props.entry))) }
{
    access::own_keys(alloc, &LocationMet { view, asker, doc }, props)
}

/// The prototype (HTML Standard, 7.2.4.1, [[GetPrototypeOf]]): null for a document that isn't same origin-domain. It
/// takes no memory.
pub fn prototype<V: View>(view: &V, asker: u32, doc: u32) -> Outcome
    requires { HasLocation (V.tree view.now) asker doc }
    ensures { result ≡ spec.prototype (location (V.tree view.now) (V.urls view.now) asker doc) }
{
    access::prototype(&LocationMet { view, asker, doc })
}

/// What a set of the prototype to null answers (HTML Standard, 7.2.4.2, [[SetPrototypeOf]]): true where it is null already. It
/// takes no memory.
pub fn set_prototype<V: View>(view: &V, asker: u32, doc: u32) -> Outcome
    requires { HasLocation (V.tree view.now) asker doc }
    ensures { result ≡ spec.prototype_set (location (V.tree view.now) (V.urls view.now) asker doc) }
{
    access::set_prototype(&LocationMet { view, asker, doc })
}

/// Whether it is extensible (HTML Standard, 7.2.4.3, [[IsExtensible]]): it is. It takes no memory.
pub fn is_extensible<V: View>(view: &V, asker: u32, doc: u32) -> Outcome
    requires { HasLocation (V.tree view.now) asker doc }
    ensures { result ≡ spec.extensible (location (V.tree view.now) (V.urls view.now) asker doc) }
{
    access::is_extensible(&LocationMet { view, asker, doc })
}

/// What an end to its extensions answers (HTML Standard, 7.2.4.4, [[PreventExtensions]]): it is done for none. It takes no memory.
pub fn prevent_extensions<V: View>(view: &V, asker: u32, doc: u32) -> Outcome
    requires { HasLocation (V.tree view.now) asker doc }
    ensures { result ≡ spec.prevented (location (V.tree view.now) (V.urls view.now) asker doc) }
{
    access::prevent_extensions(&LocationMet { view, asker, doc })
}

/// What a call of the method under a key answers: `assign` and `replace`. A value there that isn't the Location's
/// own method of that key is `TypeFault`.
pub fn call<V: View>(
    alloc: Global,
    view: &V,
    props: Option<&Props>,
    asker: u32,
    doc: u32,
    key: &Key,
    args: &[Value],
) -> Result<Outcome, AllocError>
    requires { HasLocation (V.tree view.now) asker doc }
    ensures { let seen = location (V.tree view.now) (V.urls view.now) asker doc in IfOk result (λ o. o ≡ called (V.tree view.now) (V.urls view.now) asker seen (store_in seen.object (option_copied props.entry)) key.now args.now) }
{
    access::call(alloc, &LocationMet { view, asker, doc }, props, key, args)
}
