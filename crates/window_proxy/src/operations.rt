ghost use Rattle.std.specs.Prelude.{◌≡◌, true, false, None, option_copied, IfOk, OnErr};
ghost use Rattle.window_props.specs.Shown.{store_in};
ghost use Rattle.window_props.specs.Ordinary.{Define, Set, Delete};
ghost use Rattle.object_access.specs.Access as spec;
ghost use Rattle.object_access.specs.Methods.{called};
ghost use Rattle.object_access.specs.WindowAccess.{window};
ghost use Rattle.object_access.specs.Verdict as ruling;
ghost use Rattle.object_operations.specs.There.{HasWindow};

use crate::window::WindowMet;
use agent_terms::{Op, Outcome, Ruling};
use object_operations::access;
use std::alloc::{AllocError, Global};
use tree_view::View;
use window_props::{Change, Key, Props, Value};

/// Whether an operation through the WindowProxy is allowed, and else by which rule it is refused. It takes no memory.
pub fn verdict<V: View>(view: &V, asker: u32, nav: u32, op: Op, key: &Key) -> Ruling
    requires { HasWindow (V.tree view.now) asker nav }
    ensures { result ≡ ruling.verdict (window (V.tree view.now) (V.urls view.now) asker nav) op key.now }
{
    access::verdict(&WindowMet { view, asker, nav }, op, key)
}

/// How a property is described (HTML Standard, 7.2.3.5, [[GetOwnProperty]]).
pub fn own_property<V: View>(
    view: &V,
    props: Option<&Props>,
    asker: u32,
    nav: u32,
    key: &Key,
) -> Result<Outcome, AllocError>
    requires { HasWindow (V.tree view.now) asker nav }
    ensures { let seen = window (V.tree view.now) (V.urls view.now) asker nav in IfOk result (λ o. o ≡ spec.described seen (store_in seen.object (option_copied props.entry)) key.now) }
{
    access::own_property(&WindowMet { view, asker, nav }, props, key)
}

/// What a get answers (HTML Standard, 7.2.3.7, [[Get]]).
pub fn get<V: View>(
    alloc: Global,
    view: &V,
    props: Option<&Props>,
    asker: u32,
    nav: u32,
    key: &Key,
) -> Result<Outcome, AllocError>
    requires { HasWindow (V.tree view.now) asker nav }
    ensures { let seen = window (V.tree view.now) (V.urls view.now) asker nav in IfOk result (λ o. o ≡ spec.got seen (store_in seen.object (option_copied props.entry)) key.now) }
{
    access::get(alloc, &WindowMet { view, asker, nav }, props, key)
}

/// Whether there is a property (ECMA-262, OrdinaryHasProperty, with the children by their names).
pub fn has<V: View>(
    view: &V,
    props: Option<&Props>,
    asker: u32,
    nav: u32,
    key: &Key,
) -> Result<Outcome, AllocError>
    requires { HasWindow (V.tree view.now) asker nav }
    ensures { let seen = window (V.tree view.now) (V.urls view.now) asker nav in IfOk result (λ o. o ≡ spec.has seen (store_in seen.object (option_copied props.entry)) key.now) }
{
    access::has(&WindowMet { view, asker, nav }, props, key)
}

/// What a set answers (HTML Standard, 7.2.3.8, [[Set]]). Every answer but true leaves the properties as they were, and
/// so does an `Err`. A foreign object is given no store.
#[tactic(auto, using(crate::proofs::HoldLaws::window_holds))]
pub fn set<V: View>(
    alloc: Global,
    view: &V,
    props: &mut Option<Props>,
    asker: u32,
    nav: u32,
    key: &Key,
    value: Value,
) -> Result<Outcome, AllocError>
    requires { HasWindow (V.tree view.now) asker nav }
    ensures ok { let seen = window (V.tree view.now) (V.urls view.now) asker nav in IfOk result (λ o. o ≡ spec.set seen (store_in seen.object props.old) key.now value) }
    ensures left { let seen = window (V.tree view.now) (V.urls view.now) asker nav in IfOk result (λ _. store_in seen.object props.new ≡ spec.store_left seen (store_in seen.object props.old) key.now (Set value)) }
    ensures kept { let seen = window (V.tree view.now) (V.urls view.now) asker nav in IfOk result (λ o. ¬ (o ≡ Outcome.Truth true) → store_in seen.object props.new ≡ store_in seen.object props.old) }
    ensures err { let seen = window (V.tree view.now) (V.urls view.now) asker nav in OnErr result (store_in seen.object props.new ≡ store_in seen.object props.old) }
    ensures foreign { (window (V.tree view.now) (V.urls view.now) asker nav).own ≡ false → props.new ≡ props.old }
{
    access::set(alloc, &WindowMet { view, asker, nav }, props, key, value)
}

/// What a define answers (HTML Standard, 7.2.3.6, [[DefineOwnProperty]]). Every answer but true leaves the properties as
/// they were, and so does an `Err`. A foreign object is given no store.
#[tactic(auto, using(crate::proofs::HoldLaws::window_holds))]
pub fn define<V: View>(
    alloc: Global,
    view: &V,
    props: &mut Option<Props>,
    asker: u32,
    nav: u32,
    key: &Key,
    change: Change,
) -> Result<Outcome, AllocError>
    requires { HasWindow (V.tree view.now) asker nav }
    ensures ok { let seen = window (V.tree view.now) (V.urls view.now) asker nav in IfOk result (λ o. o ≡ spec.defined seen (store_in seen.object props.old) key.now change) }
    ensures left { let seen = window (V.tree view.now) (V.urls view.now) asker nav in IfOk result (λ _. store_in seen.object props.new ≡ spec.store_left seen (store_in seen.object props.old) key.now (Define change)) }
    ensures kept { let seen = window (V.tree view.now) (V.urls view.now) asker nav in IfOk result (λ o. ¬ (o ≡ Outcome.Truth true) → store_in seen.object props.new ≡ store_in seen.object props.old) }
    ensures err { let seen = window (V.tree view.now) (V.urls view.now) asker nav in OnErr result (store_in seen.object props.new ≡ store_in seen.object props.old) }
    ensures foreign { (window (V.tree view.now) (V.urls view.now) asker nav).own ≡ false → props.new ≡ props.old }
{
    access::define(alloc, &WindowMet { view, asker, nav }, props, key, change)
}

/// What a delete answers (HTML Standard, 7.2.3.9, [[Delete]]). Every answer but true leaves the properties as they were, and
/// so does an `Err`. Memory can be wanting only where no store is kept, and a foreign object is given none.
#[tactic(auto, using(crate::proofs::HoldLaws::window_holds))]
pub fn delete<V: View>(
    alloc: Global,
    view: &V,
    props: &mut Option<Props>,
    asker: u32,
    nav: u32,
    key: &Key,
) -> Result<Outcome, AllocError>
    requires { HasWindow (V.tree view.now) asker nav }
    ensures ok { let seen = window (V.tree view.now) (V.urls view.now) asker nav in IfOk result (λ o. o ≡ spec.deleted seen (store_in seen.object props.old) key.now) }
    ensures left { let seen = window (V.tree view.now) (V.urls view.now) asker nav in IfOk result (λ _. store_in seen.object props.new ≡ spec.store_left seen (store_in seen.object props.old) key.now Delete) }
    ensures kept { let seen = window (V.tree view.now) (V.urls view.now) asker nav in IfOk result (λ o. ¬ (o ≡ Outcome.Truth true) → store_in seen.object props.new ≡ store_in seen.object props.old) }
    ensures err { let seen = window (V.tree view.now) (V.urls view.now) asker nav in OnErr result (store_in seen.object props.new ≡ store_in seen.object props.old) }
    ensures none { OnErr result (props.old ≡ None) }
    ensures foreign { (window (V.tree view.now) (V.urls view.now) asker nav).own ≡ false → props.new ≡ props.old }
{
    access::delete(alloc, &WindowMet { view, asker, nav }, props, key)
}

/// The keys of the properties, in order (HTML Standard, 7.2.3.10, [[OwnPropertyKeys]]).
pub fn own_keys<V: View>(
    alloc: Global,
    view: &V,
    props: Option<&Props>,
    asker: u32,
    nav: u32,
) -> Result<Outcome, AllocError>
    requires { HasWindow (V.tree view.now) asker nav }
    ensures { let seen = window (V.tree view.now) (V.urls view.now) asker nav in IfOk result (λ o. o ≡ spec.keys seen (store_in seen.object (option_copied props.entry))) }
{
    access::own_keys(alloc, &WindowMet { view, asker, nav }, props)
}

/// The prototype (HTML Standard, 7.2.3.1, [[GetPrototypeOf]]): null for a document that isn't same origin-domain. It
/// takes no memory.
pub fn prototype<V: View>(view: &V, asker: u32, nav: u32) -> Outcome
    requires { HasWindow (V.tree view.now) asker nav }
    ensures { result ≡ spec.prototype (window (V.tree view.now) (V.urls view.now) asker nav) }
{
    access::prototype(&WindowMet { view, asker, nav })
}

/// What a set of the prototype to null answers (HTML Standard, 7.2.3.2, [[SetPrototypeOf]]): true where it is null already. It
/// takes no memory.
pub fn set_prototype<V: View>(view: &V, asker: u32, nav: u32) -> Outcome
    requires { HasWindow (V.tree view.now) asker nav }
    ensures { result ≡ spec.prototype_set (window (V.tree view.now) (V.urls view.now) asker nav) }
{
    access::set_prototype(&WindowMet { view, asker, nav })
}

/// Whether it is extensible (HTML Standard, 7.2.3.3, [[IsExtensible]]): it is. It takes no memory.
pub fn is_extensible<V: View>(view: &V, asker: u32, nav: u32) -> Outcome
    requires { HasWindow (V.tree view.now) asker nav }
    ensures { result ≡ spec.extensible (window (V.tree view.now) (V.urls view.now) asker nav) }
{
    access::is_extensible(&WindowMet { view, asker, nav })
}

/// What an end to its extensions answers (HTML Standard, 7.2.3.4, [[PreventExtensions]]): it is done for none. It takes no memory.
pub fn prevent_extensions<V: View>(view: &V, asker: u32, nav: u32) -> Outcome
    requires { HasWindow (V.tree view.now) asker nav }
    ensures { result ≡ spec.prevented (window (V.tree view.now) (V.urls view.now) asker nav) }
{
    access::prevent_extensions(&WindowMet { view, asker, nav })
}

/// What a call of the method under a key answers: `close`, `focus`, `blur` and `postMessage`. A value there that isn't the
/// Window's own method of that key is `TypeFault`.
pub fn call<V: View>(
    alloc: Global,
    view: &V,
    props: Option<&Props>,
    asker: u32,
    nav: u32,
    key: &Key,
    args: &[Value],
) -> Result<Outcome, AllocError>
    requires { HasWindow (V.tree view.now) asker nav }
    ensures { let seen = window (V.tree view.now) (V.urls view.now) asker nav in IfOk result (λ o. o ≡ called (V.tree view.now) (V.urls view.now) asker seen (store_in seen.object (option_copied props.entry)) key.now args.now) }
{
    access::call(alloc, &WindowMet { view, asker, nav }, props, key, args)
}
