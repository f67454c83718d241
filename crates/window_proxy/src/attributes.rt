//! What the attributes of a Window give and take (HTML Standard, 7.2.2, the Window object).
ghost use Rattle.std.specs.Prelude.{◌≡◌, ◌<◌, IfOk};
ghost use Rattle.origin_core.specs.Origin.{origin_text};
ghost use Rattle.tree_log.specs.Tree.{origin_of};
ghost use Rattle.object_access.specs.WindowAccess as spec;
ghost use Rattle.object_access.specs.Values.{text};
ghost use Rattle.object_operations.specs.There.{HasLocation};

use agent_terms::{Ask, Outcome};
use object_operations::set_href;
use object_operations::values::{null, text, text_of, truth, undefined, window_or};
use origin_core::origin_text;
use plain_data::Data;
use std::alloc::{AllocError, Global};
use tree_view::View;
use window_props::{Platform, Value};

fn parent_value<V: View>(view: &V, nav: u32) -> Value
    requires { nav < (V.tree view.now).navs }
    ensures { result ≡ spec.parent_value (V.tree view.now) nav }
{
    if view.discarded(nav) {
        return null();
    }
    Value::Window(view.parent(nav).unwrap_or(nav))
}

fn opener_value<V: View>(view: &V, nav: u32) -> Value
    requires { nav < (V.tree view.now).navs }
    ensures { result ≡ spec.opener_value (V.tree view.now) nav }
{
    if view.discarded(nav) {
        return null();
    }
    window_or(null(), view.opener(nav))
}

fn name_value<V: View>(alloc: Global, view: &V, nav: u32) -> Result<Value, AllocError>
    requires { nav < (V.tree view.now).navs }
    ensures { IfOk result (λ v. v ≡ text (spec.name_text (V.tree view.now) nav)) }
{
    if view.discarded(nav) {
        return text(alloc, "");
    }
    text(alloc, view.name(nav))
}

fn origin_value<V: View>(alloc: Global, view: &V, doc: u32) -> Result<Value, AllocError>
    requires { doc < (V.tree view.now).docs }
    ensures { IfOk result (λ v. v ≡ text (origin_text (origin_of (V.tree view.now) doc))) }
{
    let shown = origin_text(alloc, view.origin_of(doc))?;
    text(alloc, shown.as_str())
}

/// What the getter of an attribute gives for the window of a navigable.
#[tactic(auto, unfolding(object_access::specs::WindowAccess::window_value))]
pub(crate) fn window_value<V: View>(
    alloc: Global,
    view: &V,
    nav: u32,
    name: Platform,
) -> Result<Value, AllocError>
    requires { nav < (V.tree view.now).navs }
    ensures { IfOk result (λ v. v ≡ spec.window_value (V.tree view.now) nav name) }
{
    match name {
        Platform::Window | Platform::Itself | Platform::Frames => Ok(Value::Window(nav)),
        Platform::Location => Ok(Value::Location(view.active(nav))),
        Platform::Length => {
            let count = view.child_count(view.active(nav));
            Ok(Value::Plain(Data::Whole(i64::from(count))))
        }
        Platform::Top => Ok(window_or(null(), view.top(nav))),
        Platform::Parent => Ok(parent_value(view, nav)),
        Platform::Closed => Ok(truth(view.discarded(nav) || view.closing(nav))),
        Platform::Opener => Ok(opener_value(view, nav)),
        Platform::Name => name_value(alloc, view, nav),
        Platform::Origin => origin_value(alloc, view, view.active(nav)),
        _ => Ok(undefined()),
    }
}

/// What the setter of an attribute comes to for the Window of a document. `opener` is set to null here.
#[tactic(auto, unfolding(object_access::specs::WindowAccess::window_set))]
pub(crate) fn window_set<V: View>(
    alloc: Global,
    view: &V,
    asker: u32,
    doc: u32,
    name: Platform,
    value: &Value,
) -> Result<Outcome, AllocError>
    requires { HasLocation (V.tree view.now) asker doc }
    ensures { IfOk result (λ o. o ≡ spec.window_set (V.tree view.now) (V.urls view.now) asker doc name value.now) }
{
    match name {
        Platform::Location => set_href(alloc, view, asker, doc, value),
        Platform::Name => match text_of(alloc, value)? {
            None => Ok(Outcome::TypeFault),
            Some(name) => Ok(Outcome::Ask(Ask::Name { doc, name })),
        },
        Platform::Opener => Ok(Outcome::Ask(Ask::Disown { doc })),
        _ => Ok(Outcome::Truth(false)),
    }
}
