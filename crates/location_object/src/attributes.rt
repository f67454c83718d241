//! What the attributes of a Location give (HTML Standard, 7.2.4, `href` and `origin`).
ghost use Rattle.std.specs.Prelude.{◌≡◌, ◌<◌, IfOk};
ghost use Rattle.origin_core.specs.Origin.{page_origin};
ghost use Rattle.object_access.specs.LocationAccess as spec;
ghost use Rattle.object_access.specs.Values.{text};

use object_operations::values::{text, undefined};
use origin_core::{origin_text, url_origin};
use std::alloc::{AllocError, Global};
use tree_view::View;
use window_props::{Platform, Value};

fn href_value<V: View>(alloc: Global, view: &V, doc: u32) -> Result<Value, AllocError>
    requires { doc < (V.tree view.now).docs }
    ensures { IfOk result (λ v. v ≡ text (spec.location_url (V.tree view.now) (V.urls view.now) doc)) }
{
    if !view.is_active(doc) {
        return text(alloc, "about:blank");
    }
    text(alloc, view.url_of(doc).as_str())
}

#[tactic(auto, using(crate::proofs::BlankLaws::blank_origin))]
fn origin_value<V: View>(alloc: Global, view: &V, doc: u32) -> Result<Value, AllocError>
    requires { doc < (V.tree view.now).docs }
    ensures { IfOk result (λ v. v ≡ text (spec.text_of_origin (page_origin (spec.location_url (V.tree view.now) (V.urls view.now) doc)))) }
{
    if !view.is_active(doc) {
        return text(alloc, "null");
    }
    match url_origin(alloc, view.url_of(doc))? {
        None => text(alloc, "null"),
        Some(origin) => text(alloc, origin_text(alloc, &origin)?.as_str()),
    }
}

/// What the getter of an attribute gives for the Location of a document.
#[tactic(auto, unfolding(object_access::specs::LocationAccess::location_value))]
pub(crate) fn location_value<V: View>(
    alloc: Global,
    view: &V,
    doc: u32,
    name: Platform,
) -> Result<Value, AllocError>
    requires { doc < (V.tree view.now).docs }
    ensures { IfOk result (λ v. v ≡ spec.location_value (V.tree view.now) (V.urls view.now) doc name) }
{
    match name {
        Platform::Href => href_value(alloc, view, doc),
        Platform::Origin => origin_value(alloc, view, doc),
        _ => Ok(undefined()),
    }
}
