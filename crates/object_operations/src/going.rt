ghost use Rattle.std.specs.Prelude.{◌≡◌, IfOk};
ghost use Rattle.object_access.specs.Going as spec;
ghost use Rattle.object_operations.specs.There.{HasLocation};

use crate::values::text_of;
use agent_terms::{Ask, Outcome};
use origin_core::{UrlError, read_url};
use std::alloc::{AllocError, Global};
use tree_view::View;
use window_props::Value;

/// Where a Location goes that is sent to a text by a document (HTML Standard, 7.2.4, Location-object navigate).
///
/// `None` exactly where the Location's document isn't active. Else it is `Ask`, `Syntax` or `SchemeOut`.
#[tactic(auto, unfolding(object_access::specs::Going::go))]
pub fn go<V: View>(
    alloc: Global,
    view: &V,
    asker: u32,
    doc: u32,
    text: &str,
) -> Result<Option<Outcome>, AllocError>
    requires { HasLocation (V.tree view.now) asker doc }
    ensures { IfOk result (λ o. o ≡ spec.go (V.tree view.now) (V.urls view.now) asker doc text.now) }
{
    if !view.is_active(doc) {
        return Ok(None);
    }
    match read_url(alloc, text, Some(view.url_of(asker))) {
        Ok(url) => Ok(Some(Outcome::Ask(Ask::Go { doc, url }))),
        Err(UrlError::NotAUrl) => Ok(Some(Outcome::Syntax)),
        Err(UrlError::SchemeOut) => Ok(Some(Outcome::SchemeOut)),
        Err(UrlError::NoMemory) => Err(AllocError),
    }
}

/// What a set of the `href` of a document's Location comes to.
pub fn set_href<V: View>(
    alloc: Global,
    view: &V,
    asker: u32,
    doc: u32,
    value: &Value,
) -> Result<Outcome, AllocError>
    requires { HasLocation (V.tree view.now) asker doc }
    ensures { IfOk result (λ o. o ≡ spec.set_href (V.tree view.now) (V.urls view.now) asker doc value.now) }
{
    match text_of(alloc, value)? {
        None => Ok(Outcome::TypeFault),
        Some(text) => match go(alloc, view, asker, doc, text.as_str())? {
            None => Ok(Outcome::Truth(true)),
            Some(outcome) => Ok(outcome),
        },
    }
}
