//! `assign` and `replace` (HTML Standard, 7.2.4).
ghost use Rattle.std.specs.Prelude.{◌≡◌, IfOk};
ghost use Rattle.object_access.specs.Going.{go, or_else_outcome};
ghost use Rattle.object_access.specs.Methods.{sent};
ghost use Rattle.object_access.specs.Values.{undefined};
ghost use Rattle.object_operations.specs.There.{HasLocation};

use agent_terms::Outcome;
use object_operations::go;
use object_operations::values::{text_of, undefined};
use std::alloc::{AllocError, Global};
use tree_view::View;
use window_props::Value;

/// What `assign` and `replace` on a document's Location answer: undefined where the document isn't active, and else `Ask`,
/// `Syntax` or `SchemeOut`. The session history isn't told of, so they are the same.
pub fn assign<V: View>(
    alloc: Global,
    view: &V,
    asker: u32,
    doc: u32,
    text: &str,
) -> Result<Outcome, AllocError>
    requires { HasLocation (V.tree view.now) asker doc }
    ensures { IfOk result (λ o. o ≡ or_else_outcome (Outcome.Value undefined) (go (V.tree view.now) (V.urls view.now) asker doc text.now)) }
{
    match go(alloc, view, asker, doc, text)? {
        None => Ok(Outcome::Value(undefined())),
        Some(outcome) => Ok(outcome),
    }
}

/// What a call of `assign` or `replace` on a document's Location comes to: the first argument's text counts.
#[tactic(auto, unfolding(object_access::specs::Methods::sent))]
pub(crate) fn send<V: View>(
    alloc: Global,
    view: &V,
    asker: u32,
    doc: u32,
    args: &[Value],
) -> Result<Outcome, AllocError>
    requires { HasLocation (V.tree view.now) asker doc }
    ensures { IfOk result (λ o. o ≡ sent (V.tree view.now) (V.urls view.now) asker doc args.now) }
{
    match args {
        [] => Ok(Outcome::TypeFault),
        [url, ..] => match text_of(alloc, url)? {
            None => Ok(Outcome::TypeFault),
            Some(text) => assign(alloc, view, asker, doc, text.as_str()),
        },
    }
}
