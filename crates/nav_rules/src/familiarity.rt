ghost use Rattle.std.specs.Prelude.{◌≡◌, ◌<◌};
ghost use Rattle.std.specs.List.{list_any};
ghost use Rattle.coordinator_rules.specs.Navigation as spec;
ghost use Rattle.coordinator_rules.specs.Navigation.{is_familiar};
ghost use Rattle.tree_log.specs.Log.{is};
ghost use Rattle.tree_log.specs.Tree.{ancestors, top_level_of};

use crate::grown::know_grown;
use origin_core::same_origin;
use tree_view::View;

/// Whether a navigable is familiar with another one: by the origins that it and its ancestors show, as its own
/// top-level one, or through the openers of a top-level one (HTML Standard, 7.3.1.7).
///
/// It asks at most as many openers as there are navigables.
pub fn familiar<V: View>(view: &V, a: u32, b: u32) -> bool
    requires a_there { a < (V.tree view.now).navs }
    requires b_there { b < (V.tree view.now).navs }
    ensures { result ≡ is_familiar (V.tree view.now) a b }
{
    let mut left = view.navs();
    let mut at = b;
    'through: loop {
        if is_known(view, a, at) {
            return true;
        }
        if left == 0 {
            return false;
        }
        if !view.top_level(at) {
            return false;
        }
        match view.opener(at) {
            None => return false,
            Some(opener) => {
                at = opener;
                left -= 1;
            }
        }
    }
}

// Whether a knows b without asking for its opener.
fn is_known<V: View>(view: &V, a: u32, b: u32) -> bool
    requires a_there { a < (V.tree view.now).navs }
    requires b_there { b < (V.tree view.now).navs }
    ensures { result ≡ spec.is_known (V.tree view.now) a b }
{
    same_origin_shown(view, a, b) || is_top_of(view, b, a) || same_origin_above(view, a, b)
}

// Whether two navigables show documents of one origin.
fn same_origin_shown<V: View>(view: &V, a: u32, b: u32) -> bool
    requires a_there { a < (V.tree view.now).navs }
    requires b_there { b < (V.tree view.now).navs }
    ensures { result ≡ spec.same_origin_shown (V.tree view.now) a b }
{
    same_origin(
        view.origin_of(view.active(a)),
        view.origin_of(view.active(b)),
    )
}

// Whether a navigable is the top-level one above another.
fn is_top_of<V: View>(view: &V, top: u32, nav: u32) -> bool
    requires { nav < (V.tree view.now).navs }
    ensures { result ≡ is (top_level_of (V.tree view.now) nav) top }
{
    view.top(nav) == Some(top)
}

// Whether an ancestor of b shows a document of the origin that a shows.
fn same_origin_above<V: View>(view: &V, a: u32, b: u32) -> bool
    requires a_there { a < (V.tree view.now).navs }
    requires b_there { b < (V.tree view.now).navs }
    ensures { result ≡ list_any (spec.same_origin_shown (V.tree view.now) a) (ancestors (V.tree view.now) b) }
{
    know_grown(view);
    let mut at = b;
    'up: loop {
        match view.parent(at) {
            None => return false,
            Some(above) => {
                if same_origin_shown(view, a, above) {
                    return true;
                }
                at = above;
            }
        }
    }
}
