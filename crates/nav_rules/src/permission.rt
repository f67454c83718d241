ghost use Rattle.std.specs.Prelude.{◌≡◌, ◌<◌};
ghost use Rattle.coordinator_rules.specs.Navigation as spec;
ghost use Rattle.coordinator_rules.specs.Navigation.{is_in, flags_in, may_leave};
ghost use Rattle.tree_log.specs.Log.{is};
ghost use Rattle.tree_log.specs.Tree.{ancestors};

use crate::familiarity::familiar;
use crate::grown::know_grown;
use tree_view::View;

/// Whether a navigable may navigate another one, with or without user activation (HTML Standard, 7.4.2.4).
///
/// A navigable may navigate itself and those that it is an ancestor of. Its sandbox flags say whether it may navigate its
/// top-level one, and any that isn't above it; a top-level one may have a navigator that no flag stops.
#[tactic(auto, unfolding(coordinator_rules::specs::Navigation::may_navigate))]
pub fn may_navigate<V: View>(view: &V, source: u32, target: u32, user: bool) -> bool
    requires source_there { source < (V.tree view.now).navs }
    requires target_there { target < (V.tree view.now).navs }
    ensures { result ≡ spec.may_navigate (V.tree view.now) source target user }
{
    if source == target || is_ancestor(view, source, target) {
        return true;
    }
    if is_ancestor(view, target, source) {
        return !view.top_level(target) || may_leave(view, source, user);
    }
    if view.top_level(target) && is_number(view.navigator(target), source) {
        return true;
    }
    !view.flags(source).navigation()
}

/// Whether a navigable may close another one: a window that a document made, that isn't closing, that is familiar and
/// may be navigated (HTML Standard, 7.2.2.1).
#[tactic(auto, unfolding(coordinator_rules::specs::Navigation::may_close))]
pub fn may_close<V: View>(view: &V, source: u32, target: u32, user: bool) -> bool
    requires source_there { source < (V.tree view.now).navs }
    requires target_there { target < (V.tree view.now).navs }
    ensures { result ≡ spec.may_close (V.tree view.now) source target user }
{
    view.top_level(target)
        && view.scripted(target)
        && !view.closing(target)
        && familiar(view, source, target)
        && may_navigate(view, source, target, user)
}

/// Whether a navigable is an ancestor of another one.
fn is_ancestor<V: View>(view: &V, nav: u32, of: u32) -> bool
    requires { of < (V.tree view.now).navs }
    ensures { result ≡ is_in nav (ancestors (V.tree view.now) of) }
{
    know_grown(view);
    let mut at = of;
    'up: loop {
        match view.parent(at) {
            None => return false,
            Some(above) => {
                if above == nav {
                    return true;
                }
                at = above;
            }
        }
    }
}

// Whether a navigable may navigate its top-level one.
fn may_leave<V: View>(view: &V, source: u32, user: bool) -> bool
    requires { source < (V.tree view.now).navs }
    ensures { result ≡ may_leave (flags_in (V.tree view.now) source) user }
{
    let flags = view.flags(source);
    if user {
        !flags.top_by_user()
    } else {
        !flags.top()
    }
}

/// Whether the number is there, and is this one.
pub(crate) fn is_number(found: Option<u32>, number: u32) -> bool
    ensures { result ≡ is found number }
{
    found == Some(number)
}
