// The search for a navigable by its name.
ghost use Rattle.std.specs.Prelude.{◌≡◌, ◌<◌, ◌&&◌, None, IfSome, not, find, flat_map, if◌then◌else◌};
ghost use Rattle.coordinator_rules.specs.Navigation.{walk, walk_if_any, other_tops, searched, is_found};
ghost use Rattle.nav_rules.specs.Walks.{is_other};
ghost use Rattle.tree_log.specs.Tree.{is_top_level, top_level_of, same_group};

use crate::familiarity::familiar;
use crate::grown::know_grown;
use crate::permission::{is_number, may_navigate};
use crate::place::Place;
use tree_view::View;

/// The first navigable of that name that the current one may navigate: in its own tree, in that of its top-level one, or
/// in those of the other familiar top-level ones of its group. A failing search comes to each navigable once.
pub(crate) fn find_named<V: View>(view: &V, current: u32, name: &str, user: bool) -> Option<u32>
    requires { current < (V.tree view.now).navs }
    ensures value { result ≡ find (is_found (V.tree view.now) current name.now user) (searched (V.tree view.now) current) }
    ensures within { IfSome result (λ nav. nav < (V.tree view.now).navs) }
{
    match find_in_tree(view, current, name, user, current, None) {
        Some(nav) => Some(nav),
        None => match find_in_top(view, current, name, user) {
            Some(nav) => Some(nav),
            None => find_elsewhere(view, current, name, user),
        },
    }
}

// The first one in the tree of the top-level navigable, where there is none in that of the current one.
fn find_in_top<V: View>(view: &V, current: u32, name: &str, user: bool) -> Option<u32>
    requires there { current < (V.tree view.now).navs }
    requires not_below { find (is_found (V.tree view.now) current name.now user) (walk (V.tree view.now) current) ≡ None }
    ensures value { result ≡ find (is_found (V.tree view.now) current name.now user) (walk_if_any (V.tree view.now) (top_level_of (V.tree view.now) current)) }
    ensures within { IfSome result (λ nav. nav < (V.tree view.now).navs) }
{
    match view.top(current) {
        None => None,
        Some(top) => find_in_tree(view, current, name, user, top, Some(current)),
    }
}

// The first one in the trees of the other top-level navigables.
fn find_elsewhere<V: View>(view: &V, current: u32, name: &str, user: bool) -> Option<u32>
    requires { current < (V.tree view.now).navs }
    ensures value { result ≡ find (is_found (V.tree view.now) current name.now user) (flat_map (walk (V.tree view.now)) (other_tops (V.tree view.now) current)) }
    ensures within { IfSome result (λ nav. nav < (V.tree view.now).navs) }
{
    know_grown(view);
    for top in 0..view.navs() {
        if let Some(nav) = find_in_other(view, current, name, user, top) {
            return Some(nav);
        }
    }
    None
}

// The first one in the tree of a navigable, where that is another top-level one to be searched.
fn find_in_other<V: View>(view: &V, current: u32, name: &str, user: bool, top: u32) -> Option<u32>
    requires current_there { current < (V.tree view.now).navs }
    requires top_there { top < (V.tree view.now).navs }
    ensures value { result ≡ (if is_top_level (V.tree view.now) top && is_other (V.tree view.now) current top then find (is_found (V.tree view.now) current name.now user) (walk (V.tree view.now) top) else None) }
    ensures within { IfSome result (λ nav. nav < (V.tree view.now).navs) }
{
    if is_other_top(view, current, top) {
        find_in_tree(view, current, name, user, top, None)
    } else {
        None
    }
}

// Whether a navigable is a familiar top-level one of the group, other than that of the current navigable.
fn is_other_top<V: View>(view: &V, current: u32, nav: u32) -> bool
    requires current_there { current < (V.tree view.now).navs }
    requires nav_there { nav < (V.tree view.now).navs }
    ensures { result ≡ (is_top_level (V.tree view.now) nav && is_other (V.tree view.now) current nav) }
{
    view.top_level(nav)
        && in_same_group(view, current, nav)
        && !is_number(view.top(current), nav)
        && familiar(view, current, nav)
}

// Whether two navigables are of one group.
fn in_same_group<V: View>(view: &V, a: u32, b: u32) -> bool
    requires a_there { a < (V.tree view.now).navs }
    requires b_there { b < (V.tree view.now).navs }
    ensures { result ≡ same_group (V.tree view.now) a b }
{
    view.group(b) == view.group(a)
}

// The first one in the tree of `root`. That of `searched` is passed over: there is none in it.
fn find_in_tree<V: View>(
    view: &V,
    current: u32,
    name: &str,
    user: bool,
    root: u32,
    searched: Option<u32>,
) -> Option<u32>
    requires current_there { current < (V.tree view.now).navs }
    requires root_there { root < (V.tree view.now).navs }
    requires searched { IfSome searched (λ nav. find (is_found (V.tree view.now) current name.now user) (walk (V.tree view.now) nav) ≡ None) }
    ensures value { result ≡ find (is_found (V.tree view.now) current name.now user) (walk (V.tree view.now) root) }
    ensures within { IfSome result (λ nav. nav < (V.tree view.now).navs) }
{
    know_grown(view);
    let mut at = Place::root(root);
    'walk: loop {
        let was_searched = is_number(searched, at.nav);
        if is_new_find(view, current, name, user, at.nav, was_searched) {
            return Some(at.nav);
        }
        match at.next(view, root, was_searched) {
            None => return None,
            Some(place) => at = place,
        }
    }
}

// Whether the navigable is found, and was not searched before.
fn is_new_find<V: View>(
    view: &V,
    current: u32,
    name: &str,
    user: bool,
    nav: u32,
    was_searched: bool,
) -> bool
    requires current_there { current < (V.tree view.now).navs }
    requires nav_there { nav < (V.tree view.now).navs }
    ensures { result ≡ (not was_searched && is_found (V.tree view.now) current name.now user nav) }
{
    !was_searched && is_found(view, current, name, user, nav)
}

// Whether the navigable has the name, and the current one may navigate it.
fn is_found<V: View>(view: &V, current: u32, name: &str, user: bool, nav: u32) -> bool
    requires current_there { current < (V.tree view.now).navs }
    requires nav_there { nav < (V.tree view.now).navs }
    ensures { result ≡ is_found (V.tree view.now) current name.now user nav }
{
    view.name(nav) == name && !view.discarded(nav) && may_navigate(view, current, nav, user)
}
