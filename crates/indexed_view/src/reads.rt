// Reads that look at one navigable or one document, and at none above it or beside it.
ghost use Rattle.std.specs.Prelude.{◌≡◌, ◌<◌, ◌≤◌, ℕ, List, Some, None, All, IfSome, length, slice_get, if◌then◌else◌};
ghost use Rattle.indexed_view.specs.Index.{IsIndexOf};
ghost use Rattle.indexed_view.specs.Live.{live, live_named};
ghost use Rattle.indexed_view.specs.Lists.{IsAscending};
ghost use Rattle.tree_log.specs.NamedChildren as named;
ghost use Rattle.tree_log.specs.NamedChildren.{first_of_name};
ghost use Rattle.tree_log.specs.Siblings as siblings;
ghost use Rattle.tree_log.specs.Siblings.{first_if_any};
ghost use Rattle.tree_log.specs.Tree as spec;
ghost use Rattle.tree_log.specs.Tree.{embedder, root_of, children_of, group_of};
ghost use Rattle.tree_view.specs.Shown.{if_same_origin};

use crate::index::Index;
use crate::lists::next_after;
use crate::names::first_of;
use origin_core::same_origin;
use tree_view::View;

pub(crate) fn is_discarded<V: View>(view: &V, index: &Index, nav: u32) -> bool
    requires indexed { IsIndexOf (V.tree view.now) index.now }
    requires nav { nav < (V.tree view.now).navs }
    ensures { result ≡ spec.is_discarded (V.tree view.now) nav }
{
    index.marks[nav as usize]
}

#[tactic(auto, unfolding(tree_log::specs::Tree::is_active))]
pub(crate) fn is_active<V: View>(view: &V, index: &Index, doc: u32) -> bool
    requires indexed { IsIndexOf (V.tree view.now) index.now }
    requires doc { doc < (V.tree view.now).docs }
    ensures { result ≡ spec.is_active (V.tree view.now) doc }
{
    let nav = view.nav_of(doc);
    view.active(nav) == doc && !index.marks[nav as usize]
}

/// The document that embeds a navigable.
pub(crate) fn embedder_of<V: View>(view: &V, index: &Index, nav: u32) -> Option<u32>
    requires indexed { IsIndexOf (V.tree view.now) index.now }
    requires nav { nav < (V.tree view.now).navs }
    ensures value { result ≡ embedder (V.tree view.now) nav }
    ensures within { IfSome result (λ doc. doc < (V.tree view.now).docs) }
{
    index.places[nav as usize].embedder
}

#[tactic(auto, unfolding(tree_log::specs::Tree::parent_of))]
pub(crate) fn parent<V: View>(view: &V, index: &Index, nav: u32) -> Option<u32>
    requires indexed { IsIndexOf (V.tree view.now) index.now }
    requires nav { nav < (V.tree view.now).navs }
    ensures value { result ≡ spec.parent_of (V.tree view.now) nav }
    ensures within { IfSome result (λ above. above < (V.tree view.now).navs) }
{
    if is_discarded(view, index, nav) {
        return None;
    }
    match embedder_of(view, index, nav) {
        None => None,
        Some(doc) => Some(view.nav_of(doc)),
    }
}

/// The top-level navigable above a navigable, be it discarded or not.
pub(crate) fn root<V: View>(view: &V, index: &Index, nav: u32) -> u32
    requires indexed { IsIndexOf (V.tree view.now) index.now }
    requires nav { nav < (V.tree view.now).navs }
    ensures value { result ≡ root_of (V.tree view.now) nav }
    ensures within { result < (V.tree view.now).navs }
{
    index.places[nav as usize].top
}

#[tactic(auto, unfolding(tree_log::specs::Tree::top_level_of))]
pub(crate) fn top<V: View>(view: &V, index: &Index, nav: u32) -> Option<u32>
    requires indexed { IsIndexOf (V.tree view.now) index.now }
    requires nav { nav < (V.tree view.now).navs }
    ensures value { result ≡ spec.top_level_of (V.tree view.now) nav }
    ensures within { IfSome result (λ top. top < (V.tree view.now).navs) }
{
    if is_discarded(view, index, nav) {
        None
    } else {
        Some(root(view, index, nav))
    }
}

pub(crate) fn group<V: View>(view: &V, index: &Index, nav: u32) -> u32
    requires indexed { IsIndexOf (V.tree view.now) index.now }
    requires nav { nav < (V.tree view.now).navs }
    ensures { group_of (V.tree view.now) nav ≡ Some result }
{
    view.group(root(view, index, nav))
}

/// The children of a document, also of one that is not active.
pub(crate) fn live_of<'a, V: View>(view: &V, index: &'a Index, doc: u32) -> &'a [u32]
    requires indexed { IsIndexOf (V.tree view.now) index.now }
    requires doc { doc < (V.tree view.now).docs }
    ensures value { result.now ≡ live (V.tree view.now) doc }
    ensures within { All (λ nav. nav < (V.tree view.now).navs) result.now }
    ensures ascending { IsAscending result.now }
    ensures few { length result.now ≤ (V.tree view.now).navs }
{
    &index.families[doc as usize].children
}

/// The first child of a name, also of a document that is not active.
pub(crate) fn first_live_named<V: View>(
    view: &V,
    index: &Index,
    doc: u32,
    name: &str,
) -> Option<u32>
    requires indexed { IsIndexOf (V.tree view.now) index.now }
    requires doc { doc < (V.tree view.now).docs }
    ensures value { result ≡ first_if_any (live_named (V.tree view.now) doc name.now) }
    ensures within { IfSome result (λ child. child < (V.tree view.now).navs) }
{
    first_of(&index.families[doc as usize].names, name)
}

#[tactic(auto, unfolding(tree_log::specs::Tree::children_of))]
pub(crate) fn child_count<V: View>(view: &V, index: &Index, doc: u32) -> u32
    requires indexed { IsIndexOf (V.tree view.now) index.now }
    requires doc { doc < (V.tree view.now).docs }
    ensures { result ≡ length (children_of (V.tree view.now) doc) }
{
    let _navs = view.navs();
    if is_active(view, index, doc) {
        live_of(view, index, doc).len() as u32
    } else {
        0
    }
}

#[tactic(auto, unfolding(tree_log::specs::Tree::children_of))]
pub(crate) fn child_at<V: View>(view: &V, index: &Index, doc: u32, place: u32) -> Option<u32>
    requires indexed { IsIndexOf (V.tree view.now) index.now }
    requires doc { doc < (V.tree view.now).docs }
    ensures value { result ≡ slice_get (children_of (V.tree view.now) doc) place }
    ensures within { IfSome result (λ child. child < (V.tree view.now).navs) }
{
    if is_active(view, index, doc) {
        live_of(view, index, doc).get(place as usize).copied()
    } else {
        None
    }
}

/// The first child of a name, whatever its origin.
#[tactic(auto, unfolding(tree_log::specs::Tree::children_of))]
fn first_named<V: View>(view: &V, index: &Index, doc: u32, name: &str) -> Option<u32>
    requires indexed { IsIndexOf (V.tree view.now) index.now }
    requires doc { doc < (V.tree view.now).docs }
    ensures value { result ≡ first_of_name (V.tree view.now) doc name.now }
    ensures within { IfSome result (λ child. child < (V.tree view.now).navs) }
{
    if name.is_empty() {
        return None;
    }
    if is_active(view, index, doc) {
        first_live_named(view, index, doc, name)
    } else {
        None
    }
}

// The navigable, if its active document is same origin with the other one.
fn if_same_origin<V: View>(view: &V, doc: u32, nav: u32) -> Option<u32>
    requires doc { doc < (V.tree view.now).docs }
    requires nav { nav < (V.tree view.now).navs }
    ensures { result ≡ if_same_origin (V.tree view.now) doc nav }
{
    if same_origin(view.origin_of(doc), view.origin_of(view.active(nav))) {
        Some(nav)
    } else {
        None
    }
}

#[tactic(auto, unfolding(tree_log::specs::NamedChildren::child_named))]
pub(crate) fn child_named<V: View>(view: &V, index: &Index, doc: u32, name: &str) -> Option<u32>
    requires indexed { IsIndexOf (V.tree view.now) index.now }
    requires doc { doc < (V.tree view.now).docs }
    ensures value { result ≡ named.child_named (V.tree view.now) doc name.now }
    ensures within { IfSome result (λ child. child < (V.tree view.now).navs) }
{
    match first_named(view, index, doc, name) {
        None => None,
        Some(first) => if_same_origin(view, doc, first),
    }
}

// The child of a document that comes after one of its children.
#[tactic(auto, unfolding(tree_log::specs::Tree::children_of))]
fn child_after<V: View>(view: &V, index: &Index, doc: u32, nav: u32) -> Option<u32>
    requires indexed { IsIndexOf (V.tree view.now) index.now }
    requires doc { doc < (V.tree view.now).docs }
    ensures value { result ≡ first_if_any (siblings.behind nav (children_of (V.tree view.now) doc)) }
    ensures within { IfSome result (λ next. next < (V.tree view.now).navs) }
{
    if is_active(view, index, doc) {
        next_after(live_of(view, index, doc), nav)
    } else {
        None
    }
}

#[tactic(auto, unfolding(tree_log::specs::Siblings::next_sibling, tree_log::specs::Siblings::later_siblings))]
pub(crate) fn next_sibling<V: View>(view: &V, index: &Index, nav: u32) -> Option<u32>
    requires indexed { IsIndexOf (V.tree view.now) index.now }
    requires nav { nav < (V.tree view.now).navs }
    ensures value { result ≡ siblings.next_sibling (V.tree view.now) nav }
    ensures within { IfSome result (λ next. next < (V.tree view.now).navs) }
{
    match embedder_of(view, index, nav) {
        None => None,
        Some(doc) => child_after(view, index, doc, nav),
    }
}
