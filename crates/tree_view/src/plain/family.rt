// The children of a document, looked for among all navigables.
ghost use Rattle.std.specs.Prelude.{◌≡◌, ◌<◌, ◌≤◌, ◌&&◌, length, get_or, slice_get, bytes_eq, IfSome};
ghost use Rattle.tree_log.specs.NamedChildren as named;
ghost use Rattle.tree_log.specs.NamedChildren.{first_of_name};
ghost use Rattle.tree_log.specs.Siblings as siblings;
ghost use Rattle.tree_log.specs.Siblings.{first_if_any};
ghost use Rattle.tree_log.specs.Tree as spec;
ghost use Rattle.tree_log.specs.Tree.{children_of};
ghost use Rattle.tree_view.specs.Rows.{no_nav, is_kid, kids_from};
ghost use Rattle.tree_view.specs.Shown.{tree_shown, if_same_origin};

use crate::plain::rows::{NavRow, PlainView};
use origin_core::same_origin;

// Whether the row is of a child of the document, if that is active.
fn is_child(row: &NavRow, doc: u32) -> bool
    ensures { result ≡ is_kid doc row.now }
{
    match row.made.embedder {
        None => false,
        Some(by) => by == doc && !row.dropped,
    }
}

// Whether it is, and the navigable has the name.
fn is_named_child(row: &NavRow, doc: u32, name: &str) -> bool
    ensures { result ≡ (is_kid doc row.now && bytes_eq row.now.name name.now) }
{
    is_child(row, doc) && row.name.as_str() == name
}

impl PlainView {
    #[tactic(auto, unfolding(tree_log::specs::Tree::is_active))]
    pub(crate) fn is_active_doc(&self, doc: u32) -> bool
        requires { doc < length self.now.docs.items }
        ensures { result ≡ spec.is_active (tree_shown self.now) doc }
    {
        let nav = self.nav_of_doc(doc);
        self.active_doc(nav) == doc && !self.is_discarded(nav)
    }

    #[tactic(auto, unfolding(tree_log::specs::Tree::children_of))]
    pub(crate) fn count_children(&self, doc: u32) -> u32
        requires { doc < length self.now.docs.items }
        ensures { result ≡ length (children_of (tree_shown self.now) doc) }
    {
        if !self.is_active_doc(doc) {
            return 0;
        }
        let mut count = 0;
        for row in &self.navs {
            if is_child(row, doc) {
                count += 1;
            }
        }
        count
    }

    #[tactic(auto, unfolding(tree_log::specs::Tree::children_of))]
    pub(crate) fn find_child(&self, doc: u32, index: u32) -> Option<u32>
        requires { doc < length self.now.docs.items }
        ensures value { result ≡ slice_get (children_of (tree_shown self.now) doc) index }
        ensures within { IfSome result (λ child. child < length self.now.navs.items) }
    {
        if !self.is_active_doc(doc) {
            return None;
        }
        let mut left = index;
        for (i, row) in self.navs.iter().enumerate() {
            if is_child(row, doc) {
                if left == 0 {
                    return Some(i as u32);
                }
                left -= 1;
            }
        }
        None
    }

    /// The next child of the same parent.
    pub(crate) fn find_next(&self, nav: u32) -> Option<u32>
        requires { nav < length self.now.navs.items }
        ensures value { result ≡ siblings.next_sibling (tree_shown self.now) nav }
        ensures within { IfSome result (λ next. next < length self.now.navs.items) }
    {
        match self.embedder(nav) {
            None => None,
            Some(doc) => {
                if self.is_child_of(nav, doc) {
                    self.first_child_from(doc, nav as usize + 1)
                } else {
                    None
                }
            }
        }
    }

    // Whether a navigable is among the children of a document.
    fn is_child_of(&self, nav: u32, doc: u32) -> bool
        requires nav { nav < length self.now.navs.items }
        requires doc { doc < length self.now.docs.items }
        ensures { result ≡ (is_kid doc (get_or self.now.navs.items nav no_nav) && spec.is_active (tree_shown self.now) doc) }
    {
        is_child(&self.navs[nav as usize], doc) && self.is_active_doc(doc)
    }

    // The first child of an active document with this number or a greater one.
    #[tactic(auto, using(crate::proofs::Kids::kids_step))]
    fn first_child_from(&self, doc: u32, from: usize) -> Option<u32>
        requires { from ≤ length self.now.navs.items }
        ensures value { result ≡ first_if_any (kids_from self.now.navs.items doc from) }
        ensures within { IfSome result (λ next. next < length self.now.navs.items) }
    {
        for i in from..self.navs.len() {
            if is_child(&self.navs[i], doc) {
                return Some(i as u32);
            }
        }
        None
    }

    #[tactic(auto, unfolding(tree_log::specs::NamedChildren::child_named))]
    pub(crate) fn find_named(&self, doc: u32, name: &str) -> Option<u32>
        requires { doc < length self.now.docs.items }
        ensures value { result ≡ named.child_named (tree_shown self.now) doc name.now }
        ensures within { IfSome result (λ child. child < length self.now.navs.items) }
    {
        match self.first_named(doc, name) {
            None => None,
            Some(first) => self.if_same_origin(doc, first),
        }
    }

    // The first child of that name, whatever its origin.
    #[tactic(auto, using(crate::proofs::Kids::named_step), unfolding(tree_log::specs::Tree::children_of))]
    fn first_named(&self, doc: u32, name: &str) -> Option<u32>
        requires { doc < length self.now.docs.items }
        ensures value { result ≡ first_of_name (tree_shown self.now) doc name.now }
        ensures within { IfSome result (λ child. child < length self.now.navs.items) }
    {
        if name.is_empty() || !self.is_active_doc(doc) {
            return None;
        }
        for (i, row) in self.navs.iter().enumerate() {
            if is_named_child(row, doc, name) {
                return Some(i as u32);
            }
        }
        None
    }

    // The navigable, if its active document is same origin with the other one.
    fn if_same_origin(&self, doc: u32, nav: u32) -> Option<u32>
        requires doc { doc < length self.now.docs.items }
        requires nav { nav < length self.now.navs.items }
        ensures { result ≡ if_same_origin (tree_shown self.now) doc nav }
    {
        if same_origin(self.origin(doc), self.origin(self.active_doc(nav))) {
            Some(nav)
        } else {
            None
        }
    }
}
