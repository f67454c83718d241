// A place in the walk of a tree, parents before children, and the next one.
ghost use Rattle.std.specs.Prelude.{◌≡◌, ◌<◌, unwrap_or};
ghost use Rattle.tree_log.specs.Tree.{parent_of};
ghost use Rattle.nav_rules.specs.Walks.{after, left_after, Comes, Stands};

use crate::grown::know_grown;
use tree_view::View;

/// A navigable, and the parent by which a walk came to it. The root of a walk has itself in place of a parent.
#[derive(Clone, Copy)]
pub struct Place {
    pub(crate) nav: u32,
    pub(crate) parent: u32,
}

impl Place {
    /// The place at which a walk begins.
    pub(crate) fn root(nav: u32) -> Place
        ensures nav { result.nav ≡ nav }
        ensures parent { result.parent ≡ nav }
    {
        Place { nav, parent: nav }
    }

    /// The next place in the walk from `root`: that of the first child, or else, and where the children are left out,
    /// that of the next sibling of the navigable or of one above it.
    pub(crate) fn next<V: View>(self, view: &V, root: u32, without_children: bool) -> Option<Place>
        requires { Stands (V.tree view.now) root self }
        ensures { Comes (V.tree view.now) root (left_after (V.tree view.now) root without_children self.nav) result }
    {
        know_grown(view);
        if without_children {
            return self.behind(view, root);
        }
        match view.child_at(view.active(self.nav), 0) {
            None => self.behind(view, root),
            Some(child) => Some(Place {
                nav: child,
                parent: self.nav,
            }),
        }
    }

    // The next place behind the navigable and all below it.
    fn behind<V: View>(self, view: &V, root: u32) -> Option<Place>
        requires { Stands (V.tree view.now) root self }
        ensures { Comes (V.tree view.now) root (after (V.tree view.now) root self.nav) result }
    {
        know_grown(view);
        let mut at = self;
        'up: loop {
            if at.nav == root {
                return None;
            }
            match view.next_sibling(at.nav) {
                Some(next) => {
                    return Some(Place {
                        nav: next,
                        parent: at.parent,
                    });
                }
                None => at = Place::above(view, at.parent),
            }
        }
    }

    // The place of a navigable that has children.
    fn above<V: View>(view: &V, nav: u32) -> Place
        requires { nav < (V.tree view.now).navs }
        ensures nav { result.nav ≡ nav }
        ensures parent { result.parent ≡ unwrap_or (parent_of (V.tree view.now) nav) nav }
        ensures within { result.parent < (V.tree view.now).navs }
    {
        match view.parent(nav) {
            None => Place::root(nav),
            Some(parent) => Place { nav, parent },
        }
    }
}
