// Walks up the tree, a step for each navigable above.
ghost use Rattle.std.specs.Prelude.{◌≡◌, ◌<◌, None, Some, length};
ghost use Rattle.tree_log.specs.Tree as spec;
ghost use Rattle.tree_log.specs.Tree.{root_of};
ghost use Rattle.tree_view.specs.Shown.{tree_shown};

use crate::plain::rows::PlainView;

impl PlainView {
    /// Whether a navigable was discarded: it or one above it was dropped or closed, or its embedder was replaced.
    pub(crate) fn is_discarded(&self, nav: u32) -> bool
        requires { nav < length self.now.navs.items }
        ensures { result ≡ spec.is_discarded (tree_shown self.now) nav }
    {
        let mut at = nav;
        'up: loop {
            if self.was_ended(at) {
                return true;
            }
            match self.embedder(at) {
                None => return false,
                Some(doc) => {
                    let above = self.nav_of_doc(doc);
                    if self.active_doc(above) != doc {
                        return true;
                    }
                    at = above;
                }
            }
        }
    }

    /// The top-level navigable above a navigable, be it discarded or not.
    pub(crate) fn root(&self, nav: u32) -> u32
        requires { nav < length self.now.navs.items }
        ensures value { result ≡ root_of (tree_shown self.now) nav }
        ensures top { spec.embedder (tree_shown self.now) result ≡ None }
        ensures within { result < length self.now.navs.items }
    {
        let mut at = nav;
        'up: loop {
            match self.embedder(at) {
                None => return at,
                Some(doc) => at = self.nav_of_doc(doc),
            }
        }
    }

    /// The group of a navigable: that of its top-level one.
    #[tactic(auto, unfolding(tree_log::specs::Tree::group_of))]
    pub(crate) fn group_of(&self, nav: u32) -> u32
        requires { nav < length self.now.navs.items }
        ensures { spec.group_of (tree_shown self.now) nav ≡ Some result }
    {
        let root = self.root(nav);
        match self.navs[root as usize].made.group {
            Some(group) => group,
            None => unreachable!(),
        }
    }
}
