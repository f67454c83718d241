ghost use Rattle.tree_view.specs.Shown.{tree_shown};
ghost use Rattle.indexed_view.specs.Index.{IsIndexOf};

use crate::applies::follow;
use crate::index::Index;
use crate::reads;
use origin_core::{Flags, HostText, Origin, PageUrl};
use std::alloc::{AllocError, Global};
use tree_log::Entry;
use tree_view::{PlainView, View};

/// A view whose reads look at one navigable or one document, and walk no ancestors and no siblings.
///
/// The rows are those of the plain view. Beside them stand, for each navigable, the document that embeds it, its
/// top-level navigable and whether it was discarded, and, for each document, its children in order and by name. The
/// next sibling is found by a binary search among the children of the same document, and each other read takes the
/// same time whatever the tree. No read takes memory.
///
/// An entry that discards navigables marks each of them, once in the life of the view, and takes no memory for it. A
/// child that is dropped or renamed is found by a binary search, and those behind it move up.
#[derive(Drop)]
pub struct IndexedView {
    rows: PlainView,
    index: Index,
    ghost indexed: { IsIndexOf (tree_shown rows) index },
}

impl IndexedView {
    ghost use Rattle.std.specs.Prelude.{◌≡◌, []};
    ghost use Rattle.tree_log.specs.Tree.{tree_of};
    ghost use Rattle.tree_log.specs.Urls.{url_of};
    ghost use Rattle.indexed_view.specs.Shown.{tree_indexed, urls_indexed};

    /// A view to which nothing was applied. It takes no memory.
    #[tactic(auto, unfolding(tree_log::specs::Tree::tree_of))]
    pub fn new(alloc: Global) -> IndexedView
        ensures tree { tree_indexed result ≡ tree_of [] }
        ensures urls { urls_indexed result ≡ url_of [] }
    {
        let rows = PlainView::new(alloc);
        let _navs = rows.navs();
        IndexedView {
            rows,
            index: Index {
                alloc,
                places: Vec::new(alloc),
                marks: Vec::new(alloc),
                families: Vec::new(alloc),
                queue: Vec::new(alloc),
            },
        }
    }
}

impl View for IndexedView {
    ghost use Rattle.indexed_view.specs.Shown.{tree_indexed, urls_indexed};

    ghost tree = { tree_indexed };

    ghost urls = { urls_indexed };

    fn len(&self) -> u32 {
        self.rows.len()
    }

    fn navs(&self) -> u32 {
        self.rows.navs()
    }

    fn docs(&self) -> u32 {
        self.rows.docs()
    }

    fn groups(&self) -> u32 {
        self.rows.groups()
    }

    fn loads(&self) -> &[u32] {
        self.rows.loads()
    }

    fn active(&self, nav: u32) -> u32 {
        self.rows.active(nav)
    }

    fn nav_of(&self, doc: u32) -> u32 {
        self.rows.nav_of(doc)
    }

    fn is_active(&self, doc: u32) -> bool {
        reads::is_active(&self.rows, &self.index, doc)
    }

    fn been_active(&self, doc: u32) -> bool {
        self.rows.been_active(doc)
    }

    fn last_load(&self, nav: u32) -> Option<u32> {
        self.rows.last_load(nav)
    }

    fn discarded(&self, nav: u32) -> bool {
        reads::is_discarded(&self.rows, &self.index, nav)
    }

    fn parent(&self, nav: u32) -> Option<u32> {
        reads::parent(&self.rows, &self.index, nav)
    }

    fn top(&self, nav: u32) -> Option<u32> {
        reads::top(&self.rows, &self.index, nav)
    }

    fn top_level(&self, nav: u32) -> bool {
        self.rows.top_level(nav)
    }

    fn child_count(&self, doc: u32) -> u32 {
        reads::child_count(&self.rows, &self.index, doc)
    }

    fn child_at(&self, doc: u32, index: u32) -> Option<u32> {
        reads::child_at(&self.rows, &self.index, doc, index)
    }

    fn child_named(&self, doc: u32, name: &str) -> Option<u32> {
        reads::child_named(&self.rows, &self.index, doc, name)
    }

    fn next_sibling(&self, nav: u32) -> Option<u32> {
        reads::next_sibling(&self.rows, &self.index, nav)
    }

    fn name(&self, nav: u32) -> &str {
        self.rows.name(nav)
    }

    fn opener(&self, nav: u32) -> Option<u32> {
        self.rows.opener(nav)
    }

    fn closing(&self, nav: u32) -> bool {
        self.rows.closing(nav)
    }

    fn scripted(&self, nav: u32) -> bool {
        self.rows.scripted(nav)
    }

    fn group(&self, nav: u32) -> u32 {
        reads::group(&self.rows, &self.index, nav)
    }

    fn flags(&self, nav: u32) -> Flags {
        self.rows.flags(nav)
    }

    fn navigator(&self, nav: u32) -> Option<u32> {
        self.rows.navigator(nav)
    }

    fn home_of(&self, doc: u32) -> u16 {
        self.rows.home_of(doc)
    }

    fn origin_of(&self, doc: u32) -> &Origin {
        self.rows.origin_of(doc)
    }

    fn domain_of(&self, doc: u32) -> Option<&HostText> {
        self.rows.domain_of(doc)
    }

    fn same_domain(&self, a: u32, b: u32) -> bool {
        self.rows.same_domain(a, b)
    }

    fn url_of(&self, doc: u32) -> &PageUrl {
        self.rows.url_of(doc)
    }

    fn apply(&mut self, entry: &Entry) -> Result<(), AllocError> {
        follow(&mut self.rows, &mut self.index, entry)
    }
}
