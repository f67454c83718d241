use crate::plain::rows::PlainView;
use crate::view::View;
use origin_core::{Flags, HostText, Origin, PageUrl, same_origin_domain};
use std::alloc::{AllocError, Global};
use tree_log::Entry;

impl PlainView {
    ghost use Rattle.std.specs.Prelude.{◌≡◌, []};
    ghost use Rattle.tree_log.specs.Tree.{tree_of};
    ghost use Rattle.tree_log.specs.Urls.{url_of};
    ghost use Rattle.tree_view.specs.Shown.{tree_shown, shown_urls};

    /// A view to which nothing was applied.
    #[tactic(auto, unfolding(tree_log::specs::Tree::tree_of, tree_log::specs::Urls::url_of))]
    pub fn new(alloc: Global) -> PlainView
        ensures tree { tree_shown result ≡ tree_of [] }
        ensures urls { shown_urls result ≡ url_of [] }
    {
        PlainView {
            alloc,
            navs: Vec::new(alloc),
            docs: Vec::new(alloc),
            loads: Vec::new(alloc),
            groups: 0,
            len: 0,
        }
    }
}

impl View for PlainView {
    ghost use Rattle.tree_view.specs.Shown.{tree_shown, shown_urls};

    ghost tree = { tree_shown };

    ghost urls = { shown_urls };

    fn len(&self) -> u32 {
        self.len
    }

    fn navs(&self) -> u32 {
        self.navs.len() as u32
    }

    fn docs(&self) -> u32 {
        self.docs.len() as u32
    }

    fn groups(&self) -> u32 {
        self.groups
    }

    fn loads(&self) -> &[u32] {
        &self.loads
    }

    fn active(&self, nav: u32) -> u32 {
        self.active_doc(nav)
    }

    fn nav_of(&self, doc: u32) -> u32 {
        self.nav_of_doc(doc)
    }

    fn is_active(&self, doc: u32) -> bool {
        self.is_active_doc(doc)
    }

    fn discarded(&self, nav: u32) -> bool {
        self.is_discarded(nav)
    }

    #[tactic(auto, unfolding(tree_log::specs::Tree::parent_of))]
    fn parent(&self, nav: u32) -> Option<u32> {
        if self.is_discarded(nav) {
            return None;
        }
        match self.embedder(nav) {
            None => None,
            Some(doc) => Some(self.nav_of_doc(doc)),
        }
    }

    #[tactic(auto, unfolding(tree_log::specs::Tree::top_level_of))]
    fn top(&self, nav: u32) -> Option<u32> {
        if self.is_discarded(nav) {
            None
        } else {
            Some(self.root(nav))
        }
    }

    fn top_level(&self, nav: u32) -> bool {
        self.embedder(nav).is_none()
    }

    fn child_count(&self, doc: u32) -> u32 {
        self.count_children(doc)
    }

    fn child_at(&self, doc: u32, index: u32) -> Option<u32> {
        self.find_child(doc, index)
    }

    fn child_named(&self, doc: u32, name: &str) -> Option<u32> {
        self.find_named(doc, name)
    }

    fn next_sibling(&self, nav: u32) -> Option<u32> {
        self.find_next(nav)
    }

    fn name(&self, nav: u32) -> &str {
        self.navs[nav as usize].name.as_str()
    }

    fn opener(&self, nav: u32) -> Option<u32> {
        self.navs[nav as usize].opener
    }

    fn closing(&self, nav: u32) -> bool {
        self.navs[nav as usize].closing
    }

    fn scripted(&self, nav: u32) -> bool {
        self.navs[nav as usize].made.scripted
    }

    fn group(&self, nav: u32) -> u32 {
        self.group_of(nav)
    }

    fn flags(&self, nav: u32) -> Flags {
        self.navs[nav as usize].made.flags
    }

    fn navigator(&self, nav: u32) -> Option<u32> {
        self.navs[nav as usize].made.navigator
    }

    fn home_of(&self, doc: u32) -> u16 {
        self.docs[doc as usize].home
    }

    fn been_active(&self, doc: u32) -> bool {
        self.docs[doc as usize].been_active
    }

    fn last_load(&self, nav: u32) -> Option<u32> {
        self.navs[nav as usize].last_load
    }

    fn origin_of(&self, doc: u32) -> &Origin {
        self.origin(doc)
    }

    fn domain_of(&self, doc: u32) -> Option<&HostText> {
        self.domain(doc)
    }

    fn same_domain(&self, a: u32, b: u32) -> bool {
        same_origin_domain(
            self.origin(a),
            self.domain(a),
            self.origin(b),
            self.domain(b),
        )
    }

    fn url_of(&self, doc: u32) -> &PageUrl {
        &self.docs[doc as usize].url
    }

    fn apply(&mut self, entry: &Entry) -> Result<(), AllocError> {
        self.apply_entry(entry)
    }
}
