ghost use Rattle.std.specs.Prelude.{◌≡◌, ◌<◌, ℕ, List, length, slice_get, All, Some, OnOk, OnErr, IfSome, IsTrue};
ghost use Rattle.std.specs.Option.{option_copied};
ghost use Rattle.tree_log.specs.Tree.{Tree, tree_after, nav_of, origin_of, domain_of, home_of, is_active, is_discarded, parent_of, top_level_of, is_top_level, group_of, children_of, same_domain};
ghost use Rattle.tree_log.specs.NamedChildren.{child_named};
ghost use Rattle.tree_log.specs.Siblings.{next_sibling};
ghost use Rattle.tree_log.specs.Urls.{urls_after};
ghost use Rattle.tree_log.specs.Admits.{admits};
ghost use Rattle.tree_view.specs.Grown.{IsGrown};

use crate::admits::can_follow;
use origin_core::{Flags, HostText, Origin, PageUrl};
use std::alloc::AllocError;
use tree_log::Entry;

/// A tree of navigables and documents, as the entries that were applied make it (HTML Standard, 7.3.1).
///
/// Each read equals the definition of the tree in `tree_log`, on numbers of navigables below `navs` and of documents
/// below `docs`, and takes no memory. That a view is one of a log is said by `tree` and `urls` alone.
pub trait View {
    /// What the view says of the tree.
    ghost tree: { Self → Tree };

    /// What the view says of the URL of each document.
    ghost urls: { Self → ℕ → List ℕ };

    /// The number of entries that were applied.
    fn len(&self) -> u32
        ensures { result ≡ (tree self.now).len };

    /// The number of navigables: the tree grew by one at a time, so a parent has a smaller number than its children.
    fn navs(&self) -> u32
        ensures value { result ≡ (tree self.now).navs }
        ensures grown { IsGrown (tree self.now) };

    /// The number of documents.
    fn docs(&self) -> u32
        ensures { result ≡ (tree self.now).docs };

    /// The number of groups.
    fn groups(&self) -> u32
        ensures { result ≡ (tree self.now).groups };

    /// The documents that were loaded, in the order of their numbers.
    fn loads(&self) -> &[u32]
        ensures value { result.now ≡ (tree self.now).loads }
        ensures within { All (λ doc. doc < (tree self.now).docs) result.now };

    /// The active document of a navigable, also of one that was discarded.
    fn active(&self, nav: u32) -> u32
        requires { nav < (tree self.now).navs }
        ensures value { result ≡ ((tree self.now).nav nav).active }
        ensures within { result < (tree self.now).docs };

    /// The navigable for which a document was made.
    fn nav_of(&self, doc: u32) -> u32
        requires { doc < (tree self.now).docs }
        ensures value { result ≡ nav_of (tree self.now) doc }
        ensures within { result < (tree self.now).navs };

    /// Whether a document is the active one of a navigable that wasn't discarded.
    fn is_active(&self, doc: u32) -> bool
        requires { doc < (tree self.now).docs }
        ensures { result ≡ is_active (tree self.now) doc };

    /// Whether a document is or was the active one of its navigable.
    fn been_active(&self, doc: u32) -> bool
        requires { doc < (tree self.now).docs }
        ensures { result ≡ ((tree self.now).doc doc).been_active };

    /// The document that the newest load of a navigable is for, if the navigable has one.
    fn last_load(&self, nav: u32) -> Option<u32>
        requires { nav < (tree self.now).navs }
        ensures { result ≡ ((tree self.now).nav nav).last_load };

    /// Whether a navigable was discarded.
    fn discarded(&self, nav: u32) -> bool
        requires { nav < (tree self.now).navs }
        ensures { result ≡ is_discarded (tree self.now) nav };

    /// The parent: none for a top-level navigable, and none for one that was discarded.
    fn parent(&self, nav: u32) -> Option<u32>
        requires { nav < (tree self.now).navs }
        ensures value { result ≡ parent_of (tree self.now) nav }
        ensures within { IfSome result (λ above. above < (tree self.now).navs) };

    /// The top-level navigable above a navigable: none for one that was discarded.
    fn top(&self, nav: u32) -> Option<u32>
        requires { nav < (tree self.now).navs }
        ensures value { result ≡ top_level_of (tree self.now) nav }
        ensures within { IfSome result (λ top. top < (tree self.now).navs) };

    /// Whether a navigable is a top-level one, also where it was discarded.
    fn top_level(&self, nav: u32) -> bool
        requires { nav < (tree self.now).navs }
        ensures { result ≡ is_top_level (tree self.now) nav };

    /// How many children a document has.
    fn child_count(&self, doc: u32) -> u32
        requires { doc < (tree self.now).docs }
        ensures { result ≡ length (children_of (tree self.now) doc) };

    /// The child with this index: none exactly where the index is not below the count.
    fn child_at(&self, doc: u32, index: u32) -> Option<u32>
        requires { doc < (tree self.now).docs }
        ensures value { result ≡ slice_get (children_of (tree self.now) doc) index }
        ensures within { IfSome result (λ child. child < (tree self.now).navs) };

    /// The child that a name reaches, if there is one.
    fn child_named(&self, doc: u32, name: &str) -> Option<u32>
        requires { doc < (tree self.now).docs }
        ensures value { result ≡ child_named (tree self.now) doc name.now }
        ensures within { IfSome result (λ child. child < (tree self.now).navs) };

    /// The next child of the same parent: none for a last child, a top-level navigable and one that was discarded.
    fn next_sibling(&self, nav: u32) -> Option<u32>
        requires { nav < (tree self.now).navs }
        ensures value { result ≡ next_sibling (tree self.now) nav }
        ensures within { IfSome result (λ next. next < (tree self.now).navs) };

    /// The target name of a navigable.
    fn name(&self, nav: u32) -> &str
        requires { nav < (tree self.now).navs }
        ensures { result.now ≡ ((tree self.now).nav nav).name };

    /// The opener of a navigable, also one that was discarded.
    fn opener(&self, nav: u32) -> Option<u32>
        requires { nav < (tree self.now).navs }
        ensures value { result ≡ ((tree self.now).nav nav).opener }
        ensures within { IfSome result (λ opener. opener < (tree self.now).navs) };

    /// Whether a navigable was asked to close.
    fn closing(&self, nav: u32) -> bool
        requires { nav < (tree self.now).navs }
        ensures { result ≡ ((tree self.now).nav nav).closing };

    /// Whether a document's entry made a navigable, as `window.open` does, and not the start of the session.
    fn scripted(&self, nav: u32) -> bool
        requires { nav < (tree self.now).navs }
        ensures { result ≡ ((tree self.now).nav nav).made.scripted };

    /// The group of a navigable: that of its top-level one, also where it was discarded.
    fn group(&self, nav: u32) -> u32
        requires { nav < (tree self.now).navs }
        ensures { group_of (tree self.now) nav ≡ Some result };

    /// The sandbox flags with which a navigable was made.
    fn flags(&self, nav: u32) -> Flags
        requires { nav < (tree self.now).navs }
        ensures { result ≡ ((tree self.now).nav nav).made.flags };

    /// The navigable that may navigate a top-level one although sandbox flags forbid it (HTML Standard, 7.1.5, the
    /// one permitted sandboxed navigator).
    fn navigator(&self, nav: u32) -> Option<u32>
        requires { nav < (tree self.now).navs }
        ensures value { result ≡ ((tree self.now).nav nav).made.navigator }
        ensures within { IfSome result (λ by. by < (tree self.now).navs) };

    /// The renderer that is the home of a document.
    fn home_of(&self, doc: u32) -> u16
        requires { doc < (tree self.now).docs }
        ensures { result ≡ home_of (tree self.now) doc };

    /// The origin of a document.
    fn origin_of(&self, doc: u32) -> &Origin
        requires { doc < (tree self.now).docs }
        ensures { result.now ≡ origin_of (tree self.now) doc };

    /// The domain that a document has set, if it has (HTML Standard, 7.1.1.2).
    fn domain_of(&self, doc: u32) -> Option<&HostText>
        requires { doc < (tree self.now).docs }
        ensures { option_copied result ≡ domain_of (tree self.now) doc };

    /// Whether two documents are same origin-domain.
    fn same_domain(&self, a: u32, b: u32) -> bool
        requires a { a < (tree self.now).docs }
        requires b { b < (tree self.now).docs }
        ensures { result ≡ same_domain (tree self.now) a b };

    /// The URL of a document.
    fn url_of(&self, doc: u32) -> &PageUrl
        requires { doc < (tree self.now).docs }
        ensures { result.now ≡ urls self.now doc };

    /// Whether an entry can follow: what it names is there, and what it makes has the next numbers.
    final fn admits(&self, entry: &Entry) -> bool
        ensures { result ≡ admits (tree self.now) entry.now }
    {
        can_follow(self, entry)
    }

    /// Applies one more entry. After an `Err` the view is as before.
    fn apply(&mut self, entry: &Entry) -> Result<(), AllocError>
        requires { IsTrue (admits (tree self.old) entry.now) }
        ensures ok { OnOk result (tree self.new ≡ tree_after (tree self.old) entry.now) }
        ensures urls_ok { OnOk result (urls self.new ≡ urls_after (urls self.old) entry.now) }
        ensures err { OnErr result (tree self.new ≡ tree self.old) }
        ensures urls_err { OnErr result (urls self.new ≡ urls self.old) };
}
