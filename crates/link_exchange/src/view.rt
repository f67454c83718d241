ghost use Rattle.std.specs.Prelude.{◌≡◌, []};
ghost use Rattle.tree_log.specs.Tree.{tree_of};
ghost use Rattle.tree_log.specs.Urls.{url_of};

use std::alloc::Global;
use tree_view::{PlainView, View};

/// A view that can begin with no entry.
pub trait EmptyView: View + Drop {
    /// The view of the empty log.
    fn empty(alloc: Global) -> Self
        ensures tree { Self.tree result ≡ tree_of [] }
        ensures urls { Self.urls result ≡ url_of [] };
}

impl EmptyView for PlainView {
    fn empty(alloc: Global) -> PlainView {
        PlainView::new(alloc)
    }
}
