ghost use Rattle.tree_view.specs.Grown.{IsGrown};

use tree_view::View;

/// Does nothing: says that the tree of a view grew an entry at a time.
pub(crate) fn know_grown<V: View>(view: &V)
    ensures { IsGrown (V.tree view.now) }
{
    let _navs = view.navs();
}
