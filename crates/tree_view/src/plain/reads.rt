// One look at one row.
ghost use Rattle.std.specs.Prelude.{◌≡◌, ◌<◌, ◌||◌, length, IfSome};
ghost use Rattle.std.specs.Option.{option_copied};
ghost use Rattle.tree_log.specs.Tree as spec;
ghost use Rattle.tree_log.specs.Tree.{origin_of, domain_of};
ghost use Rattle.tree_view.specs.Shown.{tree_shown};

use crate::plain::rows::PlainView;
use origin_core::{HostText, Origin};

impl PlainView {
    pub(crate) fn active_doc(&self, nav: u32) -> u32
        requires { nav < length self.now.navs.items }
        ensures value { result ≡ ((tree_shown self.now).nav nav).active }
        ensures within { result < length self.now.docs.items }
    {
        self.navs[nav as usize].active
    }

    pub(crate) fn embedder(&self, nav: u32) -> Option<u32>
        requires { nav < length self.now.navs.items }
        ensures value { result ≡ spec.embedder (tree_shown self.now) nav }
        ensures within { IfSome result (λ doc. doc < length self.now.docs.items) }
    {
        self.navs[nav as usize].made.embedder
    }

    /// Whether a navigable was itself dropped or closed.
    pub(crate) fn was_ended(&self, nav: u32) -> bool
        requires { nav < length self.now.navs.items }
        ensures { result ≡ (((tree_shown self.now).nav nav).dropped || ((tree_shown self.now).nav nav).gone) }
    {
        let row = &self.navs[nav as usize];
        row.dropped || row.gone
    }

    pub(crate) fn nav_of_doc(&self, doc: u32) -> u32
        requires { doc < length self.now.docs.items }
        ensures value { result ≡ spec.nav_of (tree_shown self.now) doc }
        ensures within { result < length self.now.navs.items }
    {
        self.docs[doc as usize].nav
    }

    pub(crate) fn origin(&self, doc: u32) -> &Origin
        requires { doc < length self.now.docs.items }
        ensures { result.now ≡ origin_of (tree_shown self.now) doc }
    {
        &self.docs[doc as usize].origin
    }

    pub(crate) fn domain(&self, doc: u32) -> Option<&HostText>
        requires { doc < length self.now.docs.items }
        ensures { option_copied result ≡ domain_of (tree_shown self.now) doc }
    {
        self.docs[doc as usize].domain.as_ref()
    }
}
