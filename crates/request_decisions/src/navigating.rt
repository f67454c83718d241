ghost use Rattle.std.specs.Prelude.{◌≡◌, ◌<◌, IfOk};
ghost use Rattle.coordinator_rules.specs.Decision as spec;
ghost use Rattle.coordinator_rules.specs.Decision.{is_in_fragment};
ghost use Rattle.coordinator_rules.specs.Navigation.{may_navigate};
ghost use Rattle.request_decisions.specs.Asked.{CanAsk, rules};
ghost use Rattle.tree_log.specs.Tree.{nav_of};

use crate::asking::Asking;
use nav_rules::may_navigate;
use origin_core::{PageUrl, same_but_fragment};
use std::alloc::AllocError;
use tree_log::What;
use tree_view::View;

impl<'a, V: View> Asking<'a, V> {
    /// Whether the asker's navigable may navigate another one.
    pub(crate) fn may_send(&self, nav: u32, user: bool) -> bool
        requires can_ask { CanAsk self.now.renderers self.now.suffixes.now (V.tree self.now.view.now) self.now.homes.now self.now.asker }
        requires there { nav < (V.tree self.now.view.now).navs }
        ensures { result ≡ may_navigate (V.tree self.now.view.now) (nav_of (V.tree self.now.view.now) self.now.asker) nav user }
    {
        may_navigate(self.view, self.nav(), nav, user)
    }

    // Whether the navigation of a navigable to a URL is one to a fragment (HTML Standard, 7.4.2.2).
    #[tactic(auto, unfolding(coordinator_rules::specs::Decision::is_in_fragment))]
    fn is_in_fragment(&self, nav: u32, url: &PageUrl) -> bool
        requires { nav < (V.tree self.now.view.now).navs }
        ensures { result ≡ is_in_fragment (V.tree self.now.view.now) (V.urls self.now.view.now) nav url.now }
    {
        url.fragment().is_some() && same_but_fragment(url, self.view.url_of(self.view.active(nav)))
    }

    /// The navigation of a navigable to a URL: one to a fragment, or a load (HTML Standard, 7.4.2).
    pub(crate) fn navigation(&self, nav: u32, url: PageUrl) -> Result<What, AllocError>
        requires can_ask { CanAsk self.now.renderers self.now.suffixes.now (V.tree self.now.view.now) self.now.homes.now self.now.asker }
        requires there { nav < (V.tree self.now.view.now).navs }
        ensures { IfOk result (λ what. what ≡ spec.navigation (rules self.now.renderers self.now.suffixes.now) (V.tree self.now.view.now) (is_in_fragment (V.tree self.now.view.now) (V.urls self.now.view.now) nav url) self.now.asker nav url) }
    {
        if self.is_in_fragment(nav, &url) {
            return Ok(What::Fragment {
                nav,
                doc: self.view.active(nav),
                url,
            });
        }
        let group = self.group_in(nav);
        let load = self.load_for(group, self.view.flags(nav), self.view.docs(), url)?;
        Ok(What::Begin { nav, load })
    }
}
