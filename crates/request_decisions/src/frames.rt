ghost use Rattle.std.specs.Prelude.{◌≡◌, ◌<◌, IfOk, IsTrue, if◌then◌else◌};
ghost use Rattle.coordinator_rules.specs.Decision as spec;
ghost use Rattle.coordinator_rules.specs.Navigation.{flags_in, is_in};
ghost use Rattle.origin_core.specs.Flags.{union};
ghost use Rattle.request_decisions.specs.Asked.{CanAsk, rules};
ghost use Rattle.tree_log.specs.Tree.{nav_of, children_of};

use crate::asking::Asking;
use origin_core::{Flags, PageUrl, frame_origin};
use plain_data::Text;
use std::alloc::AllocError;
use tree_log::{Load, What};
use tree_view::View;

impl<'a, V: View> Asking<'a, V> {
    // The load that a frame begins with: none at `about:blank`.
    fn frame_load(&self, flags: Flags, url: Option<PageUrl>) -> Result<Option<Load>, AllocError>
        requires { CanAsk self.now.renderers self.now.suffixes.now (V.tree self.now.view.now) self.now.homes.now self.now.asker }
        ensures { IfOk result (λ load. load ≡ spec.frame_load (rules self.now.renderers self.now.suffixes.now) (V.tree self.now.view.now) self.now.asker flags url) }
    {
        let Some(url) = url else {
            return Ok(None);
        };
        if !url.is_web() {
            return Ok(None);
        }
        let doc = self.view.docs() + 1;
        let load = self.load_for(self.group_in(self.nav()), flags, doc, url)?;
        Ok(Some(load))
    }

    // A new frame under sandbox flags (HTML Standard, 4.8.5).
    fn frame_entry(
        &self,
        name: Text,
        flags: Flags,
        url: Option<PageUrl>,
    ) -> Result<What, AllocError>
        requires { CanAsk self.now.renderers self.now.suffixes.now (V.tree self.now.view.now) self.now.homes.now self.now.asker }
        ensures { IfOk result (λ what. what ≡ spec.frame_entry (rules self.now.renderers self.now.suffixes.now) (V.tree self.now.view.now) self.now.asker name flags url) }
    {
        let load = self.frame_load(flags, url)?;
        let origin = frame_origin(
            flags.origin(),
            self.view.docs(),
            self.view.origin_of(self.asker),
        )?;
        Ok(What::Frame {
            nav: self.view.navs(),
            doc: self.view.docs(),
            home: self.view.home_of(self.asker),
            origin,
            name,
            flags,
            load,
        })
    }

    /// A new frame: it has its own flags, and those of the asker's navigable (HTML Standard, 7.1.5).
    pub(crate) fn framed(
        &self,
        name: Text,
        flags: Flags,
        url: Option<PageUrl>,
    ) -> Result<What, AllocError>
        requires { CanAsk self.now.renderers self.now.suffixes.now (V.tree self.now.view.now) self.now.homes.now self.now.asker }
        ensures { IfOk result (λ what. what ≡ spec.frame_entry (rules self.now.renderers self.now.suffixes.now) (V.tree self.now.view.now) self.now.asker name (union flags (flags_in (V.tree self.now.view.now) (nav_of (V.tree self.now.view.now) self.now.asker))) url) }
    {
        let flags = flags.union(self.view.flags(self.nav()));
        self.frame_entry(name, flags, url)
    }

    // Whether a navigable is a child of the asker.
    fn is_child(&self, nav: u32) -> bool
        requires { self.now.asker < (V.tree self.now.view.now).docs }
        ensures { result ≡ is_in nav (children_of (V.tree self.now.view.now) self.now.asker) }
    {
        for index in 0..self.view.child_count(self.asker) {
            match self.view.child_at(self.asker, index) {
                Some(child) => {
                    if child == nav {
                        return true;
                    }
                }
                None => return false,
            }
        }
        false
    }

    /// A frame is taken out, where it is a child of the asker.
    pub(crate) fn dropped(&self, nav: u32) -> What
        requires { self.now.asker < (V.tree self.now.view.now).docs }
        ensures { result ≡ (if is_in nav (children_of (V.tree self.now.view.now) self.now.asker) then What.Drop nav else What.Sync) }
    {
        if self.is_child(nav) {
            What::Drop { nav }
        } else {
            What::Sync
        }
    }
}
