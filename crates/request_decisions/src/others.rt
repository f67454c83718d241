ghost use Rattle.std.specs.Prelude.{◌≡◌, ◌<◌, ◌&&◌, None, IfOk, IfSome, IfNone, IsTrue, if◌then◌else◌};
ghost use Rattle.coordinator_rules.specs.Decision as spec;
ghost use Rattle.coordinator_rules.specs.Decision.{is_in_fragment};
ghost use Rattle.coordinator_rules.specs.Navigation.{may_close, may_navigate};
ghost use Rattle.request_decisions.specs.Asked.{CanAsk, rules};
ghost use Rattle.request_decisions.specs.Made.{decision_of};
ghost use Rattle.tree_log.specs.declared.entry.What.{What};
ghost use Rattle.tree_log.specs.Tree.{nav_of, origin_of, same_group};

use crate::asking::Asking;
use crate::decisions::Decided;
use agent_terms::ReplyOutcome;
use nav_rules::may_close;
use origin_core::PageUrl;
use plain_data::{Data, Text};
use std::alloc::AllocError;
use tree_log::{Target, What};
use tree_view::View;

impl<'a, V: View> Asking<'a, V> {
    // Whether a document that is there is in the asker's group.
    fn is_in_group(&self, doc: u32) -> bool
        requires can_ask { CanAsk self.now.renderers self.now.suffixes.now (V.tree self.now.view.now) self.now.homes.now self.now.asker }
        requires there { doc < (V.tree self.now.view.now).docs }
        ensures { result ≡ same_group (V.tree self.now.view.now) (nav_of (V.tree self.now.view.now) self.now.asker) (nav_of (V.tree self.now.view.now) doc) }
    {
        self.view.group(self.view.nav_of(doc)) == self.view.group(self.nav())
    }

    // Whether a document is there, in the asker's group.
    fn is_near(&self, doc: u32) -> bool
        requires { CanAsk self.now.renderers self.now.suffixes.now (V.tree self.now.view.now) self.now.homes.now self.now.asker }
        ensures value { result ≡ spec.is_near (V.tree self.now.view.now) self.now.asker doc }
        ensures there { IsTrue result → doc < (V.tree self.now.view.now).docs }
    {
        doc < self.view.docs() && self.is_in_group(doc)
    }

    // Whether it is active, too.
    fn is_live(&self, doc: u32) -> bool
        requires { CanAsk self.now.renderers self.now.suffixes.now (V.tree self.now.view.now) self.now.homes.now self.now.asker }
        ensures value { result ≡ spec.is_live (V.tree self.now.view.now) self.now.asker doc }
        ensures there { IsTrue result → doc < (V.tree self.now.view.now).docs }
    {
        self.is_near(doc) && self.view.is_active(doc)
    }

    /// The navigable of a live document goes to a URL (HTML Standard, 7.4.2).
    pub(crate) fn go(&self, doc: u32, url: PageUrl, user: bool) -> Result<Decided, AllocError>
        requires { CanAsk self.now.renderers self.now.suffixes.now (V.tree self.now.view.now) self.now.homes.now self.now.asker }
        ensures { let t = V.tree self.now.view.now in
            IfOk result (λ d. decision_of d ≡ (
            if spec.is_live t self.now.asker doc then
            if may_navigate t (nav_of t self.now.asker) (nav_of t doc) user then spec.one self.now.renderer self.now.asker (spec.navigation (rules self.now.renderers self.now.suffixes.now) t (is_in_fragment t (V.urls self.now.view.now) (nav_of t doc) url) self.now.asker (nav_of t doc) url) ReplyOutcome.Done
            else spec.one self.now.renderer self.now.asker What.Sync (ReplyOutcome.Security 7)
            else spec.one self.now.renderer self.now.asker What.Sync ReplyOutcome.Done)) }
    {
        if !self.is_live(doc) {
            return Ok(self.one(What::Sync, ReplyOutcome::Done));
        }
        let nav = self.view.nav_of(doc);
        if !self.may_send(nav, user) {
            return Ok(self.refused(7));
        }
        Ok(self.one(self.navigation(nav, url)?, ReplyOutcome::Done))
    }

    // The answer where nothing is done to a document: one that isn't live, or of another origin-domain.
    fn refusal(&self, doc: u32) -> Option<ReplyOutcome>
        requires { CanAsk self.now.renderers self.now.suffixes.now (V.tree self.now.view.now) self.now.homes.now self.now.asker }
        ensures refused { IfSome result (λ o. (w : What) → spec.if_open (V.tree self.now.view.now) self.now.renderer self.now.asker doc w ≡ spec.one self.now.renderer self.now.asker What.Sync o) }
        ensures done { IfNone result ((w : What) → spec.if_open (V.tree self.now.view.now) self.now.renderer self.now.asker doc w ≡ spec.one self.now.renderer self.now.asker w ReplyOutcome.Done) }
        ensures there { IfNone result (doc < (V.tree self.now.view.now).docs) }
    {
        if !self.is_live(doc) {
            return Some(ReplyOutcome::Done);
        }
        if self.view.same_domain(self.asker, doc) {
            None
        } else {
            Some(ReplyOutcome::Security { rule: 8 })
        }
    }

    /// The navigable of a live document gets a name (HTML Standard, 7.2.2.4).
    pub(crate) fn named(&self, doc: u32, name: Text) -> Decided
        requires { CanAsk self.now.renderers self.now.suffixes.now (V.tree self.now.view.now) self.now.homes.now self.now.asker }
        ensures { decision_of result ≡ spec.if_open (V.tree self.now.view.now) self.now.renderer self.now.asker doc (What.Name (nav_of (V.tree self.now.view.now) doc) name) }
    {
        match self.refusal(doc) {
            Some(outcome) => self.one(What::Sync, outcome),
            None => {
                let nav = self.view.nav_of(doc);
                self.one(What::Name { nav, name }, ReplyOutcome::Done)
            }
        }
    }

    /// The navigable of a live document gives up its opener (HTML Standard, 7.2.2.4).
    pub(crate) fn disowned(&self, doc: u32) -> Decided
        requires { CanAsk self.now.renderers self.now.suffixes.now (V.tree self.now.view.now) self.now.homes.now self.now.asker }
        ensures { decision_of result ≡ spec.if_open (V.tree self.now.view.now) self.now.renderer self.now.asker doc (What.Opener (nav_of (V.tree self.now.view.now) doc) None) }
    {
        match self.refusal(doc) {
            Some(outcome) => self.one(What::Sync, outcome),
            None => {
                let nav = self.view.nav_of(doc);
                self.one(What::Opener { nav, to: None }, ReplyOutcome::Done)
            }
        }
    }

    /// The navigable of a live document is to close, where the asker's may close it (HTML Standard, 7.2.2.1).
    pub(crate) fn closed(&self, doc: u32, user: bool) -> What
        requires { CanAsk self.now.renderers self.now.suffixes.now (V.tree self.now.view.now) self.now.homes.now self.now.asker }
        ensures { let t = V.tree self.now.view.now in
            result ≡ (if spec.is_live t self.now.asker doc && may_close t (nav_of t self.now.asker) (nav_of t doc) user then What.Closing (nav_of t doc) else What.Sync) }
    {
        if !self.is_live(doc) {
            return What::Sync;
        }
        let nav = self.view.nav_of(doc);
        if may_close(self.view, self.nav(), nav, user) {
            What::Closing { nav }
        } else {
            What::Sync
        }
    }

    /// A message for a document in the asker's group, active or not (HTML Standard, 9.3.3).
    pub(crate) fn posted(&self, doc: u32, target: Target, body: Data) -> Result<What, AllocError>
        requires { CanAsk self.now.renderers self.now.suffixes.now (V.tree self.now.view.now) self.now.homes.now self.now.asker }
        ensures { let t = V.tree self.now.view.now in
            IfOk result (λ what. what ≡ (if spec.is_near t self.now.asker doc then What.Post doc (nav_of t self.now.asker) (origin_of t self.now.asker) target body else What.Sync)) }
    {
        if !self.is_near(doc) {
            return Ok(What::Sync);
        }
        let origin = self.view.origin_of(self.asker).clone()?;
        Ok(What::Post {
            to: doc,
            from: self.nav(),
            origin,
            target,
            body,
        })
    }
}
