ghost use Rattle.std.specs.Prelude.{◌≡◌, ◌<◌, ◌+◌, ◌^◌, IfOk};
ghost use Rattle.coordinator_rules.specs.Decision as spec;
ghost use Rattle.request_decisions.specs.Asked.{CanAsk, rules};
ghost use Rattle.request_decisions.specs.Made.{decision_of};
ghost use Rattle.tree_log.specs.Tree.{nav_of};

use crate::decisions::{Decided, Made};
use agent_terms::ReplyOutcome;
use home_index::Homes;
use origin_core::{Flags, HostText, Origin, PageUrl, loaded_origin, site_of};
use std::alloc::{AllocError, Global};
use tree_log::{Entry, Load, What};
use tree_view::View;

/// A document that asks, its renderer, and what its requests are decided by.
#[derive(Drop)]
pub(crate) struct Asking<'a, V> {
    pub alloc: Global,
    pub view: &'a V,
    pub homes: &'a Homes,
    /// The number of renderers.
    pub renderers: u16,
    /// The public suffixes.
    pub suffixes: &'a [HostText],
    pub renderer: u16,
    pub asker: u32,
}

impl<'a, V: View> Asking<'a, V> {
    /// The entry of what happens.
    pub(crate) fn entry(&self, what: What) -> Entry
        ensures { result ≡ spec.by self.now.renderer self.now.asker what }
    {
        Entry {
            by: Some(self.renderer),
            actor: Some(self.asker),
            what,
        }
    }

    /// One entry, and an answer.
    pub(crate) fn one(&self, what: What, outcome: ReplyOutcome) -> Decided
        ensures { decision_of result ≡ spec.one self.now.renderer self.now.asker what outcome }
    {
        Decided {
            entries: Made::One(self.entry(what)),
            outcome,
        }
    }

    /// That nothing happens.
    pub(crate) fn none(&self, outcome: ReplyOutcome) -> Decided
        ensures { decision_of result ≡ spec.one self.now.renderer self.now.asker What.Sync outcome }
    {
        self.one(What::Sync, outcome)
    }

    /// That nothing happens, by the rule with this number.
    pub(crate) fn refused(&self, rule: u8) -> Decided
        ensures { decision_of result ≡ spec.one self.now.renderer self.now.asker What.Sync (ReplyOutcome.Security rule) }
    {
        self.none(ReplyOutcome::Security { rule })
    }

    /// The asker's navigable.
    pub(crate) fn nav(&self) -> u32
        requires { CanAsk self.now.renderers self.now.suffixes.now (V.tree self.now.view.now) self.now.homes.now self.now.asker }
        ensures value { result ≡ nav_of (V.tree self.now.view.now) self.now.asker }
        ensures within { result < (V.tree self.now.view.now).navs }
    {
        self.view.nav_of(self.asker)
    }

    /// The group of a navigable.
    pub(crate) fn group_in(&self, nav: u32) -> u32
        requires { nav < (V.tree self.now.view.now).navs }
        ensures { result ≡ spec.group_in (V.tree self.now.view.now) nav }
    {
        self.view.group(nav)
    }

    // The load of a URL in a group, for a document with that number and origin.
    fn load_of(
        &self,
        group: u32,
        doc: u32,
        origin: Origin,
        url: PageUrl,
    ) -> Result<Load, AllocError>
        requires { CanAsk self.now.renderers self.now.suffixes.now (V.tree self.now.view.now) self.now.homes.now self.now.asker }
        ensures { IfOk result (λ load. load ≡ spec.load_of (rules self.now.renderers self.now.suffixes.now) (V.tree self.now.view.now) group doc origin url) }
    {
        let site = site_of(self.alloc, &origin, self.suffixes)?;
        let home = self.homes.home_for(group, &site, self.renderers);
        Ok(Load {
            doc,
            home,
            origin,
            url,
        })
    }

    /// The load of a URL that the asker asks for, in a group and under sandbox flags.
    pub(crate) fn load_for(
        &self,
        group: u32,
        flags: Flags,
        doc: u32,
        url: PageUrl,
    ) -> Result<Load, AllocError>
        requires { CanAsk self.now.renderers self.now.suffixes.now (V.tree self.now.view.now) self.now.homes.now self.now.asker }
        ensures { IfOk result (λ load. load ≡ spec.load_for (rules self.now.renderers self.now.suffixes.now) (V.tree self.now.view.now) group flags doc self.now.asker url) }
    {
        let origin = loaded_origin(
            self.alloc,
            flags.origin(),
            doc,
            self.view.origin_of(self.asker),
            &url,
        )?;
        self.load_of(group, doc, origin, url)
    }
}
