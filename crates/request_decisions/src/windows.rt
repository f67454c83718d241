ghost use Rattle.std.specs.Prelude.{◌≡◌, ◌<◌, Some, None, IfOk, codes, if◌then◌else◌};
ghost use Rattle.std.specs.Option.{option_to_list};
ghost use Rattle.coordinator_rules.specs.Decision as spec;
ghost use Rattle.coordinator_rules.specs.Decision.{asking, is_in_fragment};
ghost use Rattle.coordinator_rules.specs.Navigation.{is_word};
ghost use Rattle.nav_rules.specs.Chosen.{chosen, IsThere};
ghost use Rattle.request_decisions.specs.Asked.{CanAsk, rules};
ghost use Rattle.request_decisions.specs.Made.{decision_of};
ghost use Rattle.tree_log.specs.Tree.{nav_of};

use crate::asking::Asking;
use crate::decisions::{Decided, Made};
use agent_terms::ReplyOutcome;
use nav_rules::Choice;
use origin_core::{Flags, PageUrl, window_origin};
use plain_data::Text;
use std::alloc::{AllocError, Global};
use tree_log::{Entry, Load, What};
use tree_view::View;

// The target name of a new window.
fn window_name(alloc: Global, name: Text) -> Text
    ensures { result ≡ spec.window_name name }
{
    if is_blank(name.as_str()) {
        Text::from_string(String::new(alloc))
    } else {
        name
    }
}

fn is_blank(name: &str) -> bool
    ensures { result ≡ is_word (codes "_blank") name.now }
{
    name.as_bytes().eq_ignore_ascii_case(b"_blank")
}

fn unless(noopener: bool, nav: u32) -> Option<u32>
    ensures { result ≡ spec.unless noopener nav }
{
    if noopener { None } else { Some(nav) }
}

fn made_or_null(noopener: bool, nav: u32) -> ReplyOutcome
    ensures { result ≡ spec.made_or_null noopener nav }
{
    if noopener {
        ReplyOutcome::Null
    } else {
        ReplyOutcome::Made { nav }
    }
}

impl<'a, V: View> Asking<'a, V> {
    // The sandbox flags of a window that a navigable makes: its own, where they propagate.
    fn window_flags(&self, nav: u32) -> Flags
        requires { nav < (V.tree self.now.view.now).navs }
        ensures { result ≡ spec.window_flags (V.tree self.now.view.now) nav }
    {
        let flags = self.view.flags(nav);
        if flags.propagates() {
            flags
        } else {
            Flags::NONE
        }
    }

    fn window_load(
        &self,
        group: u32,
        flags: Flags,
        url: Option<PageUrl>,
    ) -> Result<Option<Load>, AllocError>
        requires { CanAsk self.now.renderers self.now.suffixes.now (V.tree self.now.view.now) self.now.homes.now self.now.asker }
        ensures { IfOk result (λ load. load ≡ spec.window_load (rules self.now.renderers self.now.suffixes.now) (V.tree self.now.view.now) self.now.asker group flags url) }
    {
        let Some(url) = url else {
            return Ok(None);
        };
        let load = self.load_for(group, flags, self.view.docs() + 1, url)?;
        Ok(Some(load))
    }

    // A new window of a group, made from a navigable.
    fn open_entry(
        &self,
        nav: u32,
        group: u32,
        name: Text,
        noopener: bool,
        url: Option<PageUrl>,
    ) -> Result<What, AllocError>
        requires can_ask { CanAsk self.now.renderers self.now.suffixes.now (V.tree self.now.view.now) self.now.homes.now self.now.asker }
        requires there { nav < (V.tree self.now.view.now).navs }
        ensures { IfOk result (λ what. what ≡ spec.open_entry (rules self.now.renderers self.now.suffixes.now) (V.tree self.now.view.now) self.now.asker nav group name noopener url) }
    {
        let flags = self.window_flags(nav);
        let load = self.window_load(group, flags, url)?;
        let origin = window_origin(noopener, self.view.docs(), self.view.origin_of(self.asker))?;
        Ok(What::Open {
            nav: self.view.navs(),
            doc: self.view.docs(),
            group,
            home: self.view.home_of(self.asker),
            origin,
            name: window_name(self.alloc, name),
            opener: unless(noopener, nav),
            flags,
            navigator: unless(noopener || !self.view.flags(nav).navigation(), nav),
            load,
        })
    }

    // The group of a new window: a new one with noopener, else that of the navigable that makes it.
    fn window_group(&self, nav: u32, noopener: bool) -> u32
        requires { nav < (V.tree self.now.view.now).navs }
        ensures { result ≡ (if noopener then (V.tree self.now.view.now).groups else spec.group_in (V.tree self.now.view.now) nav) }
    {
        if noopener {
            self.view.groups()
        } else {
            self.group_in(nav)
        }
    }

    // A new window (HTML Standard, 7.3.1.7).
    fn new_window(
        &self,
        name: Text,
        noopener: bool,
        url: Option<PageUrl>,
    ) -> Result<What, AllocError>
        requires { CanAsk self.now.renderers self.now.suffixes.now (V.tree self.now.view.now) self.now.homes.now self.now.asker }
        ensures { IfOk result (λ what. what ≡ spec.new_window (rules self.now.renderers self.now.suffixes.now) (V.tree self.now.view.now) self.now.asker name noopener url) }
    {
        let nav = self.nav();
        let group = self.window_group(nav, noopener);
        self.open_entry(nav, group, name, noopener, url)
    }

    // The asker's navigable becomes the opener of one that is there, unless it is the same one.
    fn opener_entry(&self, nav: u32, noopener: bool) -> Option<Entry>
        requires { CanAsk self.now.renderers self.now.suffixes.now (V.tree self.now.view.now) self.now.homes.now self.now.asker }
        ensures { option_to_list result ≡ spec.opener_entry (V.tree self.now.view.now) self.now.renderer self.now.asker noopener nav }
    {
        let to = self.nav();
        if noopener || nav == to {
            return None;
        }
        Some(self.entry(What::Opener { nav, to: Some(to) }))
    }

    // A window was found, and stays where it is.
    fn found(&self, nav: u32, noopener: bool, user: bool) -> Decided
        requires { CanAsk self.now.renderers self.now.suffixes.now (V.tree self.now.view.now) self.now.homes.now self.now.asker }
        ensures { decision_of result ≡ spec.open_existing (asking (rules self.now.renderers self.now.suffixes.now) (V.tree self.now.view.now) self.now.renderer self.now.asker noopener user) (is_in_fragment (V.tree self.now.view.now) (V.urls self.now.view.now)) nav None }
    {
        let outcome = made_or_null(noopener, nav);
        match self.opener_entry(nav, noopener) {
            Some(entry) => Decided {
                entries: Made::One(entry),
                outcome,
            },
            None => self.one(What::Sync, outcome),
        }
    }

    // A window was found, and goes to a URL where the asker may navigate it.
    fn sent(
        &self,
        nav: u32,
        url: PageUrl,
        noopener: bool,
        user: bool,
    ) -> Result<Decided, AllocError>
        requires can_ask { CanAsk self.now.renderers self.now.suffixes.now (V.tree self.now.view.now) self.now.homes.now self.now.asker }
        requires there { nav < (V.tree self.now.view.now).navs }
        ensures { IfOk result (λ d. decision_of d ≡ spec.open_existing (asking (rules self.now.renderers self.now.suffixes.now) (V.tree self.now.view.now) self.now.renderer self.now.asker noopener user) (is_in_fragment (V.tree self.now.view.now) (V.urls self.now.view.now)) nav (Some url)) }
    {
        if !self.may_send(nav, user) {
            return Ok(self.refused(7));
        }
        let outcome = made_or_null(noopener, nav);
        let first = self.entry(self.navigation(nav, url)?);
        match self.opener_entry(nav, noopener) {
            Some(second) => Ok(Decided {
                entries: Made::Two { first, second },
                outcome,
            }),
            None => Ok(Decided {
                entries: Made::One(first),
                outcome,
            }),
        }
    }

    /// A window is opened by the navigable that was chosen for it (HTML Standard, 7.2.2.1, the window open steps).
    pub(crate) fn open_chosen(
        &self,
        url: Option<PageUrl>,
        name: Text,
        choice: Choice,
        noopener: bool,
        user: bool,
    ) -> Result<Decided, AllocError>
        requires can_ask { CanAsk self.now.renderers self.now.suffixes.now (V.tree self.now.view.now) self.now.homes.now self.now.asker }
        requires there { IsThere (V.tree self.now.view.now) choice }
        ensures { IfOk result (λ d. decision_of d ≡ spec.open_chosen (asking (rules self.now.renderers self.now.suffixes.now) (V.tree self.now.view.now) self.now.renderer self.now.asker noopener user) (is_in_fragment (V.tree self.now.view.now) (V.urls self.now.view.now)) url name (chosen choice)) }
    {
        match choice {
            Choice::Nothing => Ok(self.one(What::Sync, ReplyOutcome::Null)),
            Choice::New => {
                let outcome = made_or_null(noopener, self.view.navs());
                Ok(self.one(self.new_window(name, noopener, url)?, outcome))
            }
            Choice::Existing(nav) => match url {
                None => Ok(self.found(nav, noopener, user)),
                Some(url) => self.sent(nav, url, noopener, user),
            },
        }
    }

    /// A link is followed to the navigable that was chosen for it (HTML Standard, 4.6.4).
    pub(crate) fn link_chosen(
        &self,
        url: PageUrl,
        name: Text,
        choice: Choice,
        noopener: bool,
        user: bool,
    ) -> Result<What, AllocError>
        requires can_ask { CanAsk self.now.renderers self.now.suffixes.now (V.tree self.now.view.now) self.now.homes.now self.now.asker }
        requires there { IsThere (V.tree self.now.view.now) choice }
        ensures { IfOk result (λ what. what ≡ spec.link_chosen (asking (rules self.now.renderers self.now.suffixes.now) (V.tree self.now.view.now) self.now.renderer self.now.asker noopener user) (is_in_fragment (V.tree self.now.view.now) (V.urls self.now.view.now)) url name (chosen choice)) }
    {
        match choice {
            Choice::Nothing => Ok(What::Sync),
            Choice::New => self.new_window(name, noopener, Some(url)),
            Choice::Existing(nav) => {
                if self.may_send(nav, user) {
                    self.navigation(nav, url)
                } else {
                    Ok(What::Sync)
                }
            }
        }
    }
}
