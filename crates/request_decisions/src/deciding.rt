ghost use Rattle.std.specs.Prelude.{◌≡◌, ◌<◌, ◌^◌, IfOk};
ghost use Rattle.coordinator_rules.specs.Decision as spec;
ghost use Rattle.coordinator_rules.specs.Decision.{is_in_fragment};
ghost use Rattle.request_decisions.specs.Asked.{AreOfOneLog, CanAsk, rules};
ghost use Rattle.request_decisions.specs.Made.{decision_of};

use crate::asking::Asking;
use crate::decisions::{Decided, Made};
use agent_terms::{ReplyOutcome, Request};
use home_index::Homes;
use nav_rules::choose;
use origin_core::HostText;
use std::alloc::{AllocError, Global};
use tree_log::What;
use tree_view::View;

/// The document that asks; 0 where none does.
pub fn asker_of(request: &Request) -> u32
    ensures { result ≡ spec.asker_of request.now }
{
    match request {
        Request::Next | Request::More => 0,
        Request::Sync { asker }
        | Request::Frame { asker, .. }
        | Request::Drop { asker, .. }
        | Request::Open { asker, .. }
        | Request::Link { asker, .. }
        | Request::Go { asker, .. }
        | Request::Name { asker, .. }
        | Request::Disown { asker, .. }
        | Request::Close { asker, .. }
        | Request::Post { asker, .. }
        | Request::Domain { asker, .. } => *asker,
    }
}

/// What is decided on a request of a renderer's document, which is active: the entries for the log, and the answer.
///
/// A document that the request names needn't be there. The view and the homes are of one log. It takes memory for what it
/// makes alone, and for a domain in lower case.
pub fn decide<V: View>(
    alloc: Global,
    view: &V,
    homes: &Homes,
    renderers: u16,
    suffixes: &[HostText],
    renderer: u16,
    request: Request,
) -> Result<Decided, AllocError>
    requires some { 0 < renderers }
    requires asker { spec.asker_of request < (V.tree view.now).docs }
    requires few { (V.tree view.now).docs < 2 ^ 31 }
    requires homes { AreOfOneLog suffixes.now (V.tree view.now) homes.now }
    ensures { IfOk result (λ d. decision_of d ≡ spec.decide (rules renderers suffixes.now) (V.tree view.now) (is_in_fragment (V.tree view.now) (V.urls view.now)) renderer request) }
{
    let asking = Asking {
        alloc,
        view,
        homes,
        renderers,
        suffixes,
        renderer,
        asker: asker_of(&request),
    };
    asking.decide(request)
}

impl<'a, V: View> Asking<'a, V> {
    // What is decided on a request of the asker.
    #[tactic(auto, unfolding(coordinator_rules::specs::Decision::decide))]
    fn decide(&self, request: Request) -> Result<Decided, AllocError>
        requires can_ask { CanAsk self.now.renderers self.now.suffixes.now (V.tree self.now.view.now) self.now.homes.now self.now.asker }
        requires asker { self.now.asker ≡ spec.asker_of request }
        ensures { IfOk result (λ d. decision_of d ≡ spec.decide (rules self.now.renderers self.now.suffixes.now) (V.tree self.now.view.now) (is_in_fragment (V.tree self.now.view.now) (V.urls self.now.view.now)) self.now.renderer request) }
    {
        match request {
            Request::Next => Ok(Decided {
                entries: Made::Nothing,
                outcome: ReplyOutcome::Nothing,
            }),
            Request::More => Ok(Decided {
                entries: Made::Nothing,
                outcome: ReplyOutcome::Done,
            }),
            Request::Sync { .. } => Ok(self.one(What::Sync, ReplyOutcome::Done)),
            Request::Frame {
                name,
                flags,
                url,
                ..
            } => {
                let nav = self.view.navs();
                let what = self.framed(name, flags, url)?;
                Ok(self.one(what, ReplyOutcome::Made { nav }))
            }
            Request::Drop { nav, .. } => Ok(self.one(self.dropped(nav), ReplyOutcome::Done)),
            Request::Open {
                url,
                target,
                noopener,
                user,
                ..
            } => {
                let choice = choose(self.view, self.nav(), target.as_str(), noopener, user);
                self.open_chosen(url, target, choice, noopener, user)
            }
            Request::Link {
                url,
                target,
                noopener,
                user,
                ..
            } => {
                let choice = choose(self.view, self.nav(), target.as_str(), noopener, user);
                let what = self.link_chosen(url, target, choice, noopener, user)?;
                Ok(self.one(what, ReplyOutcome::Done))
            }
            Request::Go { doc, url, user, .. } => self.go(doc, url, user),
            Request::Name { doc, name, .. } => Ok(self.named(doc, name)),
            Request::Disown { doc, .. } => Ok(self.disowned(doc)),
            Request::Close { doc, user, .. } => {
                Ok(self.one(self.closed(doc, user), ReplyOutcome::Done))
            }
            Request::Post {
                doc,
                target,
                body,
                ..
            } => {
                let what = self.posted(doc, target, body)?;
                Ok(self.one(what, ReplyOutcome::Done))
            }
            Request::Domain { value, .. } => self.domain(value),
        }
    }
}
