ghost use Rattle.std.specs.Prelude.{◌≡◌, ℕ, ◌==◌, ◌⊎◌, length, true, false, None, Some, IfOk, OnErr, IsTrue};
ghost use Rattle.tree_log.specs.Log.{entry_at};
ghost use Rattle.tree_log.specs.Tree.{tree_of, home_of};
ghost use Rattle.agent_terms.specs.declared.request.Request.TheVariants.{More};
ghost use Rattle.agent_terms.specs.declared.request.ReplyOutcome.{ReplyOutcome as OutcomeOf};
ghost use Rattle.link_exchange.specs.declared.exchanging.End.TheVariants as ends;
ghost use Rattle.link_wire.specs.Links.{is_fit, is_post, is_task_of, names_what_is_there};
ghost use Rattle.link_wire.specs.Requests.{IsRequest};
ghost use Rattle.ports.specs.Causes.{Rose};
ghost use Rattle.link_exchange.specs.Calls.{Knows};
ghost use Rattle.link_exchange.specs.Ending.{course_of, Ended, Starved, HasOutcome, IsReplied, Whole};
ghost use Rattle.link_exchange.specs.Hearing.{Extends};

use crate::asking::{Heard, ask_once};
use crate::replica::Replica;
use crate::view::EmptyView;
use agent_terms::{ReplyOutcome, Request};
use link_wire::Link;
use std::alloc::{AllocError, Global};
use tree_log::What;
use tree_view::View;

/// How the calls of a step end.
#[derive(Drop)]
pub enum End {
    /// All is told, and this is the outcome of the step.
    Told(ReplyOutcome),
    /// The link failed.
    Failed,
    /// The bytes of a reply are none to its request, first at that place.
    Strays { place: u32 },
}

/// Whether a document is homed at the renderer.
#[tactic(auto, using(crate::proofs::Joining::unmade_apart))]
fn is_homed<V: EmptyView>(replica: &Replica<V>, renderer: u16, doc: u32) -> bool
    ensures { result ≡ (home_of (tree_of replica.now) doc == renderer) }
{
    let view = replica.view();
    doc < view.docs() && view.home_of(doc) == renderer
}

/// Whether a message was heard whole at the place.
fn is_posted<V: EmptyView>(replica: &Replica<V>, place: u32) -> bool
    ensures { result ≡ is_post (entry_at replica.now place) }
{
    match replica.at(place) {
        Some(entry) => matches!(&entry.what, What::Post { .. }),
        None => false,
    }
}

/// Whether what happened is a task of the renderer.
fn is_task<V: EmptyView>(replica: &Replica<V>, renderer: u16, what: &What) -> bool
    ensures { result ≡ is_task_of renderer replica.now what.now }
{
    match what {
        What::Commit { doc, .. } => is_homed(replica, renderer, *doc),
        What::Fire { doc, post } => {
            is_homed(replica, renderer, *doc) && is_posted(replica, *post)
        }
        What::Lapse { doc, .. } => is_homed(replica, renderer, *doc),
        What::Gone { .. } => true,
        _ => false,
    }
}

/// Whether what the outcome of a step names is there, where so many entries had been heard before the step.
fn is_there<V: EmptyView>(
    replica: &Replica<V>,
    renderer: u16,
    older: u32,
    outcome: &ReplyOutcome,
) -> bool
    ensures { result ≡ names_what_is_there renderer replica.now older outcome.now }
{
    match outcome {
        ReplyOutcome::Made { nav } => *nav < replica.view().navs(),
        ReplyOutcome::Task { place } => match replica.at(*place) {
            Some(entry) => older <= *place && is_task(replica, renderer, &entry.what),
            None => false,
        },
        _ => true,
    }
}

/// How a step ends whose replies were all told.
fn ended<V: EmptyView>(
    replica: &Replica<V>,
    renderer: u16,
    older: u32,
    outcome: ReplyOutcome,
) -> End
    ensures { Whole renderer replica.now older outcome result }
{
    if is_there(replica, renderer, older, &outcome) {
        End::Told(outcome)
    } else {
        End::Strays { place: 0 }
    }
}

/// Asks for the rest of what a reply with that outcome cut short.
fn ask_on<V: EmptyView, L: Link>(
    alloc: Global,
    replica: &mut Replica<V>,
    renderer: u16,
    link: &mut L,
    older: u32,
    outcome: ReplyOutcome,
) -> Result<End, AllocError>
    ensures ended { IfOk result (λ end. Ended L.Link renderer link.old replica.old (Some (record { outcome = outcome; older = older })) More end replica.new link.new) }
    ensures starved { OnErr result (Starved L.Link renderer link.old replica.old (Some (record { outcome = outcome; older = older })) More link.new) }
    ensures grown { Extends replica.old replica.new }
    ensures outcome { IfOk result (λ end. HasOutcome renderer replica.new older outcome end) }
{
    'calls: loop {
        match ask_once(alloc, replica, link, &Request::More)? {
            Heard::Told { more: true, .. } => {}
            Heard::Told { more: false, .. } => {
                return Ok(ended(replica, renderer, older, outcome));
            }
            Heard::Failed => return Ok(End::Failed),
            Heard::Stray { place } => return Ok(End::Strays { place }),
        }
    }
}

/// Asks the link: the request, and then for the rest, until no more is to be told.
fn converse<V: EmptyView, L: Link>(
    alloc: Global,
    replica: &mut Replica<V>,
    renderer: u16,
    link: &mut L,
    request: &Request,
) -> Result<End, AllocError>
    ensures ended { IfOk result (λ end. Ended L.Link renderer link.old replica.old None request.now end replica.new link.new) }
    ensures starved { OnErr result (Starved L.Link renderer link.old replica.old None request.now link.new) }
    ensures grown { Extends replica.old replica.new }
    ensures outcome { IfOk result (λ end. IsReplied request.now renderer replica.new (length replica.old) end) }
{
    let older = replica.len();
    match ask_once(alloc, replica, link, request)? {
        Heard::Told {
            outcome,
            more: true,
        } => ask_on(alloc, replica, renderer, link, older, outcome),
        Heard::Told {
            outcome,
            more: false,
        } => Ok(ended(replica, renderer, older, outcome)),
        Heard::Failed => Ok(End::Failed),
        Heard::Stray { place } => Ok(End::Strays { place }),
    }
}

/// Asks the link: the request, and then for the rest, until no more is to be told. What is told is taken in.
///
/// Nothing is assumed of the link. Where it fails, or gives bytes that are no reply, or where memory runs out, the replica may
/// have taken in a part of what was told.
pub fn exchange<V: EmptyView, L: Link>(
    alloc: Global,
    replica: &mut Replica<V>,
    renderer: u16,
    link: &mut L,
    request: &Request,
) -> Result<End, AllocError>
    // These calls were made, as the link says of its calls, and ended so.
    ensures ended { IfOk result (λ end. Ended L.Link renderer link.old replica.old None request.now end replica.new link.new) }
    ensures starved { OnErr result (Starved L.Link renderer link.old replica.old None request.now link.new) }
    ensures grown { Extends replica.old replica.new }
    // An outcome that is told is one that the request may have, and what it names is there.
    ensures outcome { IfOk result (λ end. IsReplied request.now renderer replica.new (length replica.old) end) }
    // A failure comes only where the link's count of faults rose.
    ensures failed { IfOk result (λ end. end ≡ ends.Failed → Rose (L.Link.faults link.old) (L.Link.faults link.new)) }
    // No reply to a request of the renderer's own strays on a link that tells.
    ensures strayed { IsRequest request.now → is_fit renderer replica.old request.now ≡ true → Knows L.Link renderer link.old replica.old None →
        IfOk result (λ end. (place : ℕ) → end ≡ ends.Strays place → (L.Link.heard link.old ≡ None) ⊎ (L.Link.renderer link.new ≡ None)) }
    // Where all was told, the link knows what was heard, and no step is under way.
    ensures known { IsRequest request.now → Knows L.Link renderer link.old replica.old None →
        IfOk result (λ end. (outcome : OutcomeOf) → end ≡ ends.Told outcome → Knows L.Link renderer link.new replica.new None) }
{
    converse(alloc, replica, renderer, link, request)
}
