ghost use Rattle.std.specs.Prelude.{◌≡◌, ◌<◌, ◌^◌, [], length, false, true, is_none, IfOk, IfSome};
ghost use Rattle.agent_laws.specs.Actors.{has_no_asker};
ghost use Rattle.agent_terms.specs.declared.request.Request.TheVariants as ask;
ghost use Rattle.coordinator_rules.specs.Decision as rules_spec;
ghost use Rattle.coordinator_rules.specs.Decision.{Rules, decide, home_if_active, is_in_fragment};
ghost use Rattle.desk.specs.Refusals.{unless};
ghost use Rattle.desk.specs.Serving as spec;
ghost use Rattle.log_rows.specs.Kept.{AreOf};
ghost use Rattle.request_decisions.specs.Asked.{rules};
ghost use Rattle.request_decisions.specs.Made.{decision_of};
ghost use Rattle.single_agent.specs.Turns.{is_full};
ghost use Rattle.tree_log.specs.Admits.{AreAdmitted};
ghost use Rattle.tree_log.specs.Tree.{tree_of, is};
ghost use Rattle.tree_log.specs.Urls.{url_of};
ghost use Rattle.document_ends.specs.Ended as ends;

use agent_terms::{ReplyOutcome, Request};
use log_rows::LogRows;
use origin_core::HostText;
use request_decisions::{Decided, Made, asker_of, decide};
use std::alloc::{AllocError, Global};
use tree_log::{Entry, Log};
use tree_view::View;

/// How many entries a log has at most, but for losses.
const MOST_ENTRIES: u32 = 40_000;

/// How many entries one exchange may make.
const MOST_MADE: u32 = 4;

// Whether a log has no room for the entries of one exchange.
fn is_full_log(log: &Log) -> bool
    requires { length log.now.entries < 2 ^ 30 }
    ensures { result ≡ is_full log.now.entries }
{
    log.len() + MOST_MADE > MOST_ENTRIES
}

// The home of a document that has been active.
fn home_if_been_active<V: View>(view: &V, _log: &Log, doc: u32) -> Option<u16>
    requires tree { V.tree view.now ≡ tree_of _log.now.entries }
    requires admitted { AreAdmitted _log.now.entries }
    ensures value { result ≡ home_if_active (V.tree view.now) doc }
    ensures there { IfSome result (λ home. doc < (V.tree view.now).docs) }
{
    if doc < view.docs() && view.been_active(doc) {
        Some(view.home_of(doc))
    } else {
        None
    }
}

// That the log has no room.
fn full(log: &Log) -> Decided
    ensures { decision_of result ≡ spec.full log.now.entries }
{
    refused(ReplyOutcome::Full { len: log.len() })
}

// No entries, and an answer.
fn refused(outcome: ReplyOutcome) -> Decided
    ensures { decision_of result ≡ record { entries = []; outcome = outcome } }
{
    Decided {
        entries: Made::Nothing,
        outcome,
    }
}

// Whether a home is this renderer.
fn is_at(home: Option<u16>, renderer: u16) -> bool
    ensures { result ≡ is home renderer }
{
    match home {
        Some(home) => home == renderer,
        None => false,
    }
}

// Why a document's request is refused, if it is: it isn't a document of the renderer, it isn't active any more, or the log
// has no room.
fn refusal<V: View>(
    log: &Log,
    rows: &LogRows<V>,
    renderer: u16,
    request: &Request,
) -> Option<ReplyOutcome>
    requires tree { V.tree rows.now.view ≡ tree_of log.now.entries }
    requires ended { ends.IsFed rows.now.ends log.now.entries }
    requires admitted { AreAdmitted log.now.entries }
    requires few { length log.now.entries < 2 ^ 30 }
    requires asks { has_no_asker request.now ≡ false }
    ensures decided { (rules : Rules) → spec.decided rules log.now.entries renderer request.now ≡ unless result (decide rules (tree_of log.now.entries) (is_in_fragment (tree_of log.now.entries) (url_of log.now.entries)) renderer request.now) }
    ensures there { is_none result ≡ true → rules_spec.asker_of request.now < (tree_of log.now.entries).docs }
{
    let doc = asker_of(request);
    let home = home_if_been_active(&rows.view, log, doc);
    if !is_at(home, renderer) {
        return Some(ReplyOutcome::NotYours { doc, home });
    }
    if !rows.view.is_active(doc) {
        let place = rows.ends.place_of(log, &rows.view, doc);
        return Some(ReplyOutcome::Unloaded { place });
    }
    if is_full_log(log) {
        return Some(ReplyOutcome::Full { len: log.len() });
    }
    None
}

// What is decided on a request of a document.
fn asked<V: View>(
    alloc: Global,
    log: &Log,
    rows: &LogRows<V>,
    renderers: u16,
    suffixes: &[HostText],
    renderer: u16,
    request: Request,
) -> Result<Decided, AllocError>
    requires rows { AreOf V.tree V.urls suffixes.now rows.now log.now.entries }
    requires admitted { AreAdmitted log.now.entries }
    requires few { length log.now.entries < 2 ^ 30 }
    requires some { 0 < renderers }
    requires asks { has_no_asker request ≡ false }
    ensures { IfOk result (λ d. decision_of d ≡ spec.decided (rules renderers suffixes.now) log.now.entries renderer request) }
{
    match refusal(log, rows, renderer, &request) {
        Some(outcome) => Ok(refused(outcome)),
        None => decide(
            alloc,
            &rows.view,
            &rows.homes,
            renderers,
            suffixes,
            renderer,
            request,
        ),
    }
}

// The renderer's next task, with the entry by which it takes it.
fn next<V: View>(
    log: &Log,
    rows: &mut LogRows<V>,
    _renderers: u16,
    _suffixes: &[HostText],
    renderer: u16,
) -> Decided
    requires rows { AreOf V.tree V.urls _suffixes.now rows.old log.now.entries }
    requires admitted { AreAdmitted log.now.entries }
    requires few { length log.now.entries < 2 ^ 30 }
    ensures decided { decision_of result ≡ spec.decided (rules _renderers _suffixes.now) log.now.entries renderer ask.Next }
    ensures rows { AreOf V.tree V.urls _suffixes.now rows.new log.now.entries }
{
    if is_full_log(log) {
        return full(log);
    }
    match rows.waiting.next(log, &rows.view, renderer) {
        None => refused(ReplyOutcome::Nothing),
        Some(what) => Decided {
            entries: Made::One(Entry {
                by: Some(renderer),
                actor: None,
                what,
            }),
            outcome: ReplyOutcome::Task { place: log.len() },
        },
    }
}

/// What is decided on a request of a renderer.
pub(crate) fn decided<V: View>(
    alloc: Global,
    log: &Log,
    rows: &mut LogRows<V>,
    renderers: u16,
    suffixes: &[HostText],
    renderer: u16,
    request: Request,
) -> Result<Decided, AllocError>
    requires rows { AreOf V.tree V.urls suffixes.now rows.old log.now.entries }
    requires admitted { AreAdmitted log.now.entries }
    requires few { length log.now.entries < 2 ^ 30 }
    requires some { 0 < renderers }
    ensures decided { IfOk result (λ d. decision_of d ≡ spec.decided (rules renderers suffixes.now) log.now.entries renderer request) }
    ensures rows { AreOf V.tree V.urls suffixes.now rows.new log.now.entries }
{
    match request {
        Request::Next => Ok(next(log, rows, renderers, suffixes, renderer)),
        Request::More => Ok(refused(ReplyOutcome::Done)),
        request => asked(alloc, log, rows, renderers, suffixes, renderer, request),
    }
}
