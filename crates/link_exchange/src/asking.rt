ghost use Rattle.std.specs.Prelude.{◌≡◌, ◌⊎◌, ◌≤◌, ◌+◌, ◌&&◌, ◌==◌, nat_le, length, true, Result, Ok, Err, List, ℕ, IfOk, OnErr};
ghost use Rattle.link_wire.specs.Links as spec;
ghost use Rattle.link_wire.specs.Links.{answers, is_answer, most_heard};
ghost use Rattle.link_wire.specs.declared.link.LinkError.{LinkError as LinkErrorOf};
ghost use Rattle.link_wire.specs.declared.link.LinkError.TheVariants.{Failed};
ghost use Rattle.link_exchange.specs.Calls.{AskedOnce, HasCalled};
ghost use Rattle.link_exchange.specs.Hearing.{Extends, TakesIn};

use crate::replica::Replica;
use crate::view::EmptyView;
use agent_terms::{ReplyOutcome, Request};
use link_wire::{DecodeError, Link, LinkError, Reply, decode_reply, encode_request};
use std::alloc::{AllocError, Global};

/// What came of one call of a link.
#[derive(Drop)]
pub enum Heard {
    /// A reply: its outcome, and whether more is to be told.
    Told { outcome: ReplyOutcome, more: bool },
    /// The link failed.
    Failed,
    /// The bytes are no reply to the request, first at that place.
    Stray { place: u32 },
}

/// How many entries a renderer hears at most.
const MOST_HEARD: u32 = 40_016;

/// What a document's request may be answered besides Unloaded and Full.
fn is_answer(request: &Request, outcome: &ReplyOutcome) -> bool
    ensures { result ≡ is_answer request.now outcome.now }
{
    match (request, outcome) {
        (Request::Frame { .. }, ReplyOutcome::Made { .. }) => true,
        (Request::Open { noopener, .. }, ReplyOutcome::Made { .. }) => !*noopener,
        (Request::Open { .. }, ReplyOutcome::Null) => true,
        (Request::Open { url, .. }, ReplyOutcome::Security { rule }) => url.is_some() && *rule == 7,
        (Request::Go { .. }, ReplyOutcome::Security { rule }) => *rule == 7,
        (Request::Name { .. } | Request::Disown { .. }, ReplyOutcome::Security { rule }) => {
            *rule == 8
        }
        (Request::Domain { .. }, ReplyOutcome::Security { rule }) => (9..=11).contains(rule),
        (Request::Frame { .. } | Request::Open { .. } | Request::Next, ReplyOutcome::Done) => false,
        (_, ReplyOutcome::Done) => true,
        _ => false,
    }
}

/// Whether a request may have an outcome.
fn can_answer(request: &Request, outcome: &ReplyOutcome) -> bool
    ensures { result ≡ answers request.now outcome.now }
{
    match (request, outcome) {
        (
            Request::Next,
            ReplyOutcome::Task { .. } | ReplyOutcome::Nothing | ReplyOutcome::Full { .. },
        ) => true,
        (Request::Next, _) => false,
        (Request::More, _) => is_answer(request, outcome),
        (_, ReplyOutcome::Unloaded { .. } | ReplyOutcome::Full { .. }) => true,
        _ => is_answer(request, outcome),
    }
}

/// Whether a reply is one to the request of who heard so many entries, by all but the entries that it tells.
fn fits(request: &Request, reply: &Reply, heard: u32) -> bool
    requires { heard ≤ most_heard }
    ensures { result ≡ (answers request.now reply.now.outcome && (reply.now.from == heard) && nat_le (heard + length reply.now.news) most_heard) }
{
    can_answer(request, &reply.outcome)
        && reply.from == heard
        && reply.news.len() <= (MOST_HEARD - heard) as usize
}

/// Takes in the bytes of a reply to the request, as far as they are one.
fn take_in<V: EmptyView>(
    alloc: Global,
    replica: &mut Replica<V>,
    request: &Request,
    bytes: &[u8],
) -> Result<Heard, AllocError>
    ensures taken { IfOk result (λ heard. TakesIn replica.old request.now bytes.now heard replica.new) }
    ensures grown { Extends replica.old replica.new }
{
    let reply = match decode_reply(alloc, bytes) {
        Ok(reply) => reply,
        Err(DecodeError::Memory) => return Err(AllocError),
        Err(DecodeError::Bad(bad)) => return Ok(Heard::Stray { place: bad.place }),
    };
    if !fits(request, &reply, replica.len()) {
        return Ok(Heard::Stray { place: 0 });
    }
    let Reply {
        outcome,
        more,
        news,
        ..
    } = reply;
    if !replica.hear_all(news)? {
        return Ok(Heard::Stray { place: 0 });
    }
    Ok(Heard::Told { outcome, more })
}

/// One call of the link: the request, and what is taken in of its reply.
pub fn ask_once<V: EmptyView, L: Link>(
    alloc: Global,
    replica: &mut Replica<V>,
    link: &mut L,
    request: &Request,
) -> Result<Heard, AllocError>
    ensures asked { IfOk result (λ heard. AskedOnce L.Link link.old replica.old request.now heard link.new replica.new) }
    ensures starved { OnErr result (HasCalled L.Link link.old request.now link.new) }
    ensures grown { Extends replica.old replica.new }
{
    let bytes = encode_request(alloc, request)?;
    let mut reply = Vec::new(alloc);
    match link.call(bytes.as_slice(), &mut reply) {
        Ok(()) => take_in(alloc, replica, request, reply.as_slice()),
        Err(LinkError::Failed) => Ok(Heard::Failed),
        Err(LinkError::NoMemory) => Err(AllocError),
    }
}
