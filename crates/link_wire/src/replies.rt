ghost use Rattle.std.specs.Prelude.{◌≡◌, ◌++◌, IfOk, OnOk, Ok};
ghost use Rattle.link_wire.specs.Bad.{Decodes};
ghost use Rattle.frame_grammar.specs.Cut.{ReplyParts};
ghost use Rattle.frame_grammar.specs.Cut.{reply_body};
ghost use Rattle.frame_grammar.specs.Outcomes as outcomes;
ghost use Rattle.link_wire.specs.Replies as spec;
ghost use Rattle.link_wire.specs.Replies.{IsReply, reply_frame};

use crate::bad::{DecodeError, bad_at, field_error};
use crate::entry_writing::put_entries;
use crate::frame::{Side, make_frame, put_len, read_frame};
use crate::reply::Reply;
use crate::reply_rows::{put_outcome, read_reply};
use agent_terms::{ReplyOutcome, Why};
use link_fields::{put_bool, put_u32};
use std::alloc::{AllocError, Global};

/// The kind of the frame of a reply with that outcome.
pub fn outcome_kind(outcome: &ReplyOutcome) -> u8
    ensures { result ≡ outcomes.outcome_kind outcome.now }
{
    match outcome {
        ReplyOutcome::Done => 65,
        ReplyOutcome::Security { .. } => 66,
        ReplyOutcome::Null => 67,
        ReplyOutcome::Made { .. } => 68,
        ReplyOutcome::Task { .. } => 69,
        ReplyOutcome::Nothing => 70,
        ReplyOutcome::Unloaded { .. } => 71,
        ReplyOutcome::NotYours { .. } => 72,
        ReplyOutcome::BadFrame { .. } => 73,
        ReplyOutcome::Full { .. } => 74,
    }
}

#[tactic(auto, unfolding(frame_grammar::specs::Cut::reply_body))]
fn put_reply(out: &mut Vec<u8>, reply: &Reply) -> Result<(), AllocError>
    ensures { OnOk result (out.new.items ≡ out.old.items ++ reply_body reply.now) }
{
    put_outcome(out, &reply.outcome)?;
    put_u32(out, reply.from)?;
    put_bool(out, reply.more)?;
    put_len(out, reply.news.len())?;
    put_entries(out, reply.news.as_slice())
}

/// The frame of a reply. It is the one spelling of a reply whose texts, data and length are within their limits.
pub fn encode_reply(alloc: Global, reply: &Reply) -> Result<Vec<u8>, AllocError>
    ensures { IfOk result (λ v. v.items ≡ reply_frame reply.now) }
{
    let mut body = Vec::new(alloc);
    put_reply(&mut body, reply)?;
    make_frame(alloc, outcome_kind(&reply.outcome), body.as_slice())
}

#[tactic(auto, unfolding(crate::specs::Frames::frame_at))]
fn decode(alloc: Global, bytes: &[u8]) -> Result<Reply, DecodeError>
    ensures { Decodes result (spec.reply_of bytes.now) }
{
    let (kind, body) = read_frame(Side::Reply, bytes)?;
    match read_reply(alloc, kind, body) {
        Ok((reply, [])) => Ok(reply),
        Ok((_, rest)) => Err(bad_at((bytes.len().saturating_sub(rest.len())) as u32, Why::Tail)),
        Err(error) => Err(field_error(bytes, error)),
    }
}

/// The reply that the bytes spell.
///
/// `Bad` comes exactly where they are no reply's frame: with the first fault in the order of the frame and its
/// fields, and its place.
pub fn decode_reply(alloc: Global, bytes: &[u8]) -> Result<Reply, DecodeError>
    // What is read is spelled so.
    ensures found { IfOk result (λ r. IsReply r × (bytes.now ≡ reply_frame r)) }
    // What is spelled so is read, unless memory runs out.
    ensures only { (r : ReplyParts) → IsReply r → bytes.now ≡ reply_frame r → Decodes result (Ok r) }
    // Which fault it is, and where.
    ensures exact { Decodes result (spec.reply_of bytes.now) }
{
    decode(alloc, bytes)
}
