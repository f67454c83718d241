ghost use Rattle.std.specs.Prelude.{◌≡◌, ◌++◌, OnOk};
ghost use Rattle.link_fields.specs.Field.{Gives};
ghost use Rattle.frame_grammar.specs.Outcomes as outcomes;
ghost use Rattle.link_wire.specs.Replies as spec;

use crate::entry_reading::read_entries;
use crate::reply::Reply;
use agent_terms::{ReplyOutcome, Why};
use link_fields::{
    Flaw, ReadError, fault_here, put_optional_u16, put_u8, put_u32, read_bool, read_optional_u16,
    read_small, read_u8, read_u32,
};
use std::alloc::{AllocError, Global};

// The number of a security rule.
fn read_rule(bytes: &[u8]) -> Result<(u8, &[u8]), ReadError>
    ensures { Gives (λ x. (x.0, x.1.now)) result (outcomes.rule_field.read bytes.now) }
{
    let (rule, rest) = read_u8(bytes)?;
    if 1 <= rule && rule <= 11 {
        return Ok((rule, rest));
    }
    Err(fault_here(Flaw::Range, bytes))
}

fn why_of(number: u8) -> Why
    ensures { result ≡ outcomes.why_of number }
{
    match number {
        0 => Why::Version,
        1 => Why::Kind,
        2 => Why::Length,
        3 => Why::Short,
        4 => Why::Text,
        5 => Why::Range,
        6 => Why::Url,
        _ => Why::Tail,
    }
}

/// The number that spells why bytes are no frame, from 0 to 7. It takes no memory.
pub fn why_number(why: Why) -> u8
    ensures { result ≡ outcomes.why_number why }
{
    match why {
        Why::Version => 0,
        Why::Kind => 1,
        Why::Length => 2,
        Why::Short => 3,
        Why::Text => 4,
        Why::Range => 5,
        Why::Url => 6,
        Why::Tail => 7,
    }
}

fn read_why(bytes: &[u8]) -> Result<(Why, &[u8]), ReadError>
    ensures { Gives (λ x. (x.0, x.1.now)) result (outcomes.why_field.read bytes.now) }
{
    let (number, rest) = read_small(7, bytes)?;
    Ok((why_of(number), rest))
}

fn read_outcome(kind: u8, bytes: &[u8]) -> Result<(ReplyOutcome, &[u8]), ReadError>
    ensures { Gives (λ x. (x.0, x.1.now)) result ((outcomes.outcome_row kind).read bytes.now) }
{
    match kind {
        65 => Ok((ReplyOutcome::Done, bytes)),
        66 => {
            let (rule, rest) = read_rule(bytes)?;
            Ok((ReplyOutcome::Security { rule }, rest))
        }
        67 => Ok((ReplyOutcome::Null, bytes)),
        68 => {
            let (nav, rest) = read_u32(bytes)?;
            Ok((ReplyOutcome::Made { nav }, rest))
        }
        69 => {
            let (place, rest) = read_u32(bytes)?;
            Ok((ReplyOutcome::Task { place }, rest))
        }
        70 => Ok((ReplyOutcome::Nothing, bytes)),
        71 => {
            let (place, rest) = read_u32(bytes)?;
            Ok((ReplyOutcome::Unloaded { place }, rest))
        }
        72 => {
            let (doc, rest) = read_u32(bytes)?;
            let (home, rest) = read_optional_u16(rest)?;
            Ok((ReplyOutcome::NotYours { doc, home }, rest))
        }
        73 => {
            let (place, rest) = read_u32(bytes)?;
            let (why, rest) = read_why(rest)?;
            Ok((ReplyOutcome::BadFrame { place, why }, rest))
        }
        74 => {
            let (len, rest) = read_u32(bytes)?;
            Ok((ReplyOutcome::Full { len }, rest))
        }
        _ => Err(fault_here(Flaw::Range, bytes)),
    }
}

// Whether a reply of the kind tells entries.
fn tells(kind: u8) -> bool
    ensures { result ≡ spec.tells kind }
{
    kind <= 71 || kind == 74
}

// A number that is 0 where a reply of the kind tells no entries.
fn read_told(kind: u8, bytes: &[u8]) -> Result<(u32, &[u8]), ReadError>
    ensures { Gives (λ x. (x.0, x.1.now)) result ((spec.told kind).read bytes.now) }
{
    let (number, rest) = read_u32(bytes)?;
    if tells(kind) || number == 0 {
        return Ok((number, rest));
    }
    Err(fault_here(Flaw::Range, bytes))
}

// Whether more is to be told: never where a reply of the kind tells no entries.
fn read_more(kind: u8, bytes: &[u8]) -> Result<(bool, &[u8]), ReadError>
    ensures { Gives (λ x. (x.0, x.1.now)) result ((spec.told_more kind).read bytes.now) }
{
    let (more, rest) = read_bool(bytes)?;
    if tells(kind) || !more {
        return Ok((more, rest));
    }
    Err(fault_here(Flaw::Range, bytes))
}

// The count of the entries: it isn't 0 where more is to be told.
fn read_count(kind: u8, more: bool, bytes: &[u8]) -> Result<(u32, &[u8]), ReadError>
    ensures { Gives (λ x. (x.0, x.1.now)) result ((spec.told_count kind more).read bytes.now) }
{
    let (count, rest) = read_told(kind, bytes)?;
    if more && count == 0 {
        return Err(fault_here(Flaw::Range, bytes));
    }
    Ok((count, rest))
}

/// The reply of a kind that the front of a body spells, and the bytes behind it.
pub(crate) fn read_reply(alloc: Global, kind: u8, bytes: &[u8]) -> Result<(Reply, &[u8]), ReadError>
    ensures { Gives (λ x. (x.0, x.1.now)) result ((spec.reply_row kind).read bytes.now) }
{
    let (outcome, rest) = read_outcome(kind, bytes)?;
    let (from, rest) = read_told(kind, rest)?;
    let (more, rest) = read_more(kind, rest)?;
    let (count, rest) = read_count(kind, more, rest)?;
    let (news, rest) = read_entries(alloc, count, rest)?;
    Ok((
        Reply {
            outcome,
            from,
            more,
            news,
        },
        rest,
    ))
}

/// Adds the fields of an outcome.
pub fn put_outcome(out: &mut Vec<u8>, outcome: &ReplyOutcome) -> Result<(), AllocError>
    ensures { OnOk result (out.new.items ≡ out.old.items ++ outcomes.outcome_body outcome.now) }
{
    match outcome {
        ReplyOutcome::Done => Ok(()),
        ReplyOutcome::Security { rule } => put_u8(out, *rule),
        ReplyOutcome::Null => Ok(()),
        ReplyOutcome::Made { nav } => put_u32(out, *nav),
        ReplyOutcome::Task { place } => put_u32(out, *place),
        ReplyOutcome::Nothing => Ok(()),
        ReplyOutcome::Unloaded { place } => put_u32(out, *place),
        ReplyOutcome::NotYours { doc, home } => {
            put_u32(out, *doc)?;
            put_optional_u16(out, *home)
        }
        ReplyOutcome::BadFrame { place, why } => {
            put_u32(out, *place)?;
            put_u8(out, why_number(*why))
        }
        ReplyOutcome::Full { len } => put_u32(out, *len),
    }
}
