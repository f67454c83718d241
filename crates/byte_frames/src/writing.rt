ghost use Rattle.std.specs.Prelude.{◌≡◌};
ghost use Rattle.byte_answers.specs.Answers.{Gives, Tells};
ghost use Rattle.byte_frames.specs.Writing as spec;

use crate::numbers::RequestNumbers;
use agent_terms::Request;
use byte_answers::{Answer, page_of, text_of, write_out};
use link_fields::{ReadError, read_data};
use link_wire::encode_request;
use origin_core::{Flags, Origin, PageUrl};
use plain_data::{Data, Text};
use std::alloc::Global;
use tree_log::Target;
use web_message::{TargetError, target_of};

/// How many bytes a text has at most.
const MOST_TEXT: usize = 1024;

// A name or a domain.
fn name_of(alloc: Global, bytes: &[u8]) -> Result<Text, Answer>
    ensures { Gives result (spec.name_told bytes.now) }
{
    if bytes.len() > MOST_TEXT {
        return Err(Answer::OutOfRange);
    }
    match text_of(bytes) {
        Ok(text) => match Text::copy_of(alloc, text) {
            Ok(text) => Ok(text),
            Err(_) => Err(Answer::NoMemory),
        },
        Err(why) => Err(why),
    }
}

// A URL, where there are bytes.
fn url_or_none(alloc: Global, bytes: &[u8]) -> Result<Option<PageUrl>, Answer>
    ensures { Gives result (spec.optional_url bytes.now) }
{
    match bytes {
        [] => Ok(None),
        _ => match page_of(alloc, bytes) {
            Ok(page) => Ok(Some(page)),
            Err(why) => Err(why),
        },
    }
}

// Sandboxing flags.
fn flags_of(flags: u16) -> Result<Flags, Answer>
    ensures { Gives result (spec.flags_told flags) }
{
    if flags > 255 {
        return Err(Answer::OutOfRange);
    }
    Ok(Flags::from_bits(flags))
}

// The target of a message; `/` is none here.
fn target_read(alloc: Global, bytes: &[u8]) -> Result<Target, Answer>
    ensures { Gives result (spec.target_told bytes.now) }
{
    match text_of(bytes) {
        Ok("/") => Err(Answer::NotAUrl),
        Ok(text) => match target_of(alloc, text, &Origin::Opaque(0)) {
            Ok(target) => Ok(target),
            Err(TargetError::Syntax) => Err(Answer::NotAUrl),
            Err(TargetError::NoMemory) => Err(Answer::NoMemory),
        },
        Err(why) => Err(why),
    }
}

// Data, as frames spell it.
fn data_of(alloc: Global, bytes: &[u8]) -> Result<Data, Answer>
    ensures { Gives result (spec.data_told bytes.now) }
{
    match read_data(alloc, bytes) {
        Ok((body, rest)) => {
            if rest.is_empty() {
                Ok(body)
            } else {
                Err(Answer::OutOfRange)
            }
        }
        Err(ReadError::Memory) => Err(Answer::NoMemory),
        Err(ReadError::Fault(_)) => Err(Answer::OutOfRange),
    }
}

// A request that its numbers spell.
fn bare(n: &RequestNumbers) -> Option<Request>
    ensures { result ≡ spec.bare n.now }
{
    let (asker, number) = (n.asker, n.number);
    if n.kind == 1 {
        return Some(Request::Next);
    }
    if n.kind == 2 {
        return Some(Request::Sync { asker });
    }
    if n.kind == 4 {
        return Some(Request::Drop { asker, nav: number });
    }
    if n.kind == 9 {
        return Some(Request::Disown { asker, doc: number });
    }
    if n.kind == 10 {
        return Some(Request::Close {
            asker,
            doc: number,
            user: n.user,
        });
    }
    if n.kind == 13 {
        return Some(Request::More);
    }
    None
}

fn framed(alloc: Global, n: &RequestNumbers, url: &[u8], name: &[u8]) -> Result<Request, Answer>
    ensures { Gives result (spec.framed n.now url.now name.now) }
{
    let name = match name_of(alloc, name) {
        Ok(name) => name,
        Err(why) => return Err(why),
    };
    let flags = match flags_of(n.flags) {
        Ok(flags) => flags,
        Err(why) => return Err(why),
    };
    match url_or_none(alloc, url) {
        Ok(url) => Ok(Request::Frame {
            asker: n.asker,
            name,
            flags,
            url,
        }),
        Err(why) => Err(why),
    }
}

fn opened(alloc: Global, n: &RequestNumbers, url: &[u8], target: &[u8]) -> Result<Request, Answer>
    ensures { Gives result (spec.opened n.now url.now target.now) }
{
    let target = match name_of(alloc, target) {
        Ok(target) => target,
        Err(why) => return Err(why),
    };
    match url_or_none(alloc, url) {
        Ok(url) => Ok(Request::Open {
            asker: n.asker,
            url,
            target,
            noopener: n.noopener,
            user: n.user,
        }),
        Err(why) => Err(why),
    }
}

fn linked(alloc: Global, n: &RequestNumbers, url: &[u8], target: &[u8]) -> Result<Request, Answer>
    ensures { Gives result (spec.linked n.now url.now target.now) }
{
    let target = match name_of(alloc, target) {
        Ok(target) => target,
        Err(why) => return Err(why),
    };
    match page_of(alloc, url) {
        Ok(url) => Ok(Request::Link {
            asker: n.asker,
            url,
            target,
            noopener: n.noopener,
            user: n.user,
        }),
        Err(why) => Err(why),
    }
}

fn gone(alloc: Global, n: &RequestNumbers, url: &[u8]) -> Result<Request, Answer>
    ensures { Gives result (spec.gone n.now url.now) }
{
    match page_of(alloc, url) {
        Ok(url) => Ok(Request::Go {
            asker: n.asker,
            doc: n.number,
            url,
            user: n.user,
        }),
        Err(why) => Err(why),
    }
}

fn named(alloc: Global, n: &RequestNumbers, name: &[u8]) -> Result<Request, Answer>
    ensures { Gives result (spec.named n.now name.now) }
{
    match name_of(alloc, name) {
        Ok(name) => Ok(Request::Name {
            asker: n.asker,
            doc: n.number,
            name,
        }),
        Err(why) => Err(why),
    }
}

fn posted(alloc: Global, n: &RequestNumbers, target: &[u8], body: &[u8]) -> Result<Request, Answer>
    ensures { Gives result (spec.posted n.now target.now body.now) }
{
    let target = match target_read(alloc, target) {
        Ok(target) => target,
        Err(why) => return Err(why),
    };
    match data_of(alloc, body) {
        Ok(body) => Ok(Request::Post {
            asker: n.asker,
            doc: n.number,
            target,
            body,
        }),
        Err(why) => Err(why),
    }
}

fn with_domain(alloc: Global, n: &RequestNumbers, value: &[u8]) -> Result<Request, Answer>
    ensures { Gives result (spec.with_domain n.now value.now) }
{
    match name_of(alloc, value) {
        Ok(value) => Ok(Request::Domain {
            asker: n.asker,
            value,
        }),
        Err(why) => Err(why),
    }
}

fn request_of(
    alloc: Global,
    n: &RequestNumbers,
    url: &[u8],
    text: &[u8],
    body: &[u8],
) -> Result<Request, Answer>
    ensures { Gives result (spec.request_told n.now url.now text.now body.now) }
{
    if let Some(request) = bare(n) {
        return Ok(request);
    }
    if n.kind == 3 {
        return framed(alloc, n, url, text);
    }
    if n.kind == 5 {
        return opened(alloc, n, url, text);
    }
    if n.kind == 6 {
        return linked(alloc, n, url, text);
    }
    if n.kind == 7 {
        return gone(alloc, n, url);
    }
    if n.kind == 8 {
        return named(alloc, n, text);
    }
    if n.kind == 11 {
        return posted(alloc, n, text, body);
    }
    if n.kind == 12 {
        return with_domain(alloc, n, text);
    }
    Err(Answer::OutOfRange)
}

fn frame_of(
    alloc: Global,
    n: &RequestNumbers,
    url: &[u8],
    text: &[u8],
    body: &[u8],
) -> Result<Vec<u8>, Answer>
    ensures { spec.GivesAs (λ v. v.items) result (spec.frame_told n.now url.now text.now body.now) }
{
    match request_of(alloc, n, url, text, body) {
        Ok(request) => match encode_request(alloc, &request) {
            Ok(frame) => Ok(frame),
            Err(_) => Err(Answer::NoMemory),
        },
        Err(why) => Err(why),
    }
}

/// Writes the frame of a request: of its numbers; of its URL, where no bytes are none; of its name, its domain or its message's
/// target; and of the message's data, as frames spell it. What its kind hasn't isn't looked at.
pub fn write_request(
    alloc: Global,
    numbers: &RequestNumbers,
    url: &[u8],
    text: &[u8],
    body: &[u8],
    out: &mut [u8],
    len: &mut usize,
) -> Answer
    ensures { Tells (spec.frame_told numbers.now url.now text.now body.now) out.old out.new len.new result }
{
    match frame_of(alloc, numbers, url, text, body) {
        Ok(frame) => write_out(out, len, frame.as_slice()),
        Err(why) => {
            *len = 0;
            why
        }
    }
}
