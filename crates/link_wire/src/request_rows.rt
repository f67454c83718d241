ghost use Rattle.std.specs.Prelude.{◌≡◌, ◌++◌, OnOk};
ghost use Rattle.link_fields.specs.Field.{Gives};
ghost use Rattle.link_wire.specs.Requests as spec;

use crate::parts::{put_target, read_target};
use agent_terms::Request;
use link_fields::{
    Flaw, LastOrigin, ReadError, fault_here, put_bool, put_data, put_flags, put_optional_url,
    put_text, put_u32, put_url, read_bool, read_data, read_flag_bits, read_optional_url, read_text,
    read_u32, read_url,
};
use origin_core::Flags;
use std::alloc::{AllocError, Global};

fn read_sync(bytes: &[u8]) -> Result<(Request, &[u8]), ReadError>
    ensures { Gives (λ x. (x.0, x.1.now)) result ((spec.request_of spec.sync_kind).read bytes.now) }
{
    let (asker, rest) = read_u32(bytes)?;
    Ok((Request::Sync { asker }, rest))
}

fn read_frame(alloc: Global, bytes: &[u8]) -> Result<(Request, &[u8]), ReadError>
    ensures { Gives (λ x. (x.0, x.1.now)) result ((spec.request_of spec.frame_kind).read bytes.now) }
{
    let (asker, rest) = read_u32(bytes)?;
    let (name, rest) = read_text(alloc, rest)?;
    let (bits, rest) = read_flag_bits(rest)?;
    let (url, rest) = read_optional_url(alloc, rest)?;
    Ok((
        Request::Frame {
            asker,
            name,
            flags: Flags::from_bits(bits),
            url,
        },
        rest,
    ))
}

fn read_drop(bytes: &[u8]) -> Result<(Request, &[u8]), ReadError>
    ensures { Gives (λ x. (x.0, x.1.now)) result ((spec.request_of spec.drop_kind).read bytes.now) }
{
    let (asker, rest) = read_u32(bytes)?;
    let (nav, rest) = read_u32(rest)?;
    Ok((Request::Drop { asker, nav }, rest))
}

fn read_open(alloc: Global, bytes: &[u8]) -> Result<(Request, &[u8]), ReadError>
    ensures { Gives (λ x. (x.0, x.1.now)) result ((spec.request_of spec.open_kind).read bytes.now) }
{
    let (asker, rest) = read_u32(bytes)?;
    let (url, rest) = read_optional_url(alloc, rest)?;
    let (target, rest) = read_text(alloc, rest)?;
    let (noopener, rest) = read_bool(rest)?;
    let (user, rest) = read_bool(rest)?;
    Ok((
        Request::Open {
            asker,
            url,
            target,
            noopener,
            user,
        },
        rest,
    ))
}

fn read_link(alloc: Global, bytes: &[u8]) -> Result<(Request, &[u8]), ReadError>
    ensures { Gives (λ x. (x.0, x.1.now)) result ((spec.request_of spec.link_kind).read bytes.now) }
{
    let (asker, rest) = read_u32(bytes)?;
    let (url, rest) = read_url(alloc, rest)?;
    let (target, rest) = read_text(alloc, rest)?;
    let (noopener, rest) = read_bool(rest)?;
    let (user, rest) = read_bool(rest)?;
    Ok((
        Request::Link {
            asker,
            url,
            target,
            noopener,
            user,
        },
        rest,
    ))
}

fn read_go(alloc: Global, bytes: &[u8]) -> Result<(Request, &[u8]), ReadError>
    ensures { Gives (λ x. (x.0, x.1.now)) result ((spec.request_of spec.go_kind).read bytes.now) }
{
    let (asker, rest) = read_u32(bytes)?;
    let (doc, rest) = read_u32(rest)?;
    let (url, rest) = read_url(alloc, rest)?;
    let (user, rest) = read_bool(rest)?;
    Ok((
        Request::Go {
            asker,
            doc,
            url,
            user,
        },
        rest,
    ))
}

fn read_name(alloc: Global, bytes: &[u8]) -> Result<(Request, &[u8]), ReadError>
    ensures { Gives (λ x. (x.0, x.1.now)) result ((spec.request_of spec.name_kind).read bytes.now) }
{
    let (asker, rest) = read_u32(bytes)?;
    let (doc, rest) = read_u32(rest)?;
    let (name, rest) = read_text(alloc, rest)?;
    Ok((Request::Name { asker, doc, name }, rest))
}

fn read_disown(bytes: &[u8]) -> Result<(Request, &[u8]), ReadError>
    ensures { Gives (λ x. (x.0, x.1.now)) result ((spec.request_of spec.disown_kind).read bytes.now) }
{
    let (asker, rest) = read_u32(bytes)?;
    let (doc, rest) = read_u32(rest)?;
    Ok((Request::Disown { asker, doc }, rest))
}

fn read_close(bytes: &[u8]) -> Result<(Request, &[u8]), ReadError>
    ensures { Gives (λ x. (x.0, x.1.now)) result ((spec.request_of spec.close_kind).read bytes.now) }
{
    let (asker, rest) = read_u32(bytes)?;
    let (doc, rest) = read_u32(rest)?;
    let (user, rest) = read_bool(rest)?;
    Ok((Request::Close { asker, doc, user }, rest))
}

fn read_post(alloc: Global, bytes: &[u8]) -> Result<(Request, &[u8]), ReadError>
    ensures { Gives (λ x. (x.0, x.1.now)) result ((spec.request_of spec.post_kind).read bytes.now) }
{
    let (asker, rest) = read_u32(bytes)?;
    let (doc, rest) = read_u32(rest)?;
    let mut last = LastOrigin::new(alloc);
    let (target, rest) = read_target(alloc, &mut last, rest)?;
    let (body, rest) = read_data(alloc, rest)?;
    Ok((
        Request::Post {
            asker,
            doc,
            target,
            body,
        },
        rest,
    ))
}

fn read_domain(alloc: Global, bytes: &[u8]) -> Result<(Request, &[u8]), ReadError>
    ensures { Gives (λ x. (x.0, x.1.now)) result ((spec.request_of spec.domain_kind).read bytes.now) }
{
    let (asker, rest) = read_u32(bytes)?;
    let (value, rest) = read_text(alloc, rest)?;
    Ok((Request::Domain { asker, value }, rest))
}

/// The request of a kind that the front of a body spells, and the bytes behind it.
pub(crate) fn read_request(
    alloc: Global,
    kind: u8,
    bytes: &[u8],
) -> Result<(Request, &[u8]), ReadError>
    ensures { Gives (λ x. (x.0, x.1.now)) result ((spec.request_row kind).read bytes.now) }
{
    match kind {
        1 => Ok((Request::Next, bytes)),
        2 => read_sync(bytes),
        3 => read_frame(alloc, bytes),
        4 => read_drop(bytes),
        5 => read_open(alloc, bytes),
        6 => read_link(alloc, bytes),
        7 => read_go(alloc, bytes),
        8 => read_name(alloc, bytes),
        9 => read_disown(bytes),
        10 => read_close(bytes),
        11 => read_post(alloc, bytes),
        12 => read_domain(alloc, bytes),
        13 => Ok((Request::More, bytes)),
        _ => Err(fault_here(Flaw::Range, bytes)),
    }
}

/// Adds the fields of a request.
pub(crate) fn put_request(out: &mut Vec<u8>, request: &Request) -> Result<(), AllocError>
    ensures { OnOk result (out.new.items ≡ out.old.items ++ spec.request_body request.now) }
{
    match request {
        Request::Next => Ok(()),
        Request::Sync { asker } => { put_u32(out, *asker) }
        Request::Frame {
            asker,
            name,
            flags,
            url,
        } => {
            put_u32(out, *asker)?;
            put_text(out, name)?;
            put_flags(out, *flags)?;
            put_optional_url(out, url)
        }
        Request::Drop { asker, nav } => {
            put_u32(out, *asker)?;
            put_u32(out, *nav)
        }
        Request::Open {
            asker,
            url,
            target,
            noopener,
            user,
        } => {
            put_u32(out, *asker)?;
            put_optional_url(out, url)?;
            put_text(out, target)?;
            put_bool(out, *noopener)?;
            put_bool(out, *user)
        }
        Request::Link {
            asker,
            url,
            target,
            noopener,
            user,
        } => {
            put_u32(out, *asker)?;
            put_url(out, url)?;
            put_text(out, target)?;
            put_bool(out, *noopener)?;
            put_bool(out, *user)
        }
        Request::Go {
            asker,
            doc,
            url,
            user,
        } => {
            put_u32(out, *asker)?;
            put_u32(out, *doc)?;
            put_url(out, url)?;
            put_bool(out, *user)
        }
        Request::Name { asker, doc, name } => {
            put_u32(out, *asker)?;
            put_u32(out, *doc)?;
            put_text(out, name)
        }
        Request::Disown { asker, doc } => {
            put_u32(out, *asker)?;
            put_u32(out, *doc)
        }
        Request::Close { asker, doc, user } => {
            put_u32(out, *asker)?;
            put_u32(out, *doc)?;
            put_bool(out, *user)
        }
        Request::Post {
            asker,
            doc,
            target,
            body,
        } => {
            put_u32(out, *asker)?;
            put_u32(out, *doc)?;
            put_target(out, target)?;
            put_data(out, body)
        }
        Request::Domain { asker, value } => {
            put_u32(out, *asker)?;
            put_text(out, value)
        }
        Request::More => Ok(()),
    }
}
