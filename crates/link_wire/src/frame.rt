ghost use Rattle.std.specs.Prelude.{◌≡◌, ◌≤◌, ◌<◌, ◌+◌, ◌++◌, length, drop, IfOk, OnOk};
ghost use Rattle.link_fields.specs.Basic.{u32};
ghost use Rattle.frame_grammar.specs.Cut.{most_body};
ghost use Rattle.link_wire.specs.Bad.{Reads};
ghost use Rattle.link_wire.specs.Frames as spec;

use crate::bad::{Bad, DecodeError, bad_at};
use agent_terms::Why;
use std::alloc::{AllocError, Global};

// The first byte of each frame.
const VERSION: u8 = 2;

// How many bytes a body has at most.
const MOST_BODY: u32 = 65536;

/// What a frame is from: a renderer sends requests, and the coordinator replies.
#[derive(Clone, Copy, Debug, PartialEq, Eq)]
pub(crate) enum Side {
    Request,
    Reply,
}

impl Side {
    // Whether frames of this side have the kind.
    fn is_kind(self, kind: u8) -> bool
        ensures { result ≡ spec.is_kind self kind }
    {
        match self {
            Side::Request => 1 <= kind && kind <= 13,
            Side::Reply => 65 <= kind && kind <= 74,
        }
    }
}

/// The kind of a frame and the length of its body. The body may not be there.
#[tactic(auto, unfolding(crate::specs::Frames::head_at))]
pub(crate) fn read_head(side: Side, bytes: &[u8]) -> Result<(u8, u32), Bad>
    ensures head { result ≡ spec.head_at (spec.is_kind side) most_body bytes.now }
    ensures small { IfOk result (λ x. x.1 ≤ most_body) }
{
    if !bytes.is_empty() && bytes[0] != VERSION {
        return Err(Bad {
            place: 0,
            why: Why::Version,
        });
    }
    if bytes.len() > 1 && !side.is_kind(bytes[1]) {
        return Err(Bad {
            place: 1,
            why: Why::Kind,
        });
    }
    if bytes.len() < 6 {
        return Err(Bad {
            place: bytes.len() as u32,
            why: Why::Short,
        });
    }
    let len = u32::from_be_bytes([bytes[2], bytes[3], bytes[4], bytes[5]]);
    if len > MOST_BODY {
        return Err(Bad {
            place: 2,
            why: Why::Length,
        });
    }
    Ok((bytes[1], len))
}

fn read_body(len: u32, bytes: &[u8]) -> Result<&[u8], DecodeError>
    requires { len ≤ most_body }
    ensures body { Reads (λ x. x.now) result (spec.body_at len bytes.now) }
    ensures whole { IfOk result (λ x. length bytes.now ≡ 6 + len) }
{
    let end = 6 + len;
    if bytes.len() < end as usize {
        return Err(bad_at(bytes.len() as u32, Why::Short));
    }
    if bytes.len() > end as usize {
        return Err(bad_at(end, Why::Tail));
    }
    Ok(&bytes[6..])
}

/// The kind of the frame that all the bytes are, and its body.
pub(crate) fn read_frame(side: Side, bytes: &[u8]) -> Result<(u8, &[u8]), DecodeError>
    ensures frame { Reads (λ x. (x.0, x.1.now)) result (spec.split_at (spec.is_kind side) most_body bytes.now) }
    ensures short { IfOk result (λ x. length bytes.now ≤ 6 + most_body) }
{
    let (kind, len) = read_head(side, bytes)?;
    let body = read_body(len, bytes)?;
    Ok((kind, body))
}

// The length in four bytes; of one that does not fit, its low bytes.
#[tactic(auto, unfolding(link_fields::specs::Basic::number_bytes))]
pub(crate) fn put_len(out: &mut Vec<u8>, len: usize) -> Result<(), AllocError>
    ensures { OnOk result (out.new.items ≡ out.old.items ++ u32.spell len) }
{
    out.push((len / 16777216 % 256) as u8)?;
    out.push((len / 65536 % 256) as u8)?;
    out.push((len / 256 % 256) as u8)?;
    out.push((len % 256) as u8)?;
    Ok(())
}

/// The frame of a kind with that body.
pub(crate) fn make_frame(alloc: Global, kind: u8, body: &[u8]) -> Result<Vec<u8>, AllocError>
    ensures { IfOk result (λ v. v.items ≡ spec.frame kind body.now) }
{
    let mut out = Vec::with_capacity(alloc, 6)?;
    out.push(VERSION)?;
    out.push(kind)?;
    put_len(&mut out, body.len())?;
    out.extend_from_slice(body)?;
    Ok(out)
}
