ghost use Rattle.std.specs.Prelude.{◌≡◌, ◌++◌, [], List, ℕ, IfOk, Ok};
ghost use Rattle.link_wire.specs.Bad.{Decodes};
ghost use Rattle.link_wire.specs.Requests as spec;
ghost use Rattle.link_wire.specs.Requests.{IsRequest, request_frame};
ghost use Rattle.agent_terms.specs.declared.request.Request.{Request};

use crate::bad::{DecodeError, bad_at, field_error};
use crate::frame::{Side, make_frame, read_frame};
use crate::request_rows::{put_request, read_request};
use agent_terms::{Request, Why};
use std::alloc::{AllocError, Global};

fn kind_of(request: &Request) -> u8
    ensures { result ≡ spec.kind_of request.now }
{
    match request {
        Request::Next => 1,
        Request::Sync { .. } => 2,
        Request::Frame { .. } => 3,
        Request::Drop { .. } => 4,
        Request::Open { .. } => 5,
        Request::Link { .. } => 6,
        Request::Go { .. } => 7,
        Request::Name { .. } => 8,
        Request::Disown { .. } => 9,
        Request::Close { .. } => 10,
        Request::Post { .. } => 11,
        Request::Domain { .. } => 12,
        Request::More => 13,
    }
}

/// The frame of a request. It is the one spelling of a request whose texts and data are within their limits.
pub fn encode_request(alloc: Global, request: &Request) -> Result<Vec<u8>, AllocError>
    ensures { IfOk result (λ v. v.items ≡ request_frame request.now) }
{
    let mut body = Vec::new(alloc);
    put_request(&mut body, request)?;
    make_frame(alloc, kind_of(request), body.as_slice())
}

#[tactic(auto, unfolding(crate::specs::Frames::frame_at))]
fn decode(alloc: Global, bytes: &[u8]) -> Result<Request, DecodeError>
    ensures { Decodes result (spec.request_read bytes.now) }
{
    let (kind, body) = read_frame(Side::Request, bytes)?;
    match read_request(alloc, kind, body) {
        Ok((request, [])) => Ok(request),
        Ok((_, rest)) => Err(bad_at((bytes.len().saturating_sub(rest.len())) as u32, Why::Tail)),
        Err(error) => Err(field_error(bytes, error)),
    }
}

/// The request that the bytes spell.
///
/// `Bad` comes exactly where they are no request's frame: with the first fault in the order of the frame and its
/// fields, and its place.
pub fn decode_request(alloc: Global, bytes: &[u8]) -> Result<Request, DecodeError>
    // What is read is spelled so.
    ensures found { IfOk result (λ r. IsRequest r × (bytes.now ≡ request_frame r)) }
    // What is spelled so is read, unless memory runs out.
    ensures only { (r : Request) → IsRequest r → bytes.now ≡ request_frame r → Decodes result (Ok r) }
    // Which fault it is, and where.
    ensures exact { Decodes result (spec.request_read bytes.now) }
{
    decode(alloc, bytes)
}
