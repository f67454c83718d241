ghost use Rattle.std.specs.Prelude.{◌≡◌, true, IfOk};
ghost use Rattle.origin_core.specs.Host.{IsHost, host_kind};
ghost use Rattle.origin_core.specs.Tuple as parts;
ghost use Rattle.url.specs.Parts.{IsPortOf};
ghost use Rattle.link_fields.specs.Field.{Gives};
ghost use Rattle.link_fields.specs.Basic as basic;
ghost use Rattle.link_fields.specs.Origins as spec;

use crate::fault::{Flaw, ReadError, fault_here};
use crate::numbers::{read_bool, read_small, read_u16, read_u32};
use crate::texts::read_str;
use origin_core::{HostText, Origin, Scheme, TupleOrigin, host_kind};
use std::alloc::{AllocError, Global};

fn read_scheme(bytes: &[u8]) -> Result<(Scheme, &[u8]), ReadError>
    ensures { Gives (λ x. (x.0, x.1.now)) result (spec.scheme.read bytes.now) }
{
    let (number, rest) = read_small(1, bytes)?;
    if number == 1 {
        return Ok((Scheme::Https, rest));
    }
    Ok((Scheme::Http, rest))
}

fn is_host(alloc: Global, ip: bool, text: &str) -> Result<bool, AllocError>
    ensures value { IfOk result (λ b. b ≡ spec.is_kind ip (host_kind text.now)) }
    ensures host { IfOk result (λ b. b ≡ true → IsHost text.now ip) }
{
    match host_kind(alloc, text)? {
        None => Ok(false),
        Some(kind) => Ok(kind == ip),
    }
}

fn read_host(alloc: Global, ip: bool, bytes: &[u8]) -> Result<(HostText, &[u8]), ReadError>
    ensures value { Gives (λ x. (x.0, x.1.now)) result ((spec.host ip).read bytes.now) }
    ensures host { IfOk result (λ x. IsHost x.0 ip) }
{
    let (text, rest) = read_str(bytes)?;
    if !is_host(alloc, ip, text)? {
        return Err(fault_here(Flaw::Range, bytes));
    }
    Ok((HostText::copy_of(alloc, text)?, rest))
}

/// A text that a URL has as its host.
pub fn read_any_host(alloc: Global, bytes: &[u8]) -> Result<(HostText, &[u8]), ReadError>
    ensures { Gives (λ x. (x.0, x.1.now)) result (spec.any_host.read bytes.now) }
{
    let (text, rest) = read_str(bytes)?;
    if host_kind(alloc, text)?.is_none() {
        return Err(fault_here(Flaw::Range, bytes));
    }
    Ok((HostText::copy_of(alloc, text)?, rest))
}

fn read_port(scheme: Scheme, bytes: &[u8]) -> Result<(Option<u16>, &[u8]), ReadError>
    ensures value { Gives (λ x. (x.0, x.1.now)) result ((basic.optional (spec.port scheme)).read bytes.now) }
    ensures port { IfOk result (λ x. IsPortOf (parts.scheme_text scheme) x.0) }
{
    let (tag, rest) = read_small(1, bytes)?;
    if tag == 0 {
        return Ok((None, rest));
    }
    let (port, behind) = read_u16(rest)?;
    if !scheme.is_own_port(Some(port)) {
        return Err(fault_here(Flaw::Range, rest));
    }
    Ok((Some(port), behind))
}

fn read_located(
    alloc: Global,
    scheme: Scheme,
    ip: bool,
    bytes: &[u8],
) -> Result<(TupleOrigin, &[u8]), ReadError>
    ensures { Gives (λ x. (x.0, x.1.now)) result ((spec.located (scheme, ip)).read bytes.now) }
{
    let (host, rest) = read_host(alloc, ip, bytes)?;
    let (port, rest) = read_port(scheme, rest)?;
    match TupleOrigin::of_parts(alloc, scheme, host, ip, port)? {
        Some(tuple) => Ok((tuple, rest)),
        None => Err(fault_here(Flaw::Range, bytes)),
    }
}

fn read_tuple(alloc: Global, bytes: &[u8]) -> Result<(TupleOrigin, &[u8]), ReadError>
    ensures { Gives (λ x. (x.0, x.1.now)) result (spec.tuple.read bytes.now) }
{
    let (scheme, rest) = read_scheme(bytes)?;
    let (ip, rest) = read_bool(rest)?;
    read_located(alloc, scheme, ip, rest)
}

/// An origin. Its host is one that a URL of its scheme has, as that URL writes it; its port isn't the default one; its
/// serialization has at most 1,024 bytes.
pub fn read_origin(alloc: Global, bytes: &[u8]) -> Result<(Origin, &[u8]), ReadError>
    ensures { Gives (λ x. (x.0, x.1.now)) result (spec.origin.read bytes.now) }
{
    let (tag, rest) = read_small(1, bytes)?;
    match tag {
        0 => {
            let (tuple, rest) = read_tuple(alloc, rest)?;
            Ok((Origin::Tuple(tuple), rest))
        }
        1 => {
            let (document, rest) = read_u32(rest)?;
            Ok((Origin::Opaque(document), rest))
        }
        _ => Err(fault_here(Flaw::Range, rest)),
    }
}
