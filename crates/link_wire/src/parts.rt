ghost use Rattle.std.specs.Prelude.{◌≡◌, ◌++◌, OnOk};
ghost use Rattle.std.specs.Option.{option_copied};
ghost use Rattle.link_fields.specs.Field.{Gives};
ghost use Rattle.link_fields.specs.Basic.{optional, url};
ghost use Rattle.frame_grammar.specs.Parts as spec;
ghost use Rattle.link_wire.specs.Shown.{url_with, load_with, optional_load_with};

use link_fields::{
    Flaw, LastOrigin, ReadError, fault_here, put_origin, put_u8, put_u16, put_u32, put_url,
    read_small, read_u16, read_u32, read_url,
};
use origin_core::PageUrl;
use std::alloc::{AllocError, Global};
use tree_log::{Cause, Load, Target};

/// The target of a message: 0 for any origin, 1 for none, 2 and an origin.
pub(crate) fn read_target<'a>(
    alloc: Global,
    last: &mut LastOrigin,
    bytes: &'a [u8],
) -> Result<(Target, &'a [u8]), ReadError>
    ensures { Gives (λ x. (x.0, x.1.now)) result (spec.target.read bytes.now) }
{
    let (tag, rest) = read_small(2, bytes)?;
    match tag {
        0 => Ok((Target::Any, rest)),
        1 => Ok((Target::Never, rest)),
        2 => {
            let (origin, rest) = last.read(alloc, rest)?;
            Ok((Target::Origin(origin), rest))
        }
        _ => Err(fault_here(Flaw::Range, rest)),
    }
}

/// Adds the target of a message.
pub(crate) fn put_target(out: &mut Vec<u8>, target: &Target) -> Result<(), AllocError>
    ensures { OnOk result (out.new.items ≡ out.old.items ++ spec.target.spell target.now) }
{
    match target {
        Target::Any => put_u8(out, 0),
        Target::Never => put_u8(out, 1),
        Target::Origin(origin) => {
            put_u8(out, 2)?;
            put_origin(out, origin)
        }
    }
}

/// A load: its document, home, origin and URL.
pub(crate) fn read_load<'a>(
    alloc: Global,
    last: &mut LastOrigin,
    bytes: &'a [u8],
) -> Result<(Load, &'a [u8]), ReadError>
    ensures { Gives (λ x. (x.0, x.1.now)) result (spec.load.read bytes.now) }
{
    let (doc, rest) = read_u32(bytes)?;
    let (home, rest) = read_u16(rest)?;
    let (origin, rest) = last.read(alloc, rest)?;
    let (url, rest) = read_url(alloc, rest)?;
    Ok((
        Load {
            doc,
            home,
            origin,
            url,
        },
        rest,
    ))
}

/// Adds the other URL, where one is given; else this one.
pub(crate) fn put_url_with(
    out: &mut Vec<u8>,
    page: &PageUrl,
    other: Option<&PageUrl>,
) -> Result<(), AllocError>
    ensures { OnOk result (out.new.items ≡ out.old.items ++ url.spell (url_with (option_copied other.entry) page.now)) }
{
    match other {
        Some(other) => put_url(out, other),
        None => put_url(out, page),
    }
}

/// Adds a load, with the other URL, where one is given.
pub(crate) fn put_load(
    out: &mut Vec<u8>,
    load: &Load,
    other: Option<&PageUrl>,
) -> Result<(), AllocError>
    ensures { OnOk result (out.new.items ≡ out.old.items ++ spec.load.spell (load_with (option_copied other.entry) load.now)) }
{
    put_u32(out, load.doc)?;
    put_u16(out, load.home)?;
    put_origin(out, &load.origin)?;
    put_url_with(out, &load.url, other)
}

/// 0, or 1 and a load.
pub(crate) fn read_optional_load<'a>(
    alloc: Global,
    last: &mut LastOrigin,
    bytes: &'a [u8],
) -> Result<(Option<Load>, &'a [u8]), ReadError>
    ensures { Gives (λ x. (x.0, x.1.now)) result ((optional spec.load).read bytes.now) }
{
    let (tag, rest) = read_small(1, bytes)?;
    if tag == 0 {
        return Ok((None, rest));
    }
    let (load, rest) = read_load(alloc, last, rest)?;
    Ok((Some(load), rest))
}

/// Adds 0, or 1 and a load, with the other URL, where one is given.
pub(crate) fn put_optional_load(
    out: &mut Vec<u8>,
    load: &Option<Load>,
    other: Option<&PageUrl>,
) -> Result<(), AllocError>
    ensures { OnOk result (out.new.items ≡ out.old.items ++ (optional spec.load).spell (optional_load_with (option_copied other.entry) load.now)) }
{
    match load {
        None => put_u8(out, 0),
        Some(load) => {
            put_u8(out, 1)?;
            put_load(out, load, other)
        }
    }
}

/// The cause of a lapse.
pub(crate) fn read_cause(bytes: &[u8]) -> Result<(Cause, &[u8]), ReadError>
    ensures { Gives (λ x. (x.0, x.1.now)) result (spec.cause.read bytes.now) }
{
    let (number, rest) = read_small(1, bytes)?;
    if number == 1 {
        return Ok((Cause::Origin, rest));
    }
    Ok((Cause::Inactive, rest))
}

/// Adds the cause of a lapse.
pub(crate) fn put_cause(out: &mut Vec<u8>, cause: Cause) -> Result<(), AllocError>
    ensures { OnOk result (out.new.items ≡ out.old.items ++ spec.cause.spell cause) }
{
    match cause {
        Cause::Inactive => put_u8(out, 0),
        Cause::Origin => put_u8(out, 1),
    }
}
