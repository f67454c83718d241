ghost use Rattle.std.specs.Prelude.{◌≡◌};
ghost use Rattle.link_fields.specs.Field.{Gives};
ghost use Rattle.link_fields.specs.Values.{items_at};
ghost use Rattle.frame_grammar.specs.Entries as spec;

use crate::parts::{read_cause, read_load, read_optional_load, read_target};
use link_fields::{
    Flaw, LastOrigin, ReadError, fault_here, read_any_host, read_data, read_flag_bits,
    read_optional_u16, read_optional_u32, read_text, read_u8, read_u16, read_u32, read_url,
};
use origin_core::Flags;
use std::alloc::Global;
use tree_log::{Entry, What};

fn read_open<'a>(
    alloc: Global,
    last: &mut LastOrigin,
    bytes: &'a [u8],
) -> Result<(What, &'a [u8]), ReadError>
    ensures { Gives (λ x. (x.0, x.1.now)) result ((spec.what_of spec.open_kind).read bytes.now) }
{
    let (nav, rest) = read_u32(bytes)?;
    let (doc, rest) = read_u32(rest)?;
    let (group, rest) = read_u32(rest)?;
    let (home, rest) = read_u16(rest)?;
    let (origin, rest) = last.read(alloc, rest)?;
    let (name, rest) = read_text(alloc, rest)?;
    let (opener, rest) = read_optional_u32(rest)?;
    let (bits, rest) = read_flag_bits(rest)?;
    let (navigator, rest) = read_optional_u32(rest)?;
    let (load, rest) = read_optional_load(alloc, last, rest)?;
    Ok((
        What::Open {
            nav,
            doc,
            group,
            home,
            origin,
            name,
            opener,
            flags: Flags::from_bits(bits),
            navigator,
            load,
        },
        rest,
    ))
}

fn read_frame<'a>(
    alloc: Global,
    last: &mut LastOrigin,
    bytes: &'a [u8],
) -> Result<(What, &'a [u8]), ReadError>
    ensures { Gives (λ x. (x.0, x.1.now)) result ((spec.what_of spec.frame_kind).read bytes.now) }
{
    let (nav, rest) = read_u32(bytes)?;
    let (doc, rest) = read_u32(rest)?;
    let (home, rest) = read_u16(rest)?;
    let (origin, rest) = last.read(alloc, rest)?;
    let (name, rest) = read_text(alloc, rest)?;
    let (bits, rest) = read_flag_bits(rest)?;
    let (load, rest) = read_optional_load(alloc, last, rest)?;
    Ok((
        What::Frame {
            nav,
            doc,
            home,
            origin,
            name,
            flags: Flags::from_bits(bits),
            load,
        },
        rest,
    ))
}

fn read_drop(bytes: &[u8]) -> Result<(What, &[u8]), ReadError>
    ensures { Gives (λ x. (x.0, x.1.now)) result ((spec.what_of spec.drop_kind).read bytes.now) }
{
    let (nav, rest) = read_u32(bytes)?;
    Ok((What::Drop { nav }, rest))
}

fn read_name(alloc: Global, bytes: &[u8]) -> Result<(What, &[u8]), ReadError>
    ensures { Gives (λ x. (x.0, x.1.now)) result ((spec.what_of spec.name_kind).read bytes.now) }
{
    let (nav, rest) = read_u32(bytes)?;
    let (name, rest) = read_text(alloc, rest)?;
    Ok((What::Name { nav, name }, rest))
}

fn read_begin<'a>(
    alloc: Global,
    last: &mut LastOrigin,
    bytes: &'a [u8],
) -> Result<(What, &'a [u8]), ReadError>
    ensures { Gives (λ x. (x.0, x.1.now)) result ((spec.what_of spec.begin_kind).read bytes.now) }
{
    let (nav, rest) = read_u32(bytes)?;
    let (load, rest) = read_load(alloc, last, rest)?;
    Ok((What::Begin { nav, load }, rest))
}

fn read_commit(bytes: &[u8]) -> Result<(What, &[u8]), ReadError>
    ensures { Gives (λ x. (x.0, x.1.now)) result ((spec.what_of spec.commit_kind).read bytes.now) }
{
    let (nav, rest) = read_u32(bytes)?;
    let (doc, rest) = read_u32(rest)?;
    let (begin, rest) = read_u32(rest)?;
    Ok((What::Commit { nav, doc, begin }, rest))
}

fn read_fragment(alloc: Global, bytes: &[u8]) -> Result<(What, &[u8]), ReadError>
    ensures { Gives (λ x. (x.0, x.1.now)) result ((spec.what_of spec.fragment_kind).read bytes.now) }
{
    let (nav, rest) = read_u32(bytes)?;
    let (doc, rest) = read_u32(rest)?;
    let (url, rest) = read_url(alloc, rest)?;
    Ok((What::Fragment { nav, doc, url }, rest))
}

fn read_opener(bytes: &[u8]) -> Result<(What, &[u8]), ReadError>
    ensures { Gives (λ x. (x.0, x.1.now)) result ((spec.what_of spec.opener_kind).read bytes.now) }
{
    let (nav, rest) = read_u32(bytes)?;
    let (to, rest) = read_optional_u32(rest)?;
    Ok((What::Opener { nav, to }, rest))
}

fn read_post<'a>(
    alloc: Global,
    last: &mut LastOrigin,
    bytes: &'a [u8],
) -> Result<(What, &'a [u8]), ReadError>
    ensures { Gives (λ x. (x.0, x.1.now)) result ((spec.what_of spec.post_kind).read bytes.now) }
{
    let (to, rest) = read_u32(bytes)?;
    let (from, rest) = read_u32(rest)?;
    let (origin, rest) = last.read(alloc, rest)?;
    let (target, rest) = read_target(alloc, last, rest)?;
    let (body, rest) = read_data(alloc, rest)?;
    Ok((
        What::Post {
            to,
            from,
            origin,
            target,
            body,
        },
        rest,
    ))
}

fn read_fire(bytes: &[u8]) -> Result<(What, &[u8]), ReadError>
    ensures { Gives (λ x. (x.0, x.1.now)) result ((spec.what_of spec.fire_kind).read bytes.now) }
{
    let (doc, rest) = read_u32(bytes)?;
    let (post, rest) = read_u32(rest)?;
    Ok((What::Fire { doc, post }, rest))
}

fn read_lapse(bytes: &[u8]) -> Result<(What, &[u8]), ReadError>
    ensures { Gives (λ x. (x.0, x.1.now)) result ((spec.what_of spec.lapse_kind).read bytes.now) }
{
    let (doc, rest) = read_u32(bytes)?;
    let (post, rest) = read_u32(rest)?;
    let (cause, rest) = read_cause(rest)?;
    Ok((What::Lapse { doc, post, cause }, rest))
}

fn read_closing(bytes: &[u8]) -> Result<(What, &[u8]), ReadError>
    ensures { Gives (λ x. (x.0, x.1.now)) result ((spec.what_of spec.closing_kind).read bytes.now) }
{
    let (nav, rest) = read_u32(bytes)?;
    Ok((What::Closing { nav }, rest))
}

fn read_gone(bytes: &[u8]) -> Result<(What, &[u8]), ReadError>
    ensures { Gives (λ x. (x.0, x.1.now)) result ((spec.what_of spec.gone_kind).read bytes.now) }
{
    let (nav, rest) = read_u32(bytes)?;
    Ok((What::Gone { nav }, rest))
}

fn read_lost(bytes: &[u8]) -> Result<(What, &[u8]), ReadError>
    ensures { Gives (λ x. (x.0, x.1.now)) result ((spec.what_of spec.lost_kind).read bytes.now) }
{
    let (renderer, rest) = read_u16(bytes)?;
    Ok((What::Lost { renderer }, rest))
}

fn read_domain(alloc: Global, bytes: &[u8]) -> Result<(What, &[u8]), ReadError>
    ensures { Gives (λ x. (x.0, x.1.now)) result ((spec.what_of spec.domain_kind).read bytes.now) }
{
    let (doc, rest) = read_u32(bytes)?;
    let (domain, rest) = read_any_host(alloc, rest)?;
    Ok((What::Domain { doc, domain }, rest))
}

/// What happened, by the tag that stands before.
fn read_what<'a>(
    alloc: Global,
    last: &mut LastOrigin,
    tag: u8,
    bytes: &'a [u8],
) -> Result<(What, &'a [u8]), ReadError>
    ensures { Gives (λ x. (x.0, x.1.now)) result ((spec.what_row tag).read bytes.now) }
{
    match tag {
        1 => read_open(alloc, last, bytes),
        2 => read_frame(alloc, last, bytes),
        3 => read_drop(bytes),
        4 => read_name(alloc, bytes),
        5 => read_begin(alloc, last, bytes),
        6 => read_commit(bytes),
        7 => read_fragment(alloc, bytes),
        8 => read_opener(bytes),
        9 => read_post(alloc, last, bytes),
        10 => read_fire(bytes),
        11 => read_lapse(bytes),
        12 => read_closing(bytes),
        13 => read_gone(bytes),
        14 => read_lost(bytes),
        15 => Ok((What::Sync, bytes)),
        16 => Ok((What::Hidden, bytes)),
        17 => read_domain(alloc, bytes),
        _ => Err(fault_here(Flaw::Range, bytes)),
    }
}

fn is_what_tag(tag: u8) -> bool
    ensures { result ≡ spec.is_what_tag tag }
{
    1 <= tag && tag <= 17
}

#[tactic(auto, unfolding(frame_grammar::specs::Entries::entry))]
fn read_entry<'a>(
    alloc: Global,
    last: &mut LastOrigin,
    bytes: &'a [u8],
) -> Result<(Entry, &'a [u8]), ReadError>
    ensures { Gives (λ x. (x.0, x.1.now)) result (spec.entry.read bytes.now) }
{
    let (tag, rest) = read_u8(bytes)?;
    if !is_what_tag(tag) {
        return Err(fault_here(Flaw::Range, bytes));
    }
    let (by, rest) = read_optional_u16(rest)?;
    let (actor, rest) = read_optional_u32(rest)?;
    let (what, rest) = read_what(alloc, last, tag, rest)?;
    Ok((Entry { by, actor, what }, rest))
}

/// That many entries.
pub(crate) fn read_entries(
    alloc: Global,
    count: u32,
    bytes: &[u8],
) -> Result<(Vec<Entry>, &[u8]), ReadError>
    ensures { Gives (λ x. (x.0.items, x.1.now)) result (items_at spec.entry.read count bytes.now) }
{
    // Room for as many as so many bytes mostly spell.
    let room = (count as usize).min(bytes.len() / 16);
    let mut entries = Vec::with_capacity(alloc, room)?;
    let mut last = LastOrigin::new(alloc);
    let mut rest = bytes;
    for _ in 0..count {
        let (entry, after) = read_entry(alloc, &mut last, rest)?;
        entries.push(entry)?;
        rest = after;
    }
    Ok((entries, rest))
}
