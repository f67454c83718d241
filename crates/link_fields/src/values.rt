ghost use Rattle.std.specs.Prelude.{◌≡◌, None};
ghost use Rattle.std.specs.Option.{option_copied};
ghost use Rattle.link_fields.specs.Field.{Gives};
ghost use Rattle.link_fields.specs.Basic as basic;
ghost use Rattle.link_fields.specs.Values as spec;

use crate::fault::{Flaw, ReadError, fault_here};
use crate::numbers::{read_small, read_u16, read_u64};
use crate::texts::{read_str, read_text};
use plain_data::{Data, Items, Text};
use std::alloc::{AllocError, Global};
use std::cmp::Ordering;

/// A whole number of at most 2^53 - 1 either way, as 64 bits in two's complement.
pub(crate) fn read_whole(bytes: &[u8]) -> Result<(i64, &[u8]), ReadError>
    ensures { Gives (λ x. (x.0, x.1.now)) result (spec.whole.read bytes.now) }
{
    let (word, rest) = read_u64(bytes)?;
    if word < 1 << 53 {
        return Ok((word as i64, rest));
    }
    let below = u64::MAX - word;
    if below < (1 << 53) - 1 {
        return Ok((-1 - below as i64, rest));
    }
    Err(fault_here(Flaw::Range, bytes))
}

// Whether a key may stand behind another.
fn is_after(before: Option<&str>, key: &str) -> bool
    ensures { result ≡ spec.is_after (option_copied before.entry) key.now }
{
    match before {
        None => true,
        Some(before) => before.cmp(key) == Ordering::Less,
    }
}

/// The key of a member, behind the one before.
pub(crate) fn read_key<'a>(
    before: Option<&str>,
    bytes: &'a [u8],
) -> Result<(&'a str, &'a [u8]), ReadError>
    ensures { Gives (λ x. (x.0.now, x.1.now)) result ((spec.key_after (option_copied before.entry)).read bytes.now) }
{
    let (key, rest) = read_str(bytes)?;
    if !is_after(before, key) {
        return Err(fault_here(Flaw::Range, bytes));
    }
    Ok((key, rest))
}

/// Data of at most that depth.
#[cycle(read)]
#[tactic(auto, unfolding(crate::specs::Values::value))]
pub(crate) fn read_value(
    alloc: Global,
    depth: usize,
    bytes: &[u8],
) -> Result<(Data, &[u8]), ReadError>
    ensures { Gives (λ x. (x.0, x.1.now)) result ((spec.value depth).read bytes.now) }
{
    if depth == 0 {
        return Err(fault_here(Flaw::Range, bytes));
    }
    let (tag, rest) = read_small(7, bytes)?;
    match tag {
        0 => Ok((Data::Undefined, rest)),
        1 => Ok((Data::Null, rest)),
        2 => Ok((Data::Truth(false), rest)),
        3 => Ok((Data::Truth(true), rest)),
        4 => {
            let (whole, rest) = read_whole(rest)?;
            Ok((Data::Whole(whole), rest))
        }
        5 => {
            let (text, rest) = read_text(alloc, rest)?;
            Ok((Data::Text(text), rest))
        }
        6 => {
            let (count, rest) = read_u16(rest)?;
            let (items, rest) = read_items(alloc, depth - 1, count, rest)?;
            Ok((Data::List(items), rest))
        }
        7 => {
            let (count, rest) = read_u16(rest)?;
            let (members, rest) = read_members(alloc, depth - 1, count, rest)?;
            Ok((Data::Record(members), rest))
        }
        _ => Err(fault_here(Flaw::Range, rest)),
    }
}

#[cycle(read)]
fn read_items(
    alloc: Global,
    depth: usize,
    count: u16,
    bytes: &[u8],
) -> Result<(Items<Data>, &[u8]), ReadError>
    ensures { Gives (λ x. (x.0, x.1.now)) result (spec.items_at (spec.value depth).read count bytes.now) }
{
    let mut items = Items::new(alloc);
    let mut rest = bytes;
    for _ in 0..count {
        let (item, after) = read_value(alloc, depth, rest)?;
        items.push(item)?;
        rest = after;
    }
    Ok((items, rest))
}

#[cycle(read)]
fn read_members(
    alloc: Global,
    depth: usize,
    count: u16,
    bytes: &[u8],
) -> Result<(Items<(Text, Data)>, &[u8]), ReadError>
    ensures { Gives (λ x. (x.0, x.1.now)) result (spec.members_at (spec.value depth) count None bytes.now) }
{
    let mut members = Items::new(alloc);
    let mut rest = bytes;
    let mut before: Option<&str> = None;
    for _ in 0..count {
        let (key, after) = read_key(before, rest)?;
        let (value, after) = read_value(alloc, depth, after)?;
        members.push((Text::copy_of(alloc, key)?, value))?;
        before = Some(key);
        rest = after;
    }
    Ok((members, rest))
}
