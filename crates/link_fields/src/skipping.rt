ghost use Rattle.std.specs.Prelude.{◌≡◌, ◌≤◌, ◌<◌, ◌+◌, length, take, IfOk, OnOk, IfErr};
ghost use Rattle.std.specs.Option.{option_copied};
ghost use Rattle.plain_data.specs.DataLimits.{most_depth, most_size};
ghost use Rattle.link_fields.specs.Field.{Gives};
ghost use Rattle.link_fields.specs.Values as values;
ghost use Rattle.link_fields.specs.Skipping as spec;

use crate::fault::{Flaw, ReadError, fault_here};
use crate::numbers::{read_small, read_u16};
use crate::texts::read_str;
use crate::values::{read_key, read_value, read_whole};
use plain_data::Data;
use std::alloc::Global;

// How deep data nests at most, and how many bytes it takes.
pub(crate) const MAX_DEPTH: usize = 16;

const MAX_SIZE: usize = 4096;

/// A list or a record of which parts are still to come.
#[derive(Clone, Copy, Drop)]
pub(crate) struct Open<'a> {
    left: u16,
    in_record: bool,
    before: Option<&'a str>,
    depth: usize,
}

/// Skips the tag of data and what stands behind it, up to the first part inside: its count of parts,
/// and whether they are members.
#[tactic(auto, unfolding(crate::specs::Skipping::head_at))]
fn skip_head(bytes: &[u8]) -> Result<(Option<(u16, bool)>, &[u8]), ReadError>
    ensures { Gives (λ x. (x.0, x.1.now)) result (spec.head_at bytes.now) }
{
    let (tag, rest) = read_small(7, bytes)?;
    match tag {
        0 | 1 | 2 | 3 => Ok((None, rest)),
        4 => {
            let (_whole, rest) = read_whole(rest)?;
            Ok((None, rest))
        }
        5 => {
            let (_text, rest) = read_str(rest)?;
            Ok((None, rest))
        }
        6 => {
            let (count, rest) = read_u16(rest)?;
            Ok((Some((count, false)), rest))
        }
        7 => {
            let (count, rest) = read_u16(rest)?;
            Ok((Some((count, true)), rest))
        }
        _ => Err(fault_here(Flaw::Range, rest)),
    }
}

fn skip_key<'a>(
    in_record: bool,
    before: Option<&str>,
    bytes: &'a [u8],
) -> Result<(Option<&'a str>, &'a [u8]), ReadError>
    ensures { Gives (λ x. (option_copied x.0, x.1.now)) result (spec.next_key in_record (option_copied before.entry) bytes.now) }
{
    if in_record {
        let (key, rest) = read_key(before, bytes)?;
        Ok((Some(key), rest))
    } else {
        Ok((None, bytes))
    }
}

fn push_inside(
    stack: &mut Vec<Open>,
    depth: usize,
    inside: Option<(u16, bool)>,
) -> Result<(), ReadError>
    ensures stack { OnOk result (spec.stacked stack.new.items ≡ spec.with_opened depth inside (spec.stacked stack.old.items)) }
    ensures room { OnOk result (length stack.new.items ≤ length stack.old.items + 1) }
    ensures memory { IfErr result (λ e. e ≡ ReadError.Memory) }
{
    if let Some((left, in_record)) = inside {
        stack.push(Open {
            left,
            in_record,
            before: None,
            depth,
        })?;
    }
    Ok(())
}

// A list or a record goes on behind a part of it, unless that was the last one: so of lists of one item in one another
// none is kept.
fn push_rest<'a>(
    stack: &mut Vec<Open<'a>>,
    top: Open<'a>,
    before: Option<&'a str>,
) -> Result<(), ReadError>
    ensures stack { OnOk result (spec.stacked stack.new.items ≡ spec.with_rest (spec.due_of top.entry) (option_copied before.entry) (spec.stacked stack.old.items)) }
    ensures room { OnOk result (length stack.new.items ≤ length stack.old.items + 1) }
    ensures memory { IfErr result (λ e. e ≡ ReadError.Memory) }
{
    if top.left > 1 {
        stack.push(Open {
            left: top.left - 1,
            in_record: top.in_record,
            before,
            depth: top.depth,
        })?;
    }
    Ok(())
}

/// Skips one part of the innermost list or record, up to the first part inside it.
fn skip_part<'a>(
    stack: &mut Vec<Open<'a>>,
    top: Open<'a>,
    rest: &'a [u8],
) -> Result<&'a [u8], ReadError>
    requires { 0 < top.depth }
    ensures due { Gives (λ r. (spec.stacked stack.new.items, r.now)) result
        (spec.step_at (spec.due_of top.entry) (spec.stacked stack.old.items) rest.entry.now) }
    ensures room { IfOk result (λ r. length stack.new.items ≤ length stack.old.items + 2) }
    ensures shorter { IfOk result (λ r. length r.now < length rest.entry.now) }
{
    let (before, after) = skip_key(top.in_record, top.before, rest)?;
    push_rest(stack, top, before)?;
    let (inside, after) = skip_head(after)?;
    push_inside(stack, top.depth - 1, inside)?;
    Ok(after)
}

/// The bytes behind data of any depth.
pub(crate) fn skip_value(alloc: Global, bytes: &[u8]) -> Result<&[u8], ReadError>
    ensures { Gives (λ r. r.now) result (spec.rest_of ((values.value (most_depth + length bytes.now)).read bytes.now)) }
{
    let mut stack: Vec<Open> = Vec::new(alloc);
    stack.push(Open {
        left: 1,
        in_record: false,
        before: None,
        depth: MAX_DEPTH + bytes.len(),
    })?;
    let mut rest = bytes;
    while let Some(top) = stack.pop() {
        if top.left > 0 {
            rest = skip_part(&mut stack, top, rest)?;
        }
    }
    Ok(rest)
}

// As many bytes as data has at most, or all where there are fewer.
fn front_of(bytes: &[u8]) -> &[u8]
    ensures { result.now ≡ take most_size bytes.now }
{
    if bytes.len() <= MAX_SIZE {
        return bytes;
    }
    let (front, _) = bytes.split_at(MAX_SIZE);
    front
}

/// Data of at most 16 levels and 4,096 bytes. However deep the bytes nest, no call nests deeper than
/// that; and no value is made of more bytes.
pub fn read_data(alloc: Global, bytes: &[u8]) -> Result<(Data, &[u8]), ReadError>
    ensures { Gives (λ x. (x.0, x.1.now)) result (spec.data_field.read bytes.now) }
{
    let front = front_of(bytes);
    match read_value(alloc, MAX_DEPTH, front) {
        Ok((value, rest)) => {
            let (_, behind) = bytes.split_at(front.len() - rest.len());
            Ok((value, behind))
        }
        Err(ReadError::Memory) => Err(ReadError::Memory),
        Err(ReadError::Fault(_)) => {
            let _behind = skip_value(alloc, bytes)?;
            Err(fault_here(Flaw::Range, bytes))
        }
    }
}
