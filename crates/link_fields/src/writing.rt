ghost use Rattle.std.specs.Prelude.{◌≡◌, ◌++◌, OnOk};
ghost use Rattle.std.specs.List.{flat_map};
ghost use Rattle.link_fields.specs.Field.{◌⊗◌};
ghost use Rattle.link_fields.specs.Basic as basic;
ghost use Rattle.link_fields.specs.Values as values;
ghost use Rattle.link_fields.specs.Skipping as skipping;
ghost use Rattle.link_fields.specs.Origins as origins;

use crate::skipping::MAX_DEPTH;
use origin_core::{Flags, HostText, Origin, PageUrl, Scheme, TupleOrigin};
use plain_data::{Data, Text};
use std::alloc::AllocError;

/// Adds a byte.
#[tactic(auto, unfolding(crate::specs::Basic::number_bytes))]
pub fn put_u8(out: &mut Vec<u8>, number: u8) -> Result<(), AllocError>
    ensures { OnOk result (out.new.items ≡ out.old.items ++ basic.u8.spell number) }
{
    out.push(number)?;
    Ok(())
}

/// Adds a number of two bytes, the high byte first, as all numbers are.
#[tactic(auto, unfolding(crate::specs::Basic::number_bytes))]
pub fn put_u16(out: &mut Vec<u8>, number: u16) -> Result<(), AllocError>
    ensures { OnOk result (out.new.items ≡ out.old.items ++ basic.u16.spell number) }
{
    out.extend_from_slice(&number.to_be_bytes())
}

/// Adds a number of four bytes.
#[tactic(auto, unfolding(crate::specs::Basic::number_bytes))]
pub fn put_u32(out: &mut Vec<u8>, number: u32) -> Result<(), AllocError>
    ensures { OnOk result (out.new.items ≡ out.old.items ++ basic.u32.spell number) }
{
    out.extend_from_slice(&number.to_be_bytes())
}

#[tactic(auto, unfolding(crate::specs::Basic::number_bytes))]
fn put_u64(out: &mut Vec<u8>, number: u64) -> Result<(), AllocError>
    ensures { OnOk result (out.new.items ≡ out.old.items ++ basic.u64.spell number) }
{
    out.extend_from_slice(&number.to_be_bytes())
}

/// Adds a truth value: 0 or 1.
pub fn put_bool(out: &mut Vec<u8>, truth: bool) -> Result<(), AllocError>
    ensures { OnOk result (out.new.items ≡ out.old.items ++ basic.truth.spell truth) }
{
    put_u8(out, if truth { 1 } else { 0 })
}

// A count in two bytes; of one that does not fit, its low bytes.
#[tactic(auto, unfolding(crate::specs::Basic::number_bytes))]
fn put_count(out: &mut Vec<u8>, count: usize) -> Result<(), AllocError>
    ensures { OnOk result (out.new.items ≡ out.old.items ++ basic.u16.spell count) }
{
    out.push((count / 256 % 256) as u8)?;
    out.push((count % 256) as u8)?;
    Ok(())
}

fn put_str(out: &mut Vec<u8>, text: &str) -> Result<(), AllocError>
    ensures { OnOk result (out.new.items ≡ out.old.items ++ basic.text.spell text.now) }
{
    let bytes = text.as_bytes();
    put_count(out, bytes.len())?;
    out.extend_from_slice(bytes)
}

/// Adds a text: its length in two bytes, and its bytes.
pub fn put_text(out: &mut Vec<u8>, text: &Text) -> Result<(), AllocError>
    ensures { OnOk result (out.new.items ≡ out.old.items ++ basic.text.spell text.now) }
{
    put_str(out, text.as_str())
}

/// Adds the text of a page's URL.
pub fn put_url(out: &mut Vec<u8>, url: &PageUrl) -> Result<(), AllocError>
    ensures { OnOk result (out.new.items ≡ out.old.items ++ basic.url.spell url.now) }
{
    put_str(out, url.as_str())
}

/// Adds sandbox flags, in two bytes.
pub fn put_flags(out: &mut Vec<u8>, flags: Flags) -> Result<(), AllocError>
    ensures { OnOk result (out.new.items ≡ out.old.items ++ basic.flags.spell flags) }
{
    put_u16(out, flags.bits())
}

/// Adds 0, or 1 and a page's URL.
pub fn put_optional_url(out: &mut Vec<u8>, url: &Option<PageUrl>) -> Result<(), AllocError>
    ensures { OnOk result (out.new.items ≡ out.old.items ++ (basic.optional basic.url).spell url.now) }
{
    match url {
        None => put_u8(out, 0),
        Some(url) => {
            put_u8(out, 1)?;
            put_url(out, url)
        }
    }
}

/// Adds 0, or 1 and a number of two bytes.
pub fn put_optional_u16(out: &mut Vec<u8>, number: Option<u16>) -> Result<(), AllocError>
    ensures { OnOk result (out.new.items ≡ out.old.items ++ (basic.optional basic.u16).spell number) }
{
    match number {
        None => put_u8(out, 0),
        Some(number) => {
            put_u8(out, 1)?;
            put_u16(out, number)
        }
    }
}

/// Adds 0, or 1 and a number of four bytes.
pub fn put_optional_u32(out: &mut Vec<u8>, number: Option<u32>) -> Result<(), AllocError>
    ensures { OnOk result (out.new.items ≡ out.old.items ++ (basic.optional basic.u32).spell number) }
{
    match number {
        None => put_u8(out, 0),
        Some(number) => {
            put_u8(out, 1)?;
            put_u32(out, number)
        }
    }
}

/// Adds the text of a host.
pub fn put_host(out: &mut Vec<u8>, host: &HostText) -> Result<(), AllocError>
    ensures { OnOk result (out.new.items ≡ out.old.items ++ origins.any_host.spell host.now) }
{
    put_str(out, host.as_str())
}

fn put_tuple(out: &mut Vec<u8>, tuple: &TupleOrigin) -> Result<(), AllocError>
    ensures { OnOk result (out.new.items ≡ out.old.items ++ origins.tuple.spell tuple.now) }
{
    put_u8(
        out,
        match tuple.scheme {
            Scheme::Http => 0,
            Scheme::Https => 1,
        },
    )?;
    put_bool(out, tuple.ip)?;
    put_host(out, &tuple.host)?;
    put_optional_u16(out, tuple.port)
}

/// Adds an origin.
pub fn put_origin(out: &mut Vec<u8>, origin: &Origin) -> Result<(), AllocError>
    ensures { OnOk result (out.new.items ≡ out.old.items ++ origins.origin.spell origin.now) }
{
    match origin {
        Origin::Tuple(tuple) => {
            put_u8(out, 0)?;
            put_tuple(out, tuple)
        }
        Origin::Opaque(document) => {
            put_u8(out, 1)?;
            put_u32(out, *document)
        }
    }
}

fn put_whole(out: &mut Vec<u8>, whole: i64) -> Result<(), AllocError>
    ensures { OnOk result (out.new.items ≡ out.old.items ++ values.whole.spell whole) }
{
    if whole >= 0 {
        put_u64(out, whole as u64)
    } else {
        put_u64(out, u64::MAX - (-1 - whole) as u64)
    }
}

// Data cut off at a depth.
#[cycle(put)]
#[tactic(auto, unfolding(crate::specs::Values::value))]
fn put_value(out: &mut Vec<u8>, depth: usize, value: &Data) -> Result<(), AllocError>
    ensures { OnOk result (out.new.items ≡ out.old.items ++ (values.value depth).spell value.now) }
{
    if depth == 0 {
        return Ok(());
    }
    match value {
        Data::Undefined => put_u8(out, 0),
        Data::Null => put_u8(out, 1),
        Data::Truth(truth) => put_u8(out, if *truth { 3 } else { 2 }),
        Data::Whole(whole) => {
            put_u8(out, 4)?;
            put_whole(out, *whole)
        }
        Data::Text(text) => {
            put_u8(out, 5)?;
            put_text(out, text)
        }
        Data::List(items) => {
            put_u8(out, 6)?;
            put_count(out, items.len())?;
            put_items(out, depth - 1, items.as_slice())
        }
        Data::Record(members) => {
            put_u8(out, 7)?;
            put_count(out, members.len())?;
            put_members(out, depth - 1, members.as_slice())
        }
    }
}

#[cycle(put)]
fn put_items(out: &mut Vec<u8>, depth: usize, items: &[Data]) -> Result<(), AllocError>
    ensures { OnOk result (out.new.items ≡ out.old.items ++ flat_map (values.value depth).spell items.now) }
{
    for item in items {
        put_value(out, depth, item)?;
    }
    Ok(())
}

#[cycle(put)]
fn put_members(out: &mut Vec<u8>, depth: usize, members: &[(Text, Data)]) -> Result<(), AllocError>
    ensures { OnOk result (out.new.items ≡ out.old.items ++ flat_map (basic.text ⊗ values.value depth).spell members.now) }
{
    for member in members {
        put_text(out, &member.0)?;
        put_value(out, depth, &member.1)?;
    }
    Ok(())
}

/// Adds data. Of data that nests too deep it leaves out what is deeper.
pub fn put_data(out: &mut Vec<u8>, value: &Data) -> Result<(), AllocError>
    ensures { OnOk result (out.new.items ≡ out.old.items ++ skipping.data_field.spell value.now) }
{
    put_value(out, MAX_DEPTH, value)
}
