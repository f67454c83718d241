ghost use Rattle.std.specs.Prelude.{◌≡◌, ◌++◌, OnOk};
ghost use Rattle.std.specs.List.{flat_map};
ghost use Rattle.std.specs.Option.{option_copied};
ghost use Rattle.frame_grammar.specs.Entries as spec;
ghost use Rattle.link_wire.specs.Shown.{what_with, entry_with};

use crate::parts::{put_cause, put_load, put_optional_load, put_target, put_url_with};
use link_fields::{
    put_data, put_flags, put_host, put_optional_u16, put_optional_u32, put_origin, put_text,
    put_u8, put_u16, put_u32,
};
use origin_core::PageUrl;
use std::alloc::AllocError;
use tree_log::{Entry, What};

fn what_tag(what: &What) -> u8
    ensures { result ≡ spec.what_tag what.now }
{
    match what {
        What::Open { .. } => 1,
        What::Frame { .. } => 2,
        What::Drop { .. } => 3,
        What::Name { .. } => 4,
        What::Begin { .. } => 5,
        What::Commit { .. } => 6,
        What::Fragment { .. } => 7,
        What::Opener { .. } => 8,
        What::Post { .. } => 9,
        What::Fire { .. } => 10,
        What::Lapse { .. } => 11,
        What::Closing { .. } => 12,
        What::Gone { .. } => 13,
        What::Lost { .. } => 14,
        What::Sync => 15,
        What::Hidden => 16,
        What::Domain { .. } => 17,
    }
}

// Adds the fields of what happened, with the other URL, where one is given.
fn put_what(out: &mut Vec<u8>, what: &What, other: Option<&PageUrl>) -> Result<(), AllocError>
    ensures { OnOk result (out.new.items ≡ out.old.items ++ spec.what_body (what_with (option_copied other.entry) what.now)) }
{
    match what {
        What::Open {
            nav,
            doc,
            group,
            home,
            origin,
            name,
            opener,
            flags,
            navigator,
            load,
        } => {
            put_u32(out, *nav)?;
            put_u32(out, *doc)?;
            put_u32(out, *group)?;
            put_u16(out, *home)?;
            put_origin(out, origin)?;
            put_text(out, name)?;
            put_optional_u32(out, *opener)?;
            put_flags(out, *flags)?;
            put_optional_u32(out, *navigator)?;
            put_optional_load(out, load, other)
        }
        What::Frame {
            nav,
            doc,
            home,
            origin,
            name,
            flags,
            load,
        } => {
            put_u32(out, *nav)?;
            put_u32(out, *doc)?;
            put_u16(out, *home)?;
            put_origin(out, origin)?;
            put_text(out, name)?;
            put_flags(out, *flags)?;
            put_optional_load(out, load, other)
        }
        What::Drop { nav } => { put_u32(out, *nav) }
        What::Name { nav, name } => {
            put_u32(out, *nav)?;
            put_text(out, name)
        }
        What::Begin { nav, load } => {
            put_u32(out, *nav)?;
            put_load(out, load, other)
        }
        What::Commit { nav, doc, begin } => {
            put_u32(out, *nav)?;
            put_u32(out, *doc)?;
            put_u32(out, *begin)
        }
        What::Fragment { nav, doc, url } => {
            put_u32(out, *nav)?;
            put_u32(out, *doc)?;
            put_url_with(out, url, other)
        }
        What::Opener { nav, to } => {
            put_u32(out, *nav)?;
            put_optional_u32(out, *to)
        }
        What::Post {
            to,
            from,
            origin,
            target,
            body,
        } => {
            put_u32(out, *to)?;
            put_u32(out, *from)?;
            put_origin(out, origin)?;
            put_target(out, target)?;
            put_data(out, body)
        }
        What::Fire { doc, post } => {
            put_u32(out, *doc)?;
            put_u32(out, *post)
        }
        What::Lapse { doc, post, cause } => {
            put_u32(out, *doc)?;
            put_u32(out, *post)?;
            put_cause(out, *cause)
        }
        What::Closing { nav } => { put_u32(out, *nav) }
        What::Gone { nav } => { put_u32(out, *nav) }
        What::Lost { renderer } => { put_u16(out, *renderer) }
        What::Sync => Ok(()),
        What::Hidden => Ok(()),
        What::Domain { doc, domain } => {
            put_u32(out, *doc)?;
            put_host(out, domain)
        }
    }
}

/// Adds an entry, with the other URL in its load or in its navigation to a fragment, where one is given. It takes no memory but
/// what `out` grows by.
pub fn put_entry(out: &mut Vec<u8>, entry: &Entry, url: Option<&PageUrl>) -> Result<(), AllocError>
    ensures { OnOk result (out.new.items ≡ out.old.items ++ spec.entry.spell (entry_with (option_copied url.entry) entry.now)) }
{
    put_u8(out, what_tag(&entry.what))?;
    put_optional_u16(out, entry.by)?;
    put_optional_u32(out, entry.actor)?;
    put_what(out, &entry.what, url)
}

// Adds an entry as it is.
fn put_as_it_is(out: &mut Vec<u8>, entry: &Entry) -> Result<(), AllocError>
    ensures { OnOk result (out.new.items ≡ out.old.items ++ spec.entry.spell entry.now) }
{
    put_entry(out, entry, None)
}

/// Adds entries, one after the other.
pub(crate) fn put_entries(out: &mut Vec<u8>, entries: &[Entry]) -> Result<(), AllocError>
    ensures { OnOk result (out.new.items ≡ out.old.items ++ flat_map spec.entry.spell entries.now) }
{
    for entry in entries {
        put_as_it_is(out, entry)?;
    }
    Ok(())
}
