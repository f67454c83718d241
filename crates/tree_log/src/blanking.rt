ghost use Rattle.std.specs.Prelude.{◌≡◌, IfOk, OnOk, if◌then◌else◌, codes};
ghost use Rattle.tree_log.specs.Blanking as spec;
ghost use Rattle.tree_log.specs.Blanking.{homed_at};
ghost use Rattle.tree_log.specs.Tree.{tree_of};

use crate::entry::{Entry, Load, What};
use crate::homes::homes_of;
use crate::log::Log;
use origin_core::{Origin, PageUrl, blank_url};
use std::alloc::{AllocError, Global};

/// The documents whose home is the renderer, in ascending order: what it may be shown.
pub fn kept_for_renderer(alloc: Global, log: &Log, renderer: u16) -> Result<Vec<u32>, AllocError>
    ensures { IfOk result (λ kept. kept.items ≡ homed_at (tree_of log.now.entries) renderer) }
{
    let homes = homes_of(alloc, log.entries())?;
    let mut kept = Vec::new(alloc);
    for (doc, home) in homes.iter().enumerate() {
        if *home == Some(renderer) {
            kept.push(doc as u32)?;
        }
    }
    Ok(kept)
}

/// The entry as it is shown to one who may see the documents in `kept` alone.
///
/// Where a load is for another document, its URL becomes the root of its origin (`blank_url`); where a fragment
/// navigation is, its URL becomes `about:blank`. A message for another document, and the end of one, becomes
/// [`What::Hidden`], without renderer and acting document. All else stays.
pub fn blank(alloc: Global, entry: &Entry, kept: &[u32]) -> Result<Entry, AllocError>
    ensures { IfOk result (λ shown. shown ≡ spec.blank (spec.is_kept kept.now) entry.now) }
{
    if is_hidden(&entry.what, kept) {
        return Ok(Entry {
            by: None,
            actor: None,
            what: What::Hidden,
        });
    }
    let mut what = entry.what.clone()?;
    blank_what(alloc, &mut what, kept)?;
    Ok(Entry {
        by: entry.by,
        actor: entry.actor,
        what,
    })
}

fn is_hidden(what: &What, kept: &[u32]) -> bool
    ensures { result ≡ spec.is_hidden (spec.is_kept kept.now) what.now }
{
    match what {
        What::Post { to, .. } => !is_kept(kept, *to),
        What::Fire { doc, .. } => !is_kept(kept, *doc),
        What::Lapse { doc, .. } => !is_kept(kept, *doc),
        _ => false,
    }
}

fn is_kept(kept: &[u32], doc: u32) -> bool
    ensures { result ≡ spec.is_kept kept.now doc }
{
    kept.contains(&doc)
}

fn blank_what(alloc: Global, what: &mut What, kept: &[u32]) -> Result<(), AllocError>
    ensures { OnOk result (what.new ≡ spec.blank_what (spec.is_kept kept.now) what.old) }
{
    match what {
        What::Open { load, .. } => blank_load_or_none(alloc, load, kept),
        What::Frame { load, .. } => blank_load_or_none(alloc, load, kept),
        What::Begin { load, .. } => blank_load(alloc, load, kept),
        What::Fragment { doc, url, .. } => blank_fragment(alloc, *doc, url, kept),
        _ => Ok(()),
    }
}

fn blank_load_or_none(
    alloc: Global,
    load: &mut Option<Load>,
    kept: &[u32],
) -> Result<(), AllocError>
    ensures { OnOk result (load.new ≡ spec.blank_load_or_none (spec.is_kept kept.now) load.old) }
{
    match load {
        Some(load) => blank_load(alloc, load, kept),
        None => Ok(()),
    }
}

fn blank_load(alloc: Global, load: &mut Load, kept: &[u32]) -> Result<(), AllocError>
    ensures { OnOk result (load.new ≡ spec.blank_load (spec.is_kept kept.now) load.old) }
{
    if !is_kept(kept, load.doc) {
        load.url = blank_url(alloc, &load.origin)?;
    }
    Ok(())
}

fn blank_fragment(
    alloc: Global,
    doc: u32,
    url: &mut PageUrl,
    kept: &[u32],
) -> Result<(), AllocError>
    ensures { OnOk result (url.new ≡ (if spec.is_kept kept.now doc then url.old else codes "about:blank")) }
{
    if !is_kept(kept, doc) {
        *url = blank_url(alloc, &Origin::Opaque(doc))?;
    }
    Ok(())
}
