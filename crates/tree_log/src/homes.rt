ghost use Rattle.std.specs.Prelude.{◌≡◌, ◌+◌, ◌≤◌, ◌<◌, ◌^◌, ℕ, None, Some, IfOk, length, reverse, slice_set, get_or, unwrap_or};
ghost use Rattle.tree_log.specs.Facts.{Birth, bears, docs_after};
ghost use Rattle.tree_log.specs.Tree.{tree_of, home_of};

use crate::entry::{Entry, Load, What};
use std::alloc::{AllocError, Global};

/// The home of each document that some entries make, by its number. The entries stand with the oldest first.
#[tactic(auto, using(crate::proofs::HomeRows::home_more), unfolding(crate::specs::Tree::tree_of))]
pub(crate) fn homes_of(alloc: Global, entries: &[Entry]) -> Result<Vec<Option<u16>>, AllocError>
    ensures count { IfOk result (λ homes. length homes.items ≡ (tree_of (reverse entries.now)).docs) }
    ensures value { IfOk result (λ homes. (d : ℕ) → d < length homes.items → home_of (tree_of (reverse entries.now)) d ≡ unwrap_or (get_or homes.items d None) 65536) }
    ensures far { IfOk result (λ homes. (d : ℕ) → 2 ^ 32 ≤ d → get_or homes.items d None ≡ None) }
{
    let mut homes = vec![in alloc; None; count_docs(entries)]?;
    for entry in entries {
        note(&mut homes, &entry.what);
    }
    Ok(homes)
}

#[tactic(auto, using(crate::proofs::HomeRows::gathered_more), unfolding(crate::specs::Tree::tree_of))]
fn count_docs(entries: &[Entry]) -> usize
    ensures { result ≡ (tree_of (reverse entries.now)).docs }
{
    let mut docs = 0;
    for entry in entries {
        docs += made_docs(&entry.what);
    }
    docs
}

// How many documents an entry makes.
fn made_docs(what: &What) -> usize
    ensures value { (n : ℕ) → docs_after what.now n ≡ n + result }
    ensures few { result ≤ 2 }
{
    match what {
        What::Open { load, .. } | What::Frame { load, .. } => { if load.is_some() { 2 } else { 1 } }
        What::Begin { .. } => 1,
        _ => 0,
    }
}

fn note(homes: &mut Vec<Option<u16>>, what: &What)
    ensures count { length homes.new.items ≡ length homes.old.items }
    ensures value { (d : ℕ) (b : Birth) → d < length homes.old.items → b.home ≡ unwrap_or (get_or homes.old.items d None) 65536 → (unwrap_or (bears d what.now) b).home ≡ unwrap_or (get_or homes.new.items d None) 65536 }
    ensures far { (d : ℕ) → 2 ^ 32 ≤ d → get_or homes.new.items d None ≡ get_or homes.old.items d None }
{
    match what {
        What::Open {
            doc,
            home,
            load,
            ..
        }
        | What::Frame {
            doc,
            home,
            load,
            ..
        } => {
            note_load(homes, load);
            note_home(homes, *doc, *home);
        }
        What::Begin { load, .. } => note_home(homes, load.doc, load.home),
        _ => {}
    }
}

fn note_load(homes: &mut Vec<Option<u16>>, load: &Option<Load>)
    ensures value { homes.new.items ≡ elim load.now [ None ↦ homes.old.items | Some l ↦ slice_set homes.old.items l.doc (Some l.home) ] }
    ensures far { (d : ℕ) → 2 ^ 32 ≤ d → get_or homes.new.items d None ≡ get_or homes.old.items d None }
{
    if let Some(load) = load {
        note_home(homes, load.doc, load.home);
    }
}

fn note_home(homes: &mut Vec<Option<u16>>, doc: u32, home: u16)
    ensures value { homes.new.items ≡ slice_set homes.old.items doc (Some home) }
    ensures far { (d : ℕ) → 2 ^ 32 ≤ d → get_or homes.new.items d None ≡ get_or homes.old.items d None }
{
    if let Some(known) = homes.get_mut(doc as usize) {
        *known = Some(home);
    }
}
