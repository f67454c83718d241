ghost use Rattle.std.specs.Prelude.{◌≡◌, ◌<◌, OnOk, OnErr};
ghost use Rattle.std.specs.BTreeMap as map_spec;
ghost use Rattle.std.specs.Ordering.{nat_cmp};
ghost use Rattle.document_ends.specs.Ended.{IsPut, IsSame, IsEmbedded, IsTaken, IsKept, Stands};

use crate::ends::Ends;
use std::alloc::AllocError;
use std::collections::BTreeMap;
use tree_log::What;
use tree_view::View;

/// Takes in what happened at a place. The view is one of the log before it.
pub fn feed_what<V: View>(
    ends: &mut Ends,
    view: &V,
    place: u32,
    actor: Option<u32>,
    what: &What,
) -> Result<(), AllocError>
    requires { Stands (V.tree view.now) what.now }
    ensures ok { OnOk result (IsTaken (V.tree view.now) place actor what.now ends.old ends.new) }
    ensures err { OnErr result (IsKept ends.old ends.new) }
{
    match what {
        What::Frame { nav, .. } => put_embedder(&mut ends.embedders, *nav, actor),
        What::Drop { nav } => put(&mut ends.cuts, *nav, place),
        What::Gone { nav } => put(&mut ends.cuts, *nav, place),
        What::Commit { nav, doc, .. } => {
            if view.discarded(*nav) {
                put(&mut ends.documents, *doc, 0)
            } else {
                put(&mut ends.documents, view.active(*nav), place)
            }
        }
        _ => Ok(()),
    }
}

fn put_embedder(
    rows: &mut BTreeMap<u32, u32>,
    nav: u32,
    actor: Option<u32>,
) -> Result<(), AllocError>
    ensures ok { OnOk result (IsEmbedded nav actor rows.old rows.new) }
    ensures err { OnErr result (IsSame rows.old rows.new) }
{
    match actor {
        Some(doc) => put(rows, nav, doc),
        None => Ok(()),
    }
}

/// Puts a number into a row, unless one stands there: the first counts.
fn put(rows: &mut BTreeMap<u32, u32>, key: u32, number: u32) -> Result<(), AllocError>
    ensures ok { OnOk result (IsPut key number rows.old rows.new) }
    ensures err { OnErr result (IsSame rows.old rows.new) }
{
    if row_of(rows, key).is_some() {
        return Ok(());
    }
    rows.insert(key, number)?;
    Ok(())
}

/// What stands in a row, if anything does.
pub fn row_of(rows: &BTreeMap<u32, u32>, key: u32) -> Option<u32>
    ensures { result ≡ map_spec.get nat_cmp rows.now key }
{
    rows.get(&key).copied()
}
