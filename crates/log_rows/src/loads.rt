ghost use Rattle.std.specs.Prelude.{◌≡◌, ◌<◌, OnOk};
ghost use Rattle.std.specs.Option.{option_copied};
ghost use Rattle.tree_log.specs.Facts as facts;
ghost use Rattle.log_rows.specs.Kept.{IsNoted};

use home_index::Homes;
use origin_core::{HostText, site_of};
use std::alloc::{AllocError, Global};
use tree_log::{Load, What};
use tree_view::View;

/// The load that begins by what happened, if one does.
pub fn load_in(what: &What) -> Option<&Load>
    ensures { option_copied result ≡ facts.load_in what.now }
{
    match what {
        What::Open { load, .. } => load.as_ref(),
        What::Frame { load, .. } => load.as_ref(),
        What::Begin { load, .. } => Some(load),
        _ => None,
    }
}

/// Notes the home of a load. The view is one of the log with its entry.
pub fn note_load<V: View>(
    alloc: Global,
    homes: &mut Homes,
    view: &V,
    suffixes: &[HostText],
    load: &Load,
) -> Result<(), AllocError>
    requires { load.now.doc < (V.tree view.now).docs }
    ensures { OnOk result (IsNoted suffixes.now (V.tree view.now) load.now homes.old homes.new) }
{
    let group = view.group(view.nav_of(load.doc));
    let site = site_of(alloc, &load.origin, suffixes)?;
    homes.note(group, site, load.home)
}
