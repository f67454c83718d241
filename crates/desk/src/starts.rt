ghost use Rattle.std.specs.Prelude.{◌≡◌, ◌<◌, ◌^◌, IfOk};
ghost use Rattle.coordinator_rules.specs.Decision as rules_spec;
ghost use Rattle.request_decisions.specs.Asked.{AreOfOneLog, rules};
ghost use Rattle.single_agent.specs.Session as spec;

use home_index::Homes;
use origin_core::{Flags, HostText, Origin, PageUrl, loaded_origin, site_of};
use plain_data::Text;
use std::alloc::{AllocError, Global};
use tree_log::{Entry, Load, What};
use tree_view::View;

// What a start window loads: a URL, in a group of its own.
fn start_load<V: View>(
    alloc: Global,
    view: &V,
    homes: &Homes,
    renderers: u16,
    suffixes: &[HostText],
    url: PageUrl,
) -> Result<Load, AllocError>
    requires some { 0 < renderers }
    requires few { (V.tree view.now).docs < 2 ^ 31 }
    requires homes { AreOfOneLog suffixes.now (V.tree view.now) homes.now }
    ensures { IfOk result (λ load. load ≡ spec.start_load (rules renderers suffixes.now) (V.tree view.now) url) }
{
    let doc = view.docs() + 1;
    let origin = loaded_origin(alloc, false, doc, &Origin::Opaque(doc), &url)?;
    let site = site_of(alloc, &origin, suffixes)?;
    let home = homes.home_for(view.groups(), &site, renderers);
    Ok(Load {
        doc,
        home,
        origin,
        url,
    })
}

/// The next start window, which loads a URL: the entry that opens it, in a new group.
pub(crate) fn make_start_entry<V: View>(
    alloc: Global,
    view: &V,
    homes: &Homes,
    renderers: u16,
    suffixes: &[HostText],
    url: PageUrl,
) -> Result<Entry, AllocError>
    requires some { 0 < renderers }
    requires few { (V.tree view.now).docs < 2 ^ 31 }
    requires homes { AreOfOneLog suffixes.now (V.tree view.now) homes.now }
    ensures { IfOk result (λ entry. entry ≡ spec.start_entry (rules renderers suffixes.now) (V.tree view.now) url) }
{
    let load = start_load(alloc, view, homes, renderers, suffixes, url)?;
    Ok(Entry {
        by: None,
        actor: None,
        what: What::Open {
            nav: view.navs(),
            doc: view.docs(),
            group: view.groups(),
            home: load.home,
            origin: Origin::Opaque(view.docs()),
            name: Text::copy_of(alloc, "")?,
            opener: None,
            flags: Flags::NONE,
            navigator: None,
            load: Some(load),
        },
    })
}
