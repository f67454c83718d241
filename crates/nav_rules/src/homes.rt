ghost use Rattle.std.specs.Prelude.{◌≡◌, ◌<◌, [], All, IfOk, IfSome, find};
ghost use Rattle.std.specs.List.{list_any};
ghost use Rattle.origin_core.specs.Origin.{is_same_scheme};
ghost use Rattle.tree_log.specs.Homes as spec;

use origin_core::{HostText, Scheme, Site, site_of};
use std::alloc::{AllocError, Global};
use tree_view::View;

fn same_scheme(a: Scheme, b: Scheme) -> bool
    ensures { result ≡ is_same_scheme a b }
{
    match (a, b) {
        (Scheme::Http, Scheme::Http) => true,
        (Scheme::Https, Scheme::Https) => true,
        _ => false,
    }
}

fn same_site(a: &Site, b: &Site) -> bool
    ensures { result ≡ spec.is_same_site a.now b.now }
{
    match (a, b) {
        (Site::Named(s, x), Site::Named(t, y)) => same_scheme(*s, *t) && x.as_str() == y.as_str(),
        (Site::Opaque(m), Site::Opaque(n)) => *m == *n,
        _ => false,
    }
}

/// Whether a document is of a group and a site.
fn is_of<V: View>(
    alloc: Global,
    view: &V,
    suffixes: &[HostText],
    group: u32,
    site: &Site,
    doc: u32,
) -> Result<bool, AllocError>
    requires { doc < (V.tree view.now).docs }
    ensures { IfOk result (λ is. is ≡ spec.is_of suffixes.now (V.tree view.now) group site.now doc) }
{
    if view.group(view.nav_of(doc)) != group {
        return Ok(false);
    }
    let its = site_of(alloc, view.origin_of(doc), suffixes)?;
    Ok(same_site(&its, site))
}

/// Whether two documents are of one group and one site.
fn is_alike<V: View>(
    alloc: Global,
    view: &V,
    suffixes: &[HostText],
    doc: u32,
    other: u32,
) -> Result<bool, AllocError>
    requires doc { doc < (V.tree view.now).docs }
    requires other { other < (V.tree view.now).docs }
    ensures { IfOk result (λ is. is ≡ spec.is_alike suffixes.now (V.tree view.now) doc other) }
{
    let group = view.group(view.nav_of(doc));
    let site = site_of(alloc, view.origin_of(doc), suffixes)?;
    is_of(alloc, view, suffixes, group, &site, other)
}

/// The first of the documents that is of a group and a site.
fn first_of<V: View>(
    alloc: Global,
    view: &V,
    suffixes: &[HostText],
    docs: &[u32],
    group: u32,
    site: &Site,
) -> Result<Option<u32>, AllocError>
    requires { All (λ d. d < (V.tree view.now).docs) docs.now }
    ensures value { IfOk result (λ found. found ≡ find (spec.is_of suffixes.now (V.tree view.now) group site.now) docs.now) }
    ensures within { IfOk result (λ found. IfSome found (λ d. d < (V.tree view.now).docs)) }
{
    for doc in docs {
        if is_of(alloc, view, suffixes, group, site, *doc)? {
            return Ok(Some(*doc));
        }
    }
    Ok(None)
}

/// Whether one of the documents is of the group and the site of another.
fn any_alike<V: View>(
    alloc: Global,
    view: &V,
    suffixes: &[HostText],
    doc: u32,
    seen: &[u32],
) -> Result<bool, AllocError>
    requires doc { doc < (V.tree view.now).docs }
    requires seen { All (λ d. d < (V.tree view.now).docs) seen.now }
    ensures { IfOk result (λ any. any ≡ list_any (spec.is_alike suffixes.now (V.tree view.now) doc) seen.now) }
{
    for other in seen {
        if is_alike(alloc, view, suffixes, doc, *other)? {
            return Ok(true);
        }
    }
    Ok(false)
}

/// How many different pairs of a group and a site there are among the documents.
fn pairs<V: View>(
    alloc: Global,
    view: &V,
    suffixes: &[HostText],
    docs: &[u32],
) -> Result<usize, AllocError>
    requires { All (λ d. d < (V.tree view.now).docs) docs.now }
    ensures { IfOk result (λ count. count ≡ spec.pairs suffixes.now (V.tree view.now) [] docs.now) }
{
    let mut seen: Vec<u32> = Vec::new(alloc);
    for doc in docs {
        if !any_alike(alloc, view, suffixes, *doc, &seen)? {
            seen.insert(0, *doc)?;
        }
    }
    Ok(seen.len())
}

/// The renderer that is to hold a new document of a group and a site: the one that holds the first loaded document of
/// them, or else the next renderer (HTML Standard, 7.3.2.3, agent clusters keyed by sites).
///
/// The group and the site may be new. It fails only where there is no memory.
#[tactic(auto, unfolding(tree_log::specs::Homes::home_for))]
pub fn home_for<V: View>(
    alloc: Global,
    view: &V,
    group: u32,
    site: &Site,
    suffixes: &[HostText],
    renderers: u16,
) -> Result<u16, AllocError>
    requires { 0 < renderers }
    ensures { IfOk result (λ home. home ≡ spec.home_for renderers suffixes.now (V.tree view.now) group site.now) }
{
    let loads = view.loads();
    match first_of(alloc, view, suffixes, loads, group, site)? {
        Some(doc) => Ok(view.home_of(doc)),
        None => {
            let count = pairs(alloc, view, suffixes, loads)?;
            Ok((count % usize::from(renderers)) as u16)
        }
    }
}
