// Whether an entry can follow, by the reads of a view.
ghost use Rattle.std.specs.Prelude.{◌≡◌, ◌||◌, ◌+◌};
ghost use Rattle.tree_log.specs.Admits as spec;
ghost use Rattle.tree_view.specs.Committing.{may_commit};

use crate::view::View;
use tree_log::{Entry, Load, What};

fn is_nobodys(entry: &Entry) -> bool
    ensures { result ≡ spec.is_nobodys entry.now.by entry.now.actor }
{
    match (entry.by, entry.actor) {
        (None, None) => true,
        _ => false,
    }
}

fn is_renderers(entry: &Entry) -> bool
    ensures { result ≡ spec.is_renderers entry.now.by entry.now.actor }
{
    match (entry.by, entry.actor) {
        (Some(_), None) => true,
        _ => false,
    }
}

fn is_documents<V: View>(view: &V, entry: &Entry) -> bool
    ensures { result ≡ spec.is_documents (V.tree view.now) entry.now.by entry.now.actor }
{
    match (entry.by, entry.actor) {
        (Some(_), Some(doc)) => has_doc(view, doc) && view.is_active(doc),
        _ => false,
    }
}

fn has_nav<V: View>(view: &V, nav: u32) -> bool
    ensures { result ≡ spec.has (V.tree view.now).navs nav }
{
    nav < view.navs()
}

fn has_nav_if_any<V: View>(view: &V, nav: Option<u32>) -> bool
    ensures { result ≡ spec.has_if_any (V.tree view.now).navs nav }
{
    match nav {
        None => true,
        Some(nav) => has_nav(view, nav),
    }
}

fn has_doc<V: View>(view: &V, doc: u32) -> bool
    ensures { result ≡ spec.has (V.tree view.now).docs doc }
{
    doc < view.docs()
}

fn is_next(count: u64, number: u32) -> bool
    ensures { result ≡ spec.is_next count number }
{
    u64::from(number) == count && number < 4294967295
}

fn is_next_nav<V: View>(view: &V, nav: u32) -> bool
    ensures { result ≡ spec.is_next (V.tree view.now).navs nav }
{
    is_next(u64::from(view.navs()), nav)
}

fn is_next_doc<V: View>(view: &V, doc: u32) -> bool
    ensures { result ≡ spec.is_next (V.tree view.now).docs doc }
{
    is_next(u64::from(view.docs()), doc)
}

// Whether the document of a load is the one after the next.
fn is_load_after<V: View>(view: &V, load: &Option<Load>) -> bool
    ensures { result ≡ spec.is_next_load ((V.tree view.now).docs + 1) load.now }
{
    match load {
        None => true,
        Some(load) => is_next(u64::from(view.docs()) + 1, load.doc),
    }
}

fn is_group<V: View>(view: &V, group: u32) -> bool
    ensures { result ≡ (spec.has (V.tree view.now).groups group || spec.is_next (V.tree view.now).groups group) }
{
    group < view.groups() || is_next(u64::from(view.groups()), group)
}

// Whether a document was made for a navigable, and was never active.
fn may_commit<V: View>(view: &V, nav: u32, doc: u32) -> bool
    ensures { result ≡ may_commit (V.tree view.now) nav doc }
{
    has_nav(view, nav) && has_doc(view, doc) && view.nav_of(doc) == nav && !view.been_active(doc)
}

/// Whether the entry can follow: what it names is there, and what it makes has the next numbers.
#[tactic(auto, unfolding(tree_log::specs::Admits::admits))]
pub(crate) fn can_follow<V: View>(view: &V, entry: &Entry) -> bool
    ensures { result ≡ spec.admits (V.tree view.now) entry.now }
{
    view.len() < 4294967295 && can_happen(view, entry)
}

fn can_happen<V: View>(view: &V, entry: &Entry) -> bool
    ensures { result ≡ spec.admits_what (V.tree view.now) entry.now.by entry.now.actor entry.now.what }
{
    match &entry.what {
        What::Open {
            nav,
            doc,
            group,
            opener,
            navigator,
            load,
            ..
        } => {
            (is_nobodys(entry) || is_documents(view, entry))
                && is_next_nav(view, *nav)
                && is_next_doc(view, *doc)
                && is_group(view, *group)
                && has_nav_if_any(view, *opener)
                && has_nav_if_any(view, *navigator)
                && is_load_after(view, load)
        }
        What::Frame { nav, doc, load, .. } => {
            is_documents(view, entry)
                && is_next_nav(view, *nav)
                && is_next_doc(view, *doc)
                && is_load_after(view, load)
        }
        What::Drop { nav } => is_documents(view, entry) && has_nav(view, *nav),
        What::Name { nav, .. } => is_documents(view, entry) && has_nav(view, *nav),
        What::Begin { nav, load } => {
            is_documents(view, entry) && has_nav(view, *nav) && is_next_doc(view, load.doc)
        }
        What::Commit { nav, doc, .. } => is_renderers(entry) && may_commit(view, *nav, *doc),
        What::Fragment { nav, doc, .. } => {
            is_documents(view, entry) && has_nav(view, *nav) && has_doc(view, *doc)
        }
        What::Opener { nav, to } => {
            is_documents(view, entry) && has_nav(view, *nav) && has_nav_if_any(view, *to)
        }
        What::Post { to, from, .. } => {
            is_documents(view, entry) && has_doc(view, *to) && has_nav(view, *from)
        }
        What::Fire { doc, .. } => is_renderers(entry) && has_doc(view, *doc),
        What::Lapse { doc, .. } => is_renderers(entry) && has_doc(view, *doc),
        What::Closing { nav } => is_documents(view, entry) && has_nav(view, *nav),
        What::Gone { nav } => is_renderers(entry) && has_nav(view, *nav),
        What::Lost { .. } => is_nobodys(entry),
        What::Sync => is_documents(view, entry),
        What::Hidden => is_nobodys(entry),
        What::Domain { doc, .. } => is_documents(view, entry) && has_doc(view, *doc),
    }
}
