ghost use Rattle.std.specs.Prelude.{◌≡◌, ◌<◌, Some};
ghost use Rattle.tree_log.specs.Log as spec;
ghost use Rattle.tree_log.proofs.Admitted.{TaskStands, AllStand};
ghost use Rattle.coordinator_rules.specs.NextTask.{load_waits, load_task, is_for, delivery, ends, is_over, message_task, closing_task, task_of, first_task, next_task};
ghost use Rattle.tree_log.specs.Admits.{AreAdmitted};
ghost use Rattle.tree_log.specs.Tree.{tree_of};

use origin_core::{Origin, same_origin};
use tree_log::{Cause, Load, Log, Target, What};
use tree_view::View;

/// Whether a load waits at a renderer.
fn load_waits<V: View>(view: &V, renderer: u16, nav: u32, load: &Load) -> bool
    requires nav_there { nav < (V.tree view.now).navs }
    requires doc_there { load.now.doc < (V.tree view.now).docs }
    ensures { result ≡ load_waits (V.tree view.now) renderer nav load.now }
{
    load.home == renderer
        && is_number(view.last_load(nav), load.doc)
        && !view.been_active(load.doc)
        && !view.discarded(nav)
}

fn is_number(found: Option<u32>, number: u32) -> bool
    ensures { result ≡ spec.is found number }
{
    found == Some(number)
}

/// The commit of a load that began at a place, if it waits at a renderer.
pub fn load_task<V: View>(
    view: &V,
    renderer: u16,
    place: u32,
    nav: u32,
    load: &Load,
) -> Option<What>
    requires nav_there { nav < (V.tree view.now).navs }
    requires doc_there { load.now.doc < (V.tree view.now).docs }
    ensures { result ≡ load_task (V.tree view.now) renderer place nav (Some load.now) }
{
    if load_waits(view, renderer, nav, load) {
        Some(What::Commit {
            nav,
            doc: load.doc,
            begin: place,
        })
    } else {
        None
    }
}

/// Whether a message for this target is for documents of this origin.
fn is_for(target: &Target, origin: &Origin) -> bool
    ensures { result ≡ is_for target.now origin.now }
{
    match target {
        Target::Any => true,
        Target::Never => false,
        Target::Origin(wanted) => same_origin(wanted, origin),
    }
}

/// What becomes of the message at a place: it fires at its document, or lapses.
pub fn delivery<V: View>(view: &V, place: u32, to: u32, target: &Target) -> What
    requires { to < (V.tree view.now).docs }
    ensures { result ≡ delivery (V.tree view.now) place to target.now }
{
    if !view.is_active(to) {
        return What::Lapse {
            doc: to,
            post: place,
            cause: Cause::Inactive,
        };
    }
    if is_for(target, view.origin_of(to)) {
        What::Fire {
            doc: to,
            post: place,
        }
    } else {
        What::Lapse {
            doc: to,
            post: place,
            cause: Cause::Origin,
        }
    }
}

/// Whether an entry is the end of the message to a document that stands at a place.
fn ends(what: &What, to: u32, place: u32) -> bool
    ensures { result ≡ ends to place what.now }
{
    match what {
        What::Fire { doc, post } => *doc == to && *post == place,
        What::Lapse { doc, post, .. } => *doc == to && *post == place,
        _ => false,
    }
}

/// Whether the message to a document that stands at a place fired or lapsed.
fn is_over(log: &Log, to: u32, place: u32) -> bool
    ensures { result ≡ is_over log.now.entries to place }
{
    for number in 0..log.len() {
        let Some(entry) = log.at(number) else {
            return unreachable!();
        };
        if ends(&entry.what, to, place) {
            return true;
        }
    }
    false
}

fn message_task<V: View>(
    log: &Log,
    view: &V,
    renderer: u16,
    place: u32,
    to: u32,
    target: &Target,
) -> Option<What>
    requires { to < (V.tree view.now).docs }
    ensures { result ≡ message_task (V.tree view.now) (is_over log.now.entries) renderer place to target.now }
{
    if view.home_of(to) == renderer && !is_over(log, to, place) {
        Some(delivery(view, place, to, target))
    } else {
        None
    }
}

/// The end of a window that was asked to close, if it waits at a renderer.
pub fn closing_task<V: View>(view: &V, renderer: u16, nav: u32) -> Option<What>
    requires { nav < (V.tree view.now).navs }
    ensures { result ≡ closing_task (V.tree view.now) renderer nav }
{
    if view.home_of(view.active(nav)) == renderer && !view.discarded(nav) {
        Some(What::Gone { nav })
    } else {
        None
    }
}

/// What the entry at a place leaves to be done at a renderer.
fn task_of<V: View>(log: &Log, view: &V, renderer: u16, place: u32, what: &What) -> Option<What>
    requires { TaskStands (V.tree view.now) what.now }
    ensures { result ≡ task_of (V.tree view.now) (is_over log.now.entries) renderer place what.now }
{
    match what {
        What::Open {
            nav,
            load: Some(load),
            ..
        } => load_task(view, renderer, place, *nav, load),
        What::Frame {
            nav,
            load: Some(load),
            ..
        } => load_task(view, renderer, place, *nav, load),
        What::Begin { nav, load } => load_task(view, renderer, place, *nav, load),
        What::Post { to, target, .. } => message_task(log, view, renderer, place, *to, target),
        What::Closing { nav } => closing_task(view, renderer, *nav),
        _ => None,
    }
}

/// The first task that the entries of the log leave, by what the view says of the tree.
fn first_task<V: View>(log: &Log, view: &V, renderer: u16) -> Option<What>
    requires { AllStand (V.tree view.now) log.now.entries }
    ensures { result ≡ first_task (V.tree view.now) (is_over log.now.entries) renderer log.now.entries }
{
    for place in 0..log.len() {
        let Some(entry) = log.at(place) else {
            return unreachable!();
        };
        if let Some(task) = task_of(log, view, renderer, place, &entry.what) {
            return Some(task);
        }
    }
    None
}

/// What a renderer does next (HTML Standard, 8.1.7, event loops), as the event by which it takes the task: the commit of a
/// load, a message that fires or lapses, and why, or a window that goes. `None` exactly where nothing waits there. The view
/// is one of this log. It walks the log, and takes no memory.
pub fn next_event<V: View>(log: &Log, view: &V, renderer: u16) -> Option<What>
    requires tree { V.tree view.now ≡ tree_of log.now.entries }
    requires admitted { AreAdmitted log.now.entries }
    ensures { result ≡ next_task log.now.entries renderer }
{
    first_task(log, view, renderer)
}
