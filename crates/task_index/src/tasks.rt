ghost use Rattle.std.specs.Prelude.{◌≡◌, ℕ, ◌<◌, true};
ghost use Rattle.coordinator_rules.specs.NextTask as spec;
ghost use Rattle.tree_log.proofs.Admitted.{TaskStands};
ghost use Rattle.tree_log.specs.Admits.{AreAdmitted};
ghost use Rattle.tree_log.specs.Tree.{tree_of};
ghost use Rattle.task_index.specs.Fed.{ascends, has_message, in_row, over_at, task_at, HasTasks};

use crate::ends::is_over;
use crate::row::Row;
use tree_log::{Log, Target, What};
use tree_view::View;
use web_message::{closing_task, delivery, load_task};

/// A message that did not fire or lapse yet, if it waits at a renderer.
fn message_task<V: View>(
    over: &[bool],
    view: &V,
    renderer: u16,
    place: u32,
    to: u32,
    target: &Target,
) -> Option<What>
    requires { to < (V.tree view.now).docs }
    ensures { result ≡ spec.message_task (V.tree view.now) (λ to post. over_at over.now post) renderer place to target.now }
{
    if view.home_of(to) == renderer && !is_over(over, place) {
        Some(delivery(view, place, to, target))
    } else {
        None
    }
}

/// What the entry at a place leaves to be done at a renderer.
fn task_of<V: View>(over: &[bool], view: &V, renderer: u16, place: u32, what: &What) -> Option<What>
    requires { TaskStands (V.tree view.now) what.now }
    ensures { result ≡ spec.task_of (V.tree view.now) (λ to post. over_at over.now post) renderer place what.now }
{
    match what {
        What::Open {
            nav,
            load: Some(load),
            ..
        } => load_task(view, renderer, place, *nav, load),
        What::Frame {
            nav,
            load: Some(load),
            ..
        } => load_task(view, renderer, place, *nav, load),
        What::Begin { nav, load } => load_task(view, renderer, place, *nav, load),
        What::Post { to, target, .. } => message_task(over, view, renderer, place, *to, target),
        What::Closing { nav } => closing_task(view, renderer, *nav),
        _ => None,
    }
}

/// What the entry of the log at a place leaves to be done at a renderer, if there is one.
fn task_at<V: View>(over: &[bool], log: &Log, view: &V, renderer: u16, place: u32) -> Option<What>
    requires tree { V.tree view.now ≡ tree_of log.now.entries }
    requires admitted { AreAdmitted log.now.entries }
    requires over { (to post : ℕ) → has_message log.now.entries to post ≡ true → over_at over.now post ≡ spec.is_over log.now.entries to post }
    ensures { result ≡ task_at log.now.entries renderer place }
{
    match log.at(place) {
        Some(entry) => task_of(over, view, renderer, place, &entry.what),
        None => None,
    }
}

/// The task of least place in the row of a renderer. Places that leave no task are taken out on the way.
pub fn next_in_row<V: View>(
    row: &mut Row,
    over: &[bool],
    log: &Log,
    view: &V,
    renderer: u16,
) -> Option<What>
    requires tree { V.tree view.now ≡ tree_of log.now.entries }
    requires admitted { AreAdmitted log.now.entries }
    requires over { (to post : ℕ) → has_message log.now.entries to post ≡ true → over_at over.now post ≡ spec.is_over log.now.entries to post }
    requires order { ascends row.old.queue.items ≡ true }
    requires tasks { HasTasks log.now.entries renderer (in_row row.old) }
    ensures task { result ≡ spec.next_task log.now.entries renderer }
    ensures order { ascends row.new.queue.items ≡ true }
    ensures tasks { HasTasks log.now.entries renderer (in_row row.new) }
{
    while let Some(place) = row.first() {
        if let Some(task) = task_at(over, log, view, renderer, place) {
            return Some(task);
        }
        row.remove_first(place);
    }
    None
}
