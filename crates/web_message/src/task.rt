ghost use Rattle.std.specs.Prelude.{◌≡◌, None};
ghost use Rattle.coordinator_rules.specs.NextTask as spec;
ghost use Rattle.tree_log.specs.Admits.{AreAdmitted};
ghost use Rattle.tree_log.specs.Tree.{tree_of};
ghost use Rattle.web_message.specs.Tasks.{task_by, task_if_any};

use crate::tasks::next_event;
use tree_log::{Cause, Log, What};
use tree_view::View;

/// What a renderer does next.
#[derive(Clone, Copy, Debug, PartialEq, Eq)]
pub enum Task {
    /// The message at this place fires.
    Fire { post: u32 },
    /// The message at this place lapses.
    Lapse { post: u32, cause: Cause },
    /// The load that began at this place is committed.
    Load { begin: u32 },
    /// This window goes.
    Gone { nav: u32 },
}

/// The task that a renderer takes by this event, if it takes one.
fn task_by(what: &What) -> Option<Task>
    ensures { result ≡ task_by what.now }
{
    match what {
        What::Commit { begin, .. } => Some(Task::Load { begin: *begin }),
        What::Fire { post, .. } => Some(Task::Fire { post: *post }),
        What::Lapse { post, cause, .. } => Some(Task::Lapse {
            post: *post,
            cause: *cause,
        }),
        What::Gone { nav } => Some(Task::Gone { nav: *nav }),
        _ => None,
    }
}

/// The renderer's next task, by a view of this log. `None` exactly where nothing waits there. It takes no memory.
pub fn next_task<V: View>(log: &Log, view: &V, renderer: u16) -> Option<Task>
    requires tree { V.tree view.now ≡ tree_of log.now.entries }
    requires admitted { AreAdmitted log.now.entries }
    ensures task { result ≡ task_if_any (spec.next_task log.now.entries renderer) }
    ensures none { result ≡ None → spec.next_task log.now.entries renderer ≡ None }
{
    match next_event(log, view, renderer) {
        Some(what) => task_by(&what),
        None => None,
    }
}
