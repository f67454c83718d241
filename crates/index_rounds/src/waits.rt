ghost use Rattle.std.specs.Prelude.{◌≡◌, ◌<◌, ◌^◌, [], length, IsTrue, OnOk};
ghost use Rattle.tree_log.specs.Admits.{admits, AreAdmitted};
ghost use Rattle.tree_log.specs.Range.{HasAscendingKeys};
ghost use Rattle.tree_log.specs.Tree.{tree_of};
ghost use Rattle.task_index.specs.Fed.{IsFed};

use crate::Counts;
use crate::entries::{Kind, renderer_of, waiting_entry, window};
use plain_data::keys_ascend;
use std::alloc::{AllocError, Global};
use task_index::Waiting;
use tree_log::{Entry, Log, What};
use tree_view::View;

/// How many entries a log has at most.
const MOST_ENTRIES: u32 = 1_000_000;

/// Whether the keys of each record in posted data ascend, as a log asks for.
fn has_ascending_keys(what: &What) -> bool
    ensures { IsTrue result → HasAscendingKeys what.now }
{
    match what {
        What::Post { body, .. } => keys_ascend(body),
        _ => true,
    }
}

/// Whether an entry can follow, and the log has room for it.
fn can_append<V: View>(log: &Log, view: &V, entry: &Entry) -> bool
    ensures few { IsTrue result → length log.now.entries < 2 ^ 30 }
    ensures keys { IsTrue result → HasAscendingKeys entry.now.what }
    ensures admitted { IsTrue result → IsTrue (admits (V.tree view.now) entry.now) }
{
    log.len() < MOST_ENTRIES && has_ascending_keys(&entry.what) && view.admits(entry)
}

/// Appends an entry to the log, and feeds it to the index. One that can't follow, and one too many, is left out.
#[tactic(auto, using(tree_log::specs::Tree::tree_of_step))]
fn append<V: View>(
    log: &mut Log,
    view: &mut V,
    waiting: &mut Waiting,
    entry: Entry,
) -> Result<(), AllocError>
    requires same { V.tree view.old ≡ tree_of log.old.entries }
    requires admitted { AreAdmitted log.old.entries }
    requires fed { IsFed waiting.old log.old.entries }
    ensures same { OnOk result (V.tree view.new ≡ tree_of log.new.entries) }
    ensures admitted { OnOk result (AreAdmitted log.new.entries) }
    ensures fed { OnOk result (IsFed waiting.new log.new.entries) }
{
    if !can_append(log, view, &entry) {
        return Ok(());
    }
    view.apply(&entry)?;
    waiting.feed(log, view, &entry)?;
    log.push(entry)?;
    Ok(())
}

/// Appends an entry to the log, where there is no index.
fn append_unfed<V: View>(log: &mut Log, view: &mut V, entry: Entry) -> Result<(), AllocError> {
    if !can_append(log, view, &entry) {
        return Ok(());
    }
    view.apply(&entry)?;
    log.push(entry)?;
    Ok(())
}

/// Appends a window and so many things that wait.
fn fill<V: View>(
    alloc: Global,
    log: &mut Log,
    view: &mut V,
    waiting: &mut Waiting,
    kind: Kind,
    entries: u32,
) -> Result<(), AllocError>
    requires same { V.tree view.old ≡ tree_of log.old.entries }
    requires admitted { AreAdmitted log.old.entries }
    requires fed { IsFed waiting.old log.old.entries }
    ensures same { OnOk result (V.tree view.new ≡ tree_of log.new.entries) }
    ensures admitted { OnOk result (AreAdmitted log.new.entries) }
    ensures fed { OnOk result (IsFed waiting.new log.new.entries) }
{
    append(log, view, waiting, window(alloc)?)?;
    'entries: for _ in 0..entries {
        let entry = waiting_entry(alloc, kind, view.navs(), view.docs())?;
        append(log, view, waiting, entry)?;
    }
    Ok(())
}

/// Whether so many answers are all tasks.
fn ask<V: View>(log: &Log, view: &V, waiting: &mut Waiting, renderer: u16, answers: u32) -> bool
    requires same { V.tree view.now ≡ tree_of log.now.entries }
    requires admitted { AreAdmitted log.now.entries }
    requires fed { IsFed waiting.old log.now.entries }
{
    'answers: for _ in 0..answers {
        if waiting.next(log, view, renderer).is_none() {
            return false;
        }
    }
    true
}

/// Takes so many tasks, if there are so many: the entry that takes one is appended before the next is asked for.
fn take<V: View>(
    log: &mut Log,
    view: &mut V,
    waiting: &mut Waiting,
    renderer: u16,
    answers: u32,
) -> Result<bool, AllocError>
    requires same { V.tree view.old ≡ tree_of log.old.entries }
    requires admitted { AreAdmitted log.old.entries }
    requires fed { IsFed waiting.old log.old.entries }
{
    'answers: for _ in 0..answers {
        let Some(what) = waiting.next(log, view, renderer) else {
            return Ok(false);
        };
        let entry = Entry {
            by: Some(renderer),
            actor: None,
            what,
        };
        append(log, view, waiting, entry)?;
    }
    Ok(true)
}

fn answered(all: bool, answers: u32) -> usize {
    if all { answers as usize } else { 0 }
}

/// Builds a log with its view and its index, and asks it, or takes its tasks.
pub fn run_waits<V: View + Drop>(
    alloc: Global,
    view: V,
    kind: Kind,
    entries: u32,
    answers: u32,
    taken: bool,
) -> Result<Counts, AllocError>
    requires { V.tree view ≡ tree_of [] }
{
    let mut log = Log::new(alloc);
    let mut view = view;
    let mut waiting = Waiting::new(alloc);
    fill(alloc, &mut log, &mut view, &mut waiting, kind, entries)?;
    let renderer = renderer_of(kind);
    let all = if taken {
        take(&mut log, &mut view, &mut waiting, renderer, answers)?
    } else {
        ask(&log, &view, &mut waiting, renderer, answers)
    };
    Ok(Counts {
        entries: log.len() as usize,
        answered: answered(all, answers),
    })
}

/// Builds a log with its view alone.
pub fn run_unfed<V: View + Drop>(
    alloc: Global,
    view: V,
    kind: Kind,
    entries: u32,
) -> Result<Counts, AllocError> {
    let mut log = Log::new(alloc);
    let mut view = view;
    append_unfed(&mut log, &mut view, window(alloc)?)?;
    for _ in 0..entries {
        let entry = waiting_entry(alloc, kind, view.navs(), view.docs())?;
        append_unfed(&mut log, &mut view, entry)?;
    }
    Ok(Counts {
        entries: log.len() as usize,
        answered: 0,
    })
}
