ghost use Rattle.std.specs.Prelude.{◌≡◌, [], ◌∷◌, OnOk, OnErr};
ghost use Rattle.coordinator_rules.specs.NextTask.{next_task};
ghost use Rattle.tree_log.specs.Admits.{AreAdmitted};
ghost use Rattle.tree_log.specs.Tree.{tree_of};
ghost use Rattle.task_index.specs.Fed.{IsFed};

use crate::feed::feed_what;
use crate::row::Row;
use crate::tasks::next_in_row;
use std::alloc::{AllocError, Global};
use std::collections::{BTreeMap, HashSet};
use tree_log::{Entry, Log, What};
use tree_view::View;

/// What waits at each renderer, of a log that it was fed an entry at a time.
#[derive(Drop)]
pub struct Waiting {
    pub(crate) alloc: Global,
    /// For each renderer, the places of the entries that may leave it a task. One that leaves none is taken out once.
    pub(crate) rows: Vec<Row>,
    /// Of each place of the log, whether the message that stands there fired or lapsed. Past its end none has.
    pub(crate) over: Vec<bool>,
    /// Ends of messages at places that the log did not have then, by document and place.
    pub(crate) early: HashSet<(u32, u32)>,
    /// For each navigable that was asked to close, the place of the first entry that asked.
    pub(crate) closings: BTreeMap<u32, u32>,
}

impl Waiting {
    /// What waits before the first entry: nothing.
    pub fn new(alloc: Global) -> Self
        ensures { IsFed result [] }
    {
        Waiting {
            alloc,
            rows: Vec::new(alloc),
            over: Vec::new(alloc),
            early: HashSet::new(alloc),
            closings: BTreeMap::new(alloc),
        }
    }

    /// Takes in an entry that is appended to the log. The view is one of the log with the entry. After an `Err` it can be
    /// fed the same entry again.
    pub fn feed<V: View>(&mut self, log: &Log, view: &V, entry: &Entry) -> Result<(), AllocError>
        requires tree { V.tree view.now ≡ tree_of (entry.now ∷ log.now.entries) }
        requires admitted { AreAdmitted (entry.now ∷ log.now.entries) }
        requires fed { IsFed self.old log.now.entries }
        ensures ok { OnOk result (IsFed self.new (entry.now ∷ log.now.entries)) }
        ensures err { OnErr result (IsFed self.new log.now.entries) }
    {
        feed_what(self, log, view, log.len(), &entry.what)
    }

    /// What a renderer does next, as the event by which it takes the task. `None` exactly where nothing waits there. The view
    /// is one of this log. It takes no memory.
    pub fn next<V: View>(&mut self, log: &Log, view: &V, renderer: u16) -> Option<What>
        requires tree { V.tree view.now ≡ tree_of log.now.entries }
        requires admitted { AreAdmitted log.now.entries }
        requires fed { IsFed self.old log.now.entries }
        ensures task { result ≡ next_task log.now.entries renderer }
        ensures fed { IsFed self.new log.now.entries }
    {
        if renderer as usize >= self.rows.len() {
            return None;
        }
        let row = &mut self.rows[renderer as usize];
        next_in_row(row, &self.over, log, view, renderer)
    }
}
