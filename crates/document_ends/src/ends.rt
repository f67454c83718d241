ghost use Rattle.std.specs.Prelude.{◌≡◌, ◌<◌, ◌∷◌, [], true, false, OnOk, OnErr};
ghost use Rattle.coordinator_rules.specs.Decision.{end_of};
ghost use Rattle.tree_log.specs.Admits.{AreAdmitted};
ghost use Rattle.tree_log.specs.Tree.{tree_of, is_active};
ghost use Rattle.document_ends.specs.Ended as spec;
ghost use Rattle.document_ends.specs.Ended.{IsFed};

use crate::feed::{feed_what, row_of};
use std::alloc::{AllocError, Global};
use std::collections::BTreeMap;
use tree_log::{Entry, Log};
use tree_view::View;

/// What ended documents, of a log that it was fed an entry at a time.
#[derive(Drop)]
pub struct Ends {
    /// For each navigable that was dropped or closed, the first place at which it was.
    pub(crate) cuts: BTreeMap<u32, u32>,
    /// For each document that was replaced, the place at which it was; and 0 for one that was committed in a navigable that was
    /// discarded.
    pub(crate) documents: BTreeMap<u32, u32>,
    /// For each child navigable, the document that embeds it.
    pub(crate) embedders: BTreeMap<u32, u32>,
}

impl Ends {
    /// The rows before the first entry: they are empty.
    pub fn new(alloc: Global) -> Self
        ensures { IsFed result [] }
    {
        Ends {
            cuts: BTreeMap::new(alloc),
            documents: BTreeMap::new(alloc),
            embedders: BTreeMap::new(alloc),
        }
    }

    /// Takes in an entry that is appended to the log. The view is one of the log before the entry. After an `Err` the rows are
    /// as before.
    pub fn feed<V: View>(&mut self, log: &Log, view: &V, entry: &Entry) -> Result<(), AllocError>
        requires tree { V.tree view.now ≡ tree_of log.now.entries }
        requires admitted { AreAdmitted (entry.now ∷ log.now.entries) }
        requires fed { IsFed self.old log.now.entries }
        ensures ok { OnOk result (IsFed self.new (entry.now ∷ log.now.entries)) }
        ensures err { OnErr result (IsFed self.new log.now.entries) }
    {
        feed_what(self, view, log.len(), entry.actor, &entry.what)
    }

    /// The place of the entry that ended a document, which was active and isn't any more. The view is one of this log. It takes
    /// no memory, and of the log it reads nothing.
    pub fn place_of<V: View>(&self, log: &Log, view: &V, doc: u32) -> u32
        requires tree { V.tree view.now ≡ tree_of log.now.entries }
        requires admitted { AreAdmitted log.now.entries }
        requires fed { IsFed self.now log.now.entries }
        requires been { ((V.tree view.now).doc doc).been_active ≡ true }
        requires inactive { is_active (V.tree view.now) doc ≡ false }
        ensures { result ≡ end_of log.now.entries doc }
    {
        self.first_end(log, view, doc).unwrap_or(0)
    }

    /// The first place at which a document ended, or something that it stands in.
    fn first_end<V: View>(&self, _log: &Log, view: &V, doc: u32) -> Option<u32>
        requires tree { V.tree view.now ≡ tree_of _log.now.entries }
        requires admitted { AreAdmitted _log.now.entries }
        requires fed { IsFed self.now _log.now.entries }
        requires there { doc < (V.tree view.now).docs }
        ensures { result ≡ spec.first_end _log.now.entries doc }
    {
        let mut first = row_of(&self.documents, doc);
        let mut nav = view.nav_of(doc);
        'up: loop {
            first = sooner(first, row_of(&self.cuts, nav));
            match row_of(&self.embedders, nav) {
                None => return first,
                Some(above) => {
                    first = sooner(first, row_of(&self.documents, above));
                    nav = view.nav_of(above);
                }
            }
        }
    }
}

/// The lesser of two places, of those that are there.
fn sooner(a: Option<u32>, b: Option<u32>) -> Option<u32>
    ensures { result ≡ spec.sooner a b }
{
    match (a, b) {
        (Some(a), Some(b)) => Some(if b < a { b } else { a }),
        (Some(a), None) => Some(a),
        (None, b) => b,
    }
}
