ghost use Rattle.std.specs.Prelude.{◌≡◌, ℕ, List, [], ◌∷◌, IsTrue, Option, OnOk};
ghost use Rattle.tree_log.specs.Admits.{admits, AreAdmitted};
ghost use Rattle.tree_log.specs.Tree.{tree_of};
ghost use Rattle.tree_log.specs.Urls.{url_of};

use crate::loads::{load_in, note_load};
use document_ends::Ends;
use home_index::Homes;
use origin_core::HostText;
use std::alloc::{AllocError, Global};
use task_index::Waiting;
use tree_log::{Entry, Log, What};
use tree_view::View;

/// What a coordinator keeps beside its log.
#[derive(Drop)]
pub struct LogRows<V> {
    pub view: V,
    pub waiting: Waiting,
    pub homes: Homes,
    pub ends: Ends,
}

impl<V: View> LogRows<V> {
    ghost use Rattle.log_rows.specs.Kept.{AreOf};

    /// The rows of an empty log, over a view of one.
    pub fn new(alloc: Global, view: V) -> Self
        requires tree { V.tree view ≡ tree_of [] }
        requires urls { V.urls view ≡ url_of [] }
        ensures { (suffixes : List (List ℕ)) → AreOf V.tree V.urls suffixes result [] }
    {
        LogRows {
            view,
            waiting: Waiting::new(alloc),
            homes: Homes::new(alloc),
            ends: Ends::new(alloc),
        }
    }

    /// Takes in an entry that is to be appended to the log. After an `Err` nothing is promised of the rows.
    #[tactic(auto, using(tree_log::specs::Tree::tree_of_step))]
    pub fn feed(
        &mut self,
        alloc: Global,
        suffixes: &[HostText],
        log: &Log,
        entry: &Entry,
    ) -> Result<(), AllocError>
        requires fed { AreOf V.tree V.urls suffixes.now self.old log.now.entries }
        requires admitted { AreAdmitted (entry.now ∷ log.now.entries) }
        ensures { OnOk result (AreOf V.tree V.urls suffixes.now self.new (entry.now ∷ log.now.entries)) }
    {
        self.ends.feed(log, &self.view, entry)?;
        self.view.apply(entry)?;
        self.waiting.feed(log, &self.view, entry)?;
        match load_in(&entry.what) {
            Some(load) => note_load(alloc, &mut self.homes, &self.view, suffixes, load),
            None => {
                home_index::laws::fed_by_others();
                Ok(())
            }
        }
    }

    /// Takes in an entry that sets an opener, where another one is to stand between the log and it. After an `Err` nothing is
    /// promised of the rows.
    pub fn feed_opener(&mut self, entry: &Entry) -> Result<(), AllocError>
        requires { IsTrue (admits (V.tree self.old.view) entry.now) }
        ensures { (suffixes : List (List ℕ)) (log : List Entry) (nav : ℕ) (to : Option ℕ) → AreAdmitted (entry.now ∷ log) →
            entry.now.what ≡ What.Opener nav to → AreOf V.tree V.urls suffixes self.old log →
            OnOk result (AreOf V.tree V.urls suffixes self.new (entry.now ∷ log)) }
    {
        document_ends::laws::fed_by_openers();
        home_index::laws::fed_by_others();
        task_index::laws::fed_by_openers();
        self.view.apply(entry)
    }
}
