//! Each function does nothing: its contract is the law.
ghost use Rattle.std.specs.Prelude.{◌≡◌, ℕ, List, ◌∷◌, None};
ghost use Rattle.home_index.specs.Rows.{Row, IsFed};
ghost use Rattle.tree_log.specs.declared.entry.Entry.{Entry};
ghost use Rattle.tree_log.specs.Admits.{AreAdmitted};
ghost use Rattle.tree_log.specs.Facts.{load_in};

/// An entry that begins no load leaves the rows of the log as they are.
pub fn fed_by_others()
    ensures { (suffixes : List (List ℕ)) (rows : List Row) (entry : Entry) (log : List Entry) → AreAdmitted (entry ∷ log) →
        load_in entry.what ≡ None → IsFed suffixes rows log → IsFed suffixes rows (entry ∷ log) }
{}
