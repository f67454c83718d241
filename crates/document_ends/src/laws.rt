//! Each function does nothing: its contract is the law.
ghost use Rattle.std.specs.Prelude.{◌≡◌, ℕ, List, ◌∷◌, Option};
ghost use Rattle.document_ends.specs.declared.ends.Ends.{Ends};
ghost use Rattle.document_ends.specs.Ended.{IsFed};
ghost use Rattle.tree_log.specs.Admits.{AreAdmitted};
ghost use Rattle.tree_log.specs.declared.entry.Entry.{Entry};
ghost use Rattle.tree_log.specs.declared.entry.What.TheVariants.{Opener};

/// An entry that sets an opener leaves the rows of the log as they are.
pub fn fed_by_openers()
    ensures { (ends : Ends) (entry : Entry) (log : List Entry) (nav : ℕ) (to : Option ℕ) → AreAdmitted (entry ∷ log) →
        entry.what ≡ Opener nav to → IsFed ends log → IsFed ends (entry ∷ log) }
{}
