//! Each function does nothing: its contract is the law.
ghost use Rattle.std.specs.Prelude.{◌≡◌, ℕ, List, ◌∷◌, Option};
ghost use Rattle.task_index.specs.declared.waiting.Waiting.{Waiting};
ghost use Rattle.task_index.specs.Fed.{IsFed};
ghost use Rattle.tree_log.specs.Admits.{AreAdmitted};
ghost use Rattle.tree_log.specs.declared.entry.Entry.{Entry};
ghost use Rattle.tree_log.specs.declared.entry.What.TheVariants.{Opener};

/// An entry that sets an opener leaves the rows of the log as they are.
pub fn fed_by_openers()
    ensures { (waiting : Waiting) (entry : Entry) (log : List Entry) (nav : ℕ) (to : Option ℕ) → AreAdmitted (entry ∷ log) →
        entry.what ≡ Opener nav to → IsFed waiting log → IsFed waiting (entry ∷ log) }
{}
