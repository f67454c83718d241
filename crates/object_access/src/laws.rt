//! Each function does nothing: its contract is the law.
ghost use Rattle.std.specs.Prelude.{ℕ, List};
ghost use Rattle.tree_log.specs.Tree.{Tree};
ghost use Rattle.object_access.specs.LocationAccess.{location};
ghost use Rattle.object_access.specs.Verdict.{TellsOutcomes};
ghost use Rattle.object_access.specs.WindowAccess.{window};

/// A verdict is a refusal exactly where the operation's outcome is a SecurityError, and by that error's rule: on each
/// Window and on each Location, as any document meets it.
pub fn verdicts_tell_outcomes()
    ensures window { (t : Tree) (urls : ℕ → List ℕ) (asker n : ℕ) → TellsOutcomes (window t urls asker n) }
    ensures location { (t : Tree) (urls : ℕ → List ℕ) (asker d : ℕ) → TellsOutcomes (location t urls asker d) }
{}
