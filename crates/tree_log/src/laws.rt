ghost use Rattle.std.specs.Prelude.{◌≡◌, ◌<◌, ◌≤◌, ◌^◌, ℕ, Bool, true, false, List};
ghost use Rattle.tree_log.specs.Admits.{AreAdmitted};
ghost use Rattle.tree_log.specs.Blanking.{blanked, is_homed, is_kept, is_open_to, homed_at};
ghost use Rattle.tree_log.specs.Tree.{Tree, tree_of, is_active, is_top_level};
ghost use Rattle.tree_log.specs.Urls.{url_of};
ghost use Rattle.tree_log.specs.declared.entry.Entry.{Entry};

/// Whoever is kept, the tree of the blanked log is that of the log: so every read of it is the same.
#[tactic(auto, using(crate::proofs::BlankLaws::blank_laws))]
pub fn blank_keeps_tree()
    ensures { (kept : ℕ → Bool) (log : List Entry) → tree_of (blanked kept log) ≡ tree_of log }
{}

/// The URL of a document that is kept is the same on the blanked log.
#[tactic(auto, using(crate::proofs::BlankLaws::blank_laws))]
pub fn blank_keeps_urls()
    ensures { (kept : ℕ → Bool) (log : List Entry) (d : ℕ) → kept d ≡ true → url_of (blanked kept log) d ≡ url_of log d }
{}

/// The list of documents that is kept for a renderer has each document that is homed there, and no other.
#[tactic(auto, using(crate::proofs::Kept::kept_laws))]
pub fn kept_are_homed()
    ensures every { (t : Tree) (r d : ℕ) → d < t.docs → is_homed t r d ≡ true → is_kept (homed_at t r) d ≡ true }
    ensures only { (t : Tree) (r d : ℕ) → is_kept (homed_at t r) d ≡ true → is_homed t r d ≡ true }
{}

/// Nothing that was not made is anything: no document is active, and none is open to another, before an entry made
/// both; and no navigable is a top-level one.
#[tactic(auto, using(crate::proofs::Unmade::unmade_laws))]
pub fn unmade_is_nothing()
    ensures inactive { (log : List Entry) (d : ℕ) → AreAdmitted log → (tree_of log).docs ≤ d → d < 2 ^ 32 → is_active (tree_of log) d ≡ false }
    ensures sees_none { (log : List Entry) (d other : ℕ) → AreAdmitted log → (tree_of log).docs ≤ d → is_open_to (tree_of log) d other ≡ false }
    ensures unseen { (log : List Entry) (d other : ℕ) → AreAdmitted log → (tree_of log).docs ≤ d → is_open_to (tree_of log) other d ≡ false }
    ensures no_top_level { (t : Tree) (n : ℕ) → t.navs ≤ n → is_top_level t n ≡ false }
{}
