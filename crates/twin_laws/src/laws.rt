//! Each function does nothing: its contract is the law.
ghost use Rattle.twin_laws.specs.Alike.{AreAlikeStarts, IsAlike};
ghost use Rattle.twin_laws.specs.Twins.{TwinLogs, HomesStay};
ghost use Rattle.coordinator_rules.specs.Told.{told_log};
ghost use Rattle.twin_laws.specs.Worlds.{Event, AreAlike, replies};
ghost use Rattle.coordinator_rules.specs.Decision.{Rules, rules_of, exchange};
ghost use Rattle.single_agent.specs.LegalLog.{lost_entry};
ghost use Rattle.single_agent.specs.Session.{starts_of};
ghost use Rattle.agent_terms.specs.declared.request.Request.{Request};
ghost use Rattle.agent_terms.specs.declared.session.Session.{Session};
ghost use Rattle.std.specs.Prelude.{ℕ, ◌≡◌, ◌+◌, ◌++◌, ◌∷◌, [], List};
ghost use Rattle.tree_log.specs.Admits.{AreAdmitted};
ghost use Rattle.tree_log.specs.Tree.{tree_of};
ghost use Rattle.tree_log.specs.declared.entry.Entry.{Entry};

/// Each message of an admitted log is for a document that is there by then, and documents keep their homes. Whatever is asked,
/// and whatever renderer is lost, that stays so.
pub fn documents_keep_their_homes()
    ensures admitted { (log : List Entry) → AreAdmitted log → HomesStay log }
    ensures exchange { (rules : Rules) (log : List Entry) (r : ℕ) (q : Request) → HomesStay log → HomesStay ((exchange rules log r q).entries ++ log) }
    ensures loss { (log : List Entry) (r : ℕ) → HomesStay log → HomesStay (lost_entry r ∷ log) }
{}

/// Twin logs for a renderer have one tree, and it is told the same of both. Alike requests of any renderer on them have one
/// outcome, and leave twin logs, where documents keep their homes.
pub fn twin_logs()
    ensures tree { (r : ℕ) (left right : List Entry) → TwinLogs r left right → tree_of left ≡ tree_of right }
    ensures told { (r : ℕ) (left right : List Entry) → TwinLogs r left right → told_log r left ≡ told_log r right }
    ensures exchange { (rules : Rules) (left right : List Entry) (r x : ℕ) (q other : Request) →
        TwinLogs r left right → HomesStay left → IsAlike rules left right r x q other →
        ((exchange rules left x q).outcome ≡ (exchange rules right x other).outcome)
        × TwinLogs r ((exchange rules left x q).entries ++ left) ((exchange rules right x other).entries ++ right) }
{}

/// Whatever the renderers do that differs only in what one of them isn't told, the replies to this one are the same: on twin
/// logs whose documents keep their homes, and so in two sessions whose start windows it can't tell apart.
pub fn two_runs()
    ensures logs { (rules : Rules) (r : ℕ) (events others : List Event) (left right : List Entry) (heard : ℕ) →
        AreAlike rules r events others left right → TwinLogs r left right → HomesStay left →
        replies rules r events (record { log = left; heard = heard }) ≡ replies rules r others (record { log = right; heard = heard }) }
    ensures starts { (s other : Session) (r : ℕ) → rules_of s ≡ rules_of other →
        AreAlikeStarts (rules_of s) r [] s.start other.start → TwinLogs r (starts_of s) (starts_of other) }
    ensures sessions { (s other : Session) (r : ℕ) (events others : List Event) → rules_of s ≡ rules_of other →
        AreAlikeStarts (rules_of s) r [] s.start other.start →
        AreAlike (rules_of s) r events others (starts_of s) (starts_of other) →
        replies (rules_of s) r events (record { log = starts_of s; heard = 0 })
        ≡ replies (rules_of other) r others (record { log = starts_of other; heard = 0 }) }
{}
