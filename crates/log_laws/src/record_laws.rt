//! Laws of legal records. Each function does nothing: its contract is the law.
ghost use Rattle.agent_laws.specs.Belonging.{RegistersBelong, StoresBelong};
ghost use Rattle.agent_terms.specs.declared.act.Act.{Act};
ghost use Rattle.agent_terms.specs.declared.session.Session.{Session};
ghost use Rattle.single_agent.specs.LegalLog.{IsLegalLog};
ghost use Rattle.single_agent.specs.LegalRecord.{IsLegalRecord};
ghost use Rattle.single_agent.specs.Lengths.{newest_length};
ghost use Rattle.single_agent.specs.Sights.{registers, stores};
ghost use Rattle.std.specs.Prelude.{ℕ, ◌<◌, ◌^◌, length, List};
ghost use Rattle.tree_log.specs.Log.{prefix};
ghost use Rattle.tree_log.specs.Tree.{tree_of};
ghost use Rattle.tree_log.specs.declared.entry.Entry.{Entry};

/// On the log that the newest act of a legal record had heard, the registers of each document hold objects of its group alone,
/// and so do the properties of its objects.
pub fn records_stay_in_their_group()
    ensures registers { (s : Session) (r : ℕ) (log : List Entry) (acts : List Act) → IsLegalLog s log → length log < 2 ^ 30 → IsLegalRecord s r log acts →
        RegistersBelong (tree_of (prefix (newest_length acts) log)) (registers s log acts) }
    ensures properties { (s : Session) (r : ℕ) (log : List Entry) (acts : List Act) → IsLegalLog s log → length log < 2 ^ 30 → IsLegalRecord s r log acts →
        StoresBelong (tree_of (prefix (newest_length acts) log)) (stores s log acts) }
{}
