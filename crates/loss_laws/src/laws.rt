//! Laws of losses. Each function does nothing: its contract is the law.
ghost use Rattle.agent_terms.specs.declared.act.Act.{Act};
ghost use Rattle.agent_terms.specs.declared.act.Ending.TheVariants.{Done};
ghost use Rattle.agent_terms.specs.declared.session.Lose.{Lose};
ghost use Rattle.agent_terms.specs.declared.session.Session.{Session};
ghost use Rattle.loss_laws.specs.Kept.{kept_acts};
ghost use Rattle.single_agent.specs.LegalLog.{lost_entry};
ghost use Rattle.single_agent.specs.LegalRecord.{LegalActs, about, and_lost, is_lost_on, IsLegalRecord};
ghost use Rattle.single_agent.specs.Lengths.{has_stopped, is_lost};
ghost use Rattle.single_agent.specs.Session.{lose_of};
ghost use Rattle.single_agent.specs.Turns.{Turned, ArePlayed, EndsBy, IsTurn, calls_of, is_served, log_of, record_of};
ghost use Rattle.std.specs.List.{list_any};
ghost use Rattle.std.specs.Prelude.{ℕ, ◌≡◌, ◌+◌, ◌<◌, ◌≤◌, ◌∷◌, [], false, true, List, None, Some};
ghost use Rattle.tree_log.specs.declared.entry.Entry.{Entry};

/// Only the newest act of a legal record is lost: none before it is.
pub fn a_lost_act_is_the_newest()
    ensures { (s : Session) (r : ℕ) (log : List Entry) (act : Act) (older : List Act) → IsLegalRecord s r log (act ∷ older) →
        list_any is_lost older ≡ false }
{}

/// A renderer that the session names makes fewer exchanges, by its acts that weren't lost, than the number of the one that is
/// to be lost.
#[tactic(auto, using(crate::proofs::Fewer::fewer_calls))]
pub fn a_named_renderer_makes_fewer_exchanges()
    ensures { (s : Session) (turns : List Turned) (r : ℕ) (l : Lose) → ArePlayed s turns → lose_of s r ≡ Some l → 1 ≤ l.call →
        calls_of s (log_of s turns) (kept_acts (record_of r turns)) < l.call }
{}

/// Where a play is done, and a renderer made all exchanges before the one that is to be lost unserved, it was lost: in the last
/// round each renderer that hadn't stopped asked for a task, and that exchange would have been the lost one.
#[tactic(auto, using(crate::proofs::Come::come_is_lost))]
pub fn a_renderer_whose_call_has_come_is_lost()
    ensures { (s : Session) (turns : List Turned) (r : ℕ) (l : Lose) → ArePlayed s turns → EndsBy s turns Done → r < s.renderers →
        lose_of s r ≡ Some l → l.served ≡ false → calls_of s (log_of s turns) (kept_acts (record_of r turns)) + 1 ≡ l.call →
        has_stopped (record_of r turns) ≡ true }
{}

/// An exchange that is lost unserved leaves no entry: the turn whose act is lost makes the loss of its renderer and nothing
/// else. So the log's entries about a renderer are those of its acts that weren't lost, and then its loss where it was lost.
#[tactic(auto, using(crate::proofs::Unserved::loss_alone, crate::proofs::Unserved::kept_entries))]
pub fn an_unserved_loss_leaves_no_entry()
    ensures turn { (s : Session) (older : List Turned) (t : Turned) (act : Act) → IsTurn s older t →
        is_served (lose_of s t.renderer) ≡ false → t.act ≡ Some act → is_lost act ≡ true → t.own ≡ lost_entry t.renderer ∷ [] }
    ensures entries { (s : Session) (turns : List Turned) (r : ℕ) → ArePlayed s turns → is_served (lose_of s r) ≡ false →
        (mine : List Entry) × LegalActs s r (log_of s turns) (kept_acts (record_of r turns)) mine
        × (about r (log_of s turns) ≡ and_lost r (record_of r turns) mine) }
{}

/// A renderer that the session doesn't name is never lost: no act of its record is, and the log holds no loss of it.
#[tactic(auto, using(crate::proofs::Unnamed::no_act_lost, crate::proofs::Unnamed::not_lost_on))]
pub fn a_renderer_that_is_not_named_is_never_lost()
    ensures acts { (s : Session) (turns : List Turned) (r : ℕ) → ArePlayed s turns → lose_of s r ≡ None →
        list_any is_lost (record_of r turns) ≡ false }
    ensures log { (s : Session) (turns : List Turned) (r : ℕ) → ArePlayed s turns → lose_of s r ≡ None →
        is_lost_on r (log_of s turns) ≡ false }
{}
