ghost use Rattle.std.specs.Prelude.{◌≡◌, ◌<◌, ℕ, List, ◌∷◌, true, length};
ghost use Rattle.agent_terms.specs.declared.session.Session.{Session};
ghost use Rattle.agent_terms.specs.declared.act.Act.{Act};
ghost use Rattle.agent_terms.specs.declared.act.Ending.{Ending};
ghost use Rattle.agent_terms.specs.declared.act.Ending.TheVariants.{Done};
ghost use Rattle.agent_terms.specs.Limits.{most_acts};
ghost use Rattle.single_agent.specs.LegalLog.{IsLegalLog};
ghost use Rattle.single_agent.specs.LegalRecord.{IsLegalRecord};
ghost use Rattle.single_agent.specs.Lengths.{is_lost};
ghost use Rattle.single_agent.specs.Session.{lose_of};
ghost use Rattle.single_agent.specs.Turns.{Turned, IsTurn, ArePlayed, EndsBy, GoesOn, HasRoom, LosesAt, calls_of, log_of, record_of};

/// A turn is determined by the turns before it, and so are all turns of a play by their number.
#[tactic(auto, using(crate::proofs::Determined::turn_determined, crate::proofs::Determined::play_determined))]
pub fn turns_are_determined()
    ensures next { (s : Session) (older : List Turned) (t u : Turned) → IsTurn s older t → IsTurn s older u → t ≡ u }
    ensures all { (s : Session) (turns others : List Turned) → length turns ≡ length others → ArePlayed s turns → ArePlayed s others → turns ≡ others }
{}

/// Turns that are played make a legal log, and a legal record of each renderer against it.
#[tactic(auto, using(crate::proofs::Played::legal_log, crate::proofs::Played::legal_record))]
pub fn turns_are_legal()
    ensures log { (s : Session) (turns : List Turned) → ArePlayed s turns → IsLegalLog s (log_of s turns) }
    ensures records { (s : Session) (r : ℕ) (turns : List Turned) → ArePlayed s turns → IsLegalRecord s r (log_of s turns) (record_of r turns) }
{}

/// A play ends in one way: two plays of a session that have ended are the same, and so is how they end.
#[tactic(auto, using(crate::proofs::Ended::one_play, crate::proofs::Ended::one_ending))]
pub fn a_play_ends_in_one_way()
    ensures turns { (s : Session) (turns others : List Turned) (e f : Ending) → ArePlayed s turns → ArePlayed s others → EndsBy s turns e → EndsBy s others f → turns ≡ others }
    ensures ending { (s : Session) (turns : List Turned) (e f : Ending) → EndsBy s turns e → EndsBy s turns f → e ≡ f }
{}

/// The session names the exchange of an act that is lost: as many exchanges stand before it as the session says.
#[tactic(auto, using(crate::proofs::Named::lost_at))]
pub fn a_lost_act_is_the_named_one()
    ensures { (s : Session) (r : ℕ) (turns : List Turned) (act : Act) (older : List Act) → ArePlayed s turns → record_of r turns ≡ act ∷ older → is_lost act ≡ true →
        LosesAt (lose_of s r) (calls_of s (log_of s turns) older) }
{}

/// Where a play is done, and a renderer wasn't lost, the log has room for the entries of an exchange, and the record of that
/// renderer has fewer acts than a record may have.
#[tactic(auto, using(crate::proofs::Rested::done_has_room, crate::proofs::Rested::done_has_few))]
pub fn a_play_that_is_done_has_room()
    ensures log { (s : Session) (turns : List Turned) (r : ℕ) → ArePlayed s turns → EndsBy s turns Done → r < s.renderers → GoesOn turns r →
        HasRoom (log_of s turns) }
    ensures acts { (s : Session) (turns : List Turned) (r : ℕ) → ArePlayed s turns → EndsBy s turns Done → r < s.renderers → GoesOn turns r →
        length (record_of r turns) < most_acts }
{}
