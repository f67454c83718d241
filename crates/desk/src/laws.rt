//! Each function does nothing: its contract is the law.
ghost use Rattle.std.specs.Prelude.{ℕ, ◌≡◌, ◌∷◌, [], List, Err, false, true};
ghost use Rattle.coordinator_rules.specs.Decision.{Decision, Rules};
ghost use Rattle.agent_terms.specs.declared.request.ReplyOutcome.TheVariants.{BadFrame};
ghost use Rattle.desk.specs.History.{GrowsBy, log_of};
ghost use Rattle.desk.specs.Refusals.{is_refusal, refused_with};
ghost use Rattle.desk.specs.Serving.{answered, history_after, told_after};
ghost use Rattle.desk.specs.declared.item.Item.{Item};
ghost use Rattle.desk.specs.declared.item.Item.TheVariants.{Entered};
ghost use Rattle.frame_grammar.specs.Cut.{is_telling};
ghost use Rattle.link_wire.specs.Requests.{request_read};
ghost use Rattle.link_wire.specs.declared.bad.Bad.{Bad};
ghost use Rattle.single_agent.specs.LegalLog.{lost_entry};
ghost use Rattle.tree_log.specs.declared.entry.Entry.{Entry};

/// Whatever bytes a renderer sends, what serving it adds to the history names that renderer, and no other; and so does its loss.
pub fn a_history_grows_by_its_renderer()
    ensures serve { (rules : Rules) (items : List Item) (r : ℕ) (bytes : List ℕ) →
        GrowsBy r items (history_after r items (answered rules (log_of items) r bytes)) }
    ensures lose { (items : List Item) (r : ℕ) → GrowsBy r items (Entered (lost_entry r) ∷ items) }
{}

/// Bytes that are no request get their first fault. What is refused, since the bytes are no request, the document isn't the
/// renderer's or isn't active any more, or the log has no room, adds no entry. And in the first two of these cases nothing is
/// told.
pub fn refusals_tell_nothing()
    ensures bad { (rules : Rules) (log : List Entry) (r : ℕ) (bytes : List ℕ) (bad : Bad) → request_read bytes ≡ Err bad →
        answered rules log r bytes ≡ refused_with (BadFrame bad.place bad.why) }
    ensures empty { (rules : Rules) (log : List Entry) (r : ℕ) (bytes : List ℕ) → is_refusal (answered rules log r bytes).outcome ≡ true →
        (answered rules log r bytes).entries ≡ [] }
    ensures untold { (r : ℕ) (log : List Entry) (told : ℕ) (d : Decision) → is_telling d.outcome ≡ false → told_after r log told d ≡ told }
{}
