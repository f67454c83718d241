//! Each function does nothing: its contract is the law.
ghost use Rattle.agent_laws.specs.Sights.{sight_of};
ghost use Rattle.agent_terms.specs.declared.act.Performed.TheVariants.{Answer, Ask};
ghost use Rattle.agent_terms.specs.declared.outcome.Outcome.TheVariants as outcome;
ghost use Rattle.agent_terms.specs.declared.request.Request.{Request};
ghost use Rattle.agent_terms.specs.declared.step.Step.{Step};
ghost use Rattle.coordinator_rules.specs.Decision.{asker_of};
ghost use Rattle.exchange_laws.specs.Fit.{AreFit};
ghost use Rattle.object_access.specs.Registers.{task_written, unset};
ghost use Rattle.object_access.specs.StepAnswer.{Sight, first_stores, perform, step_stores};
ghost use Rattle.agent_laws.specs.Actors.{has_no_asker};
ghost use Rattle.std.specs.Prelude.{ℕ, ◌≡◌, ◌<◌, ◌^◌, ◌++◌, false, length, List, true};
ghost use Rattle.step_ranges.specs.Ranges.{AreAtHand, StoresAtHand, is_at_hand, is_request_short, is_step_short};
ghost use Rattle.tree_log.specs.Admits.{AreAdmitted};
ghost use Rattle.tree_log.specs.Tree.{tree_of};
ghost use Rattle.tree_log.specs.declared.entry.Entry.{Entry};
ghost use Rattle.tree_log.specs.declared.entry.What.{What};
ghost use Rattle.window_props.specs.History.{Store};
ghost use Rattle.window_props.specs.declared.platform.Object.{Object};
ghost use Rattle.window_props.specs.declared.value.Value.{Value};

/// On a log whose entries were admitted and frames can spell, where registers and properties hold objects that are
/// there and data within its limits, a short step of a document that is there answers with such a value, leaves such
/// properties, and asks for its document, within the limits of requests.
pub fn steps_stay_in_range()
    ensures answers { (log : List Entry) (registers : ℕ → List ℕ → Value) (stores : Object → Store) (d : ℕ) (s : Step) (v : Value) →
        AreAdmitted log → AreFit log → d < (tree_of log).docs → AreAtHand (tree_of log) registers → StoresAtHand (tree_of log) stores →
        is_step_short s ≡ true → perform (sight_of log registers stores) d s ≡ Answer (outcome.Value v) → is_at_hand (tree_of log) v ≡ true }
    ensures properties { (log : List Entry) (registers : ℕ → List ℕ → Value) (stores : Object → Store) (d : ℕ) (s : Step) →
        AreAdmitted log → AreFit log → d < (tree_of log).docs → AreAtHand (tree_of log) registers → StoresAtHand (tree_of log) stores →
        is_step_short s ≡ true → StoresAtHand (tree_of log) (step_stores (sight_of log registers stores) d s) }
    ensures asks { (log : List Entry) (registers : ℕ → List ℕ → Value) (stores : Object → Store) (d : ℕ) (s : Step) (q : Request) →
        AreAdmitted log → AreFit log → d < (tree_of log).docs → AreAtHand (tree_of log) registers → StoresAtHand (tree_of log) stores →
        is_step_short s ≡ true → perform (sight_of log registers stores) d s ≡ Ask q → is_request_short q ≡ true }
    ensures asker { (log : List Entry) (registers : ℕ → List ℕ → Value) (stores : Object → Store) (d : ℕ) (s : Step) (q : Request) →
        perform (sight_of log registers stores) d s ≡ Ask q → (has_no_asker q ≡ false) × (asker_of q ≡ d) }
{}

/// What is at hand stays so as the log grows. Nothing else is at hand at first. What a message writes to registers is at hand.
pub fn values_stay_in_range()
    ensures first { (log : List Entry) → AreAtHand (tree_of log) unset }
    ensures first_properties { (log : List Entry) → StoresAtHand (tree_of log) first_stores }
    ensures later { (more log : List Entry) (v : Value) → AreAdmitted (more ++ log) → is_at_hand (tree_of log) v ≡ true →
        is_at_hand (tree_of (more ++ log)) v ≡ true }
    ensures properties_later { (more log : List Entry) (stores : Object → Store) → AreAdmitted (more ++ log) →
        StoresAtHand (tree_of log) stores → StoresAtHand (tree_of (more ++ log)) stores }
    ensures message { (log : List Entry) (what : What) (registers : ℕ → List ℕ → Value) → AreAdmitted log → AreFit log →
        AreAtHand (tree_of log) registers → AreAtHand (tree_of log) (task_written log what registers) }
{}

/// A step that asks the coordinator changes no property.
pub fn asking_changes_no_property()
    ensures { (s : Sight) (d : ℕ) (st : Step) (q : Request) → perform s d st ≡ Ask q → step_stores s d st ≡ s.stores }
{}
