//! What a renderer holds after each kind of turn: again what the log and its acts say. Each function does nothing: its contract
//! is the law.
ghost use Rattle.std.specs.Prelude.{ℕ, ◌≡◌, ◌+◌, ◌∷◌, ◌++◌, [], List, Some, length};
ghost use Rattle.tree_log.specs.declared.entry.Entry.{Entry};
ghost use Rattle.tree_log.specs.declared.entry.What.{What};
ghost use Rattle.tree_log.specs.Log.{entry_at, prefix};
ghost use Rattle.agent_terms.specs.declared.act.Act.{Act};
ghost use Rattle.agent_terms.specs.declared.act.Act.TheVariants.{Step as StepAct, Task};
ghost use Rattle.agent_terms.specs.declared.act.Answer.{Answer};
ghost use Rattle.agent_terms.specs.declared.act.Answer.TheVariants as answer;
ghost use Rattle.agent_terms.specs.declared.act.Move.TheVariants.{Answers, Asks, Takes};
ghost use Rattle.agent_terms.specs.declared.act.Point.{Point};
ghost use Rattle.agent_terms.specs.declared.outcome.Outcome.{Outcome};
ghost use Rattle.agent_terms.specs.declared.request.Request.{Request};
ghost use Rattle.agent_terms.specs.declared.session.Session.{Session};
ghost use Rattle.agent_terms.specs.declared.step.OpName.{OpName};
ghost use Rattle.coordinator_rules.specs.Decision.{rules_of, exchange};
ghost use Rattle.coordinator_rules.specs.NextTask.{next_task, task_entry};
ghost use Rattle.coordinator_rules.specs.Told.{told_log};
ghost use Rattle.single_agent.specs.LegalRecord.{IsLegalRecord};
ghost use Rattle.single_agent.specs.Lengths.{newest_length};
ghost use Rattle.single_agent.specs.NextAct.{answer_of, kind_of};
ghost use Rattle.single_agent.specs.NextMove.{next_move};
ghost use Rattle.single_agent.specs.Running.{step_left};
ghost use Rattle.single_agent.specs.Sights.{registers, stores, stores_after};
ghost use Rattle.renderer.specs.Holding.{Holds, fresh, hearing, left_in, move_in, resting, stepped, stores_by, taken};
ghost use Rattle.renderer_laws.specs.Keeping.{IsLegal, Keeps};

/// Before its first turn a renderer holds nothing, which is what any log and no acts say.
pub fn a_renderer_begins_with_nothing()
    ensures { (s : Session) (r : ℕ) (log : List Entry) → Keeps s r log [] 0 (fresh r s.pages) }
{}

/// A renderer has a step left as the agent has, which leaves it the same properties, and the step answers at once. Then it
/// holds what the same log and one more act say, and has heard no more than before.
pub fn a_renderer_keeps_a_step_that_answers()
    ensures { (s : Session) (r : ℕ) (log : List Entry) (acts : List Act) (told doc : ℕ) (point : Point) (op : OpName) (o : Outcome) (w v : Holds) →
        Keeps s r log acts told w →
        left_in w ≡ step_left s log acts →
        stores_by (left_in w) w ≡ stores_after (step_left s log acts) (prefix (newest_length acts) log) (registers s log acts) (stores s log acts) →
        next_move s log acts ≡ Answers doc point op o →
        v ≡ record (stepped doc point op (answer.Outcome o) (left_in w) w) { stores = stores_by (left_in w) w } →
        Keeps s r log (StepAct (newest_length acts) doc point op (answer.Outcome o) ∷ acts) told v }
{}

/// A renderer moves as the agent does, and its step asks. Once that was answered, and all of the log heard with the entries of
/// the exchange, it holds what that log and one more act say. It leaves all properties as they were, and so does the agent.
pub fn a_renderer_keeps_a_step_that_asks()
    ensures { (s : Session) (r : ℕ) (log own : List Entry) (acts : List Act) (told doc : ℕ) (point : Point) (op : OpName) (q : Request) (given : Answer) (w v : Holds) →
        IsLegal s r log acts → Keeps s r log acts told w →
        left_in w ≡ step_left s log acts →
        move_in w ≡ next_move s log acts →
        stores_by (left_in w) w ≡ stores_after (step_left s log acts) (prefix (newest_length acts) log) (registers s log acts) (stores s log acts) →
        next_move s log acts ≡ Asks doc point op q →
        own ≡ (exchange (rules_of s) log r q).entries →
        answer_of op (exchange (rules_of s) log r q).outcome ≡ Some given →
        v ≡ stepped doc point op given (left_in w) (hearing (told_log r (own ++ log)) w) →
        Keeps s r (own ++ log) (StepAct (length (own ++ log)) doc point op given ∷ acts) (length (own ++ log)) v }
{}

/// A renderer takes its next task: a document is committed, a message fires or lapses, or a window is gone. Once it has heard
/// all of the log with the task's entry, it holds what that log and one more act say. What it is told is enough for that, also
/// of the message that fires.
pub fn a_renderer_keeps_a_task()
    ensures { (s : Session) (r : ℕ) (log : List Entry) (acts : List Act) (told : ℕ) (what : What) (entry : Entry) (w v : Holds) →
        IsLegal s r log acts → Keeps s r log acts told w →
        next_task log r ≡ Some what →
        entry_at (told_log r (task_entry r what ∷ log)) (length log) ≡ Some entry →
        v ≡ taken (length log) entry (hearing (told_log r (task_entry r what ∷ log)) w) →
        Keeps s r (task_entry r what ∷ log) (Task (length log + 1) (kind_of what) (length log) ∷ acts) (length log + 1) v }
{}

/// A renderer has no step left and makes no act. Once it has heard all of the log, it holds what the log and the same acts say,
/// and nothing runs.
pub fn a_renderer_keeps_what_it_hears()
    ensures { (s : Session) (r : ℕ) (log : List Entry) (acts : List Act) (told : ℕ) (w v : Holds) →
        IsLegalRecord s r log acts → Keeps s r log acts told w →
        next_move s log acts ≡ Takes →
        v ≡ resting (hearing (told_log r log) w) →
        Keeps s r log acts (length log) v }
{}

/// Entries that follow the log, as others add them, change nothing of what a renderer holds, nor of what its acts say.
pub fn a_renderer_keeps_in_turns_of_others()
    ensures { (s : Session) (r : ℕ) (more log : List Entry) (acts : List Act) (told : ℕ) (w : Holds) →
        IsLegalRecord s r log acts → Keeps s r log acts told w → Keeps s r (more ++ log) acts told w }
{}
