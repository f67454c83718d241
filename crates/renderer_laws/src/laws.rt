//! Each function does nothing: its contract is the law.
ghost use Rattle.std.specs.Prelude.{ℕ, ◌≡◌, List};
ghost use Rattle.tree_log.specs.declared.entry.Entry.{Entry};
ghost use Rattle.tree_log.specs.Log.{prefix};
ghost use Rattle.agent_terms.specs.declared.act.Act.{Act};
ghost use Rattle.agent_terms.specs.declared.session.Session.{Session};
ghost use Rattle.single_agent.specs.Lengths.{newest_length};
ghost use Rattle.single_agent.specs.NextMove.{next_move};
ghost use Rattle.single_agent.specs.Running.{step_left};
ghost use Rattle.single_agent.specs.Sights.{registers, stores, stores_after};
ghost use Rattle.renderer.specs.Holding.{Holds, left_in, move_in, stores_by};
ghost use Rattle.renderer_laws.specs.Keeping.{IsLegal, Keeps};

/// What a renderer does next by what it was told, is what the agent does on the whole log as the document that acts may see it;
/// and so are the properties of objects that its step leaves.
pub fn a_renderer_moves_as_the_agent()
    ensures left { (s : Session) (r : ℕ) (log : List Entry) (acts : List Act) (told : ℕ) (w : Holds) → IsLegal s r log acts → Keeps s r log acts told w →
        left_in w ≡ step_left s log acts }
    ensures moves { (s : Session) (r : ℕ) (log : List Entry) (acts : List Act) (told : ℕ) (w : Holds) → IsLegal s r log acts → Keeps s r log acts told w →
        move_in w ≡ next_move s log acts }
    ensures properties { (s : Session) (r : ℕ) (log : List Entry) (acts : List Act) (told : ℕ) (w : Holds) → IsLegal s r log acts → Keeps s r log acts told w →
        stores_by (left_in w) w ≡ stores_after (step_left s log acts) (prefix (newest_length acts) log) (registers s log acts) (stores s log acts) }
{}
