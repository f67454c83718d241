//! Each function does nothing: its contract is the law.
ghost use Rattle.std.specs.Prelude.{ℕ, ◌≡◌, ◌≤◌, ◌<◌, ◌+◌, List, Some};
ghost use Rattle.agent_terms.specs.Limits.{most_entries};
ghost use Rattle.agent_terms.specs.declared.session.Session.{Session};
ghost use Rattle.desk.specs.Serving.{Coordinator};
ghost use Rattle.renderer.specs.declared.turn.Turn.{Turn};
ghost use Rattle.renderer_laws.specs.Keeping.{IsLegal};
ghost use Rattle.single_agent.specs.Session.{lose_of};
ghost use Rattle.single_agent.specs.Turns.{Turned, ArePlayed, is_served, log_of, next_renderer, record_of};
ghost use Rattle.turn_laws.specs.Playing.{Goes, IsAfter, Seat, StepsOver, TurnIs, number_of};

/// A step of the renderer whose turn it is, over a link that fails at the call which the session names, is its turn: the act and
/// the entries are those that the agent makes on the whole log, and the renderer holds afterwards what the log and its acts say;
/// or it was lost where the session says; or a limit was reached. No reply is a bad one.
pub fn a_step_is_a_turn()
    ensures { (s : Session) (turns : List Turned) (r : ℕ) (x y : Seat) (before after : Coordinator) (turn : Turn) (calls : ℕ) →
        ArePlayed s turns → next_renderer s turns ≡ Some r → r < s.renderers → IsLegal s r (log_of s turns) (record_of r turns) →
        IsAfter s turns before → Goes s turns before r x → y.calls ≡ x.calls + calls →
        StepsOver r (number_of (lose_of s r) x.calls) (is_served (lose_of s r)) x.holds before turn y.holds after calls →
        TurnIs s turns r turn after y }
{}
