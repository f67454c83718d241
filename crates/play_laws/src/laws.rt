//! Each function does nothing: its contract is the law.
ghost use Rattle.std.specs.Prelude.{ℕ, ◌≡◌, ◌<◌, length, slice_get, slice_set, Bool, List, [], Some, true, false};
ghost use Rattle.coordinator_rules.specs.Decision.{rules_of};
ghost use Rattle.desk.specs.History.{log_of, told_of};
ghost use Rattle.renderer.specs.Holding.{Holds};
ghost use Rattle.single_agent.specs.LegalRecord.{is_lost_on};
ghost use Rattle.agent_terms.specs.declared.session.Session.{Session};
ghost use Rattle.desk.specs.Serving.{Coordinator};
ghost use Rattle.renderer.specs.declared.turn.Turn.{Turn};
ghost use Rattle.renderer.specs.declared.turn.Turn.TheVariants.{Idle};
ghost use Rattle.single_agent.specs.Lengths.{has_stopped};
ghost use Rattle.single_agent.specs.Session.{lose_of, starts_of};
ghost use Rattle.single_agent.specs.Turns.{Turned, next_renderer};
ghost use Rattle.turn_laws.specs.Playing.{Seat, StepsOver};
ghost use Rattle.play_laws.specs.Stepping.{CanStep, HasStepped};
ghost use Rattle.play_laws.specs.Underway.{AreFresh, IsPlayable, IsUnderway, TurnEnds};

/// A coordinator that opened the start windows and told nothing, and renderers that hold nothing, are a play under way that has had no
/// turn.
pub fn a_play_begins()
    ensures { (s : Session) (c : Coordinator) (seats : List Seat) → c.rules ≡ rules_of s → log_of c.history ≡ starts_of s →
        ((r : ℕ) → told_of c.history r ≡ 0) → c.spent ≡ false → length seats ≡ s.renderers → AreFresh s seats → IsUnderway s [] c seats }
{}

/// In a play under way a renderer that goes on can make a step.
pub fn a_renderer_that_goes_on_can_step()
    ensures { (s : Session) (turns : List Turned) (c : Coordinator) (seats : List Seat) (n : ℕ) (x : Seat) →
        IsUnderway s turns c seats → slice_get seats n ≡ Some x → n < length seats → has_stopped x.holds.acts ≡ false → CanStep n x c }
{}

/// A step of a renderer appends no loss of it.
pub fn a_step_appends_no_loss()
    ensures { (r number : ℕ) (served : Bool) (w v : Holds) (before after : Coordinator) (turn : Turn) (calls : ℕ) →
        StepsOver r number served w before turn v after calls → is_lost_on r (log_of before.history) ≡ false → is_lost_on r (log_of after.history) ≡ false }
{}

/// Where a play is under way and it is the turn of a renderer that goes on, its step, and its loss where the link failed, leaves a
/// play under way that has one turn more; or a limit was met, and the records are as before. No reply is a bad one.
pub fn a_turn_keeps_a_play_underway()
    ensures { (s : Session) (turns : List Turned) (before : Coordinator) (seats : List Seat) (n : ℕ) (x : Seat) →
        IsPlayable s → IsUnderway s turns before seats → next_renderer s turns ≡ Some n → slice_get seats n ≡ Some x → n < length seats →
        (y : Seat) (after : Coordinator) (turn : Turn) → has_stopped x.holds.acts ≡ false → y.holds.renderer ≡ n →
        HasStepped n (lose_of s n) x before turn y after → TurnEnds s turns n seats turn after (slice_set seats n y) }
{}

/// A renderer that was lost does nothing at its turn.
pub fn a_lost_renderer_rests()
    ensures { (s : Session) (turns : List Turned) (before : Coordinator) (seats : List Seat) (n : ℕ) (x : Seat) →
        IsPlayable s → IsUnderway s turns before seats → next_renderer s turns ≡ Some n → slice_get seats n ≡ Some x → n < length seats →
        has_stopped x.holds.acts ≡ true → TurnEnds s turns n seats Idle before seats }
{}
