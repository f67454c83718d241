ghost use Rattle.std.specs.Prelude.{◌≡◌};
ghost use Rattle.link_port.specs.Steps.{pending_of, pending_after};

use agent_terms::ReplyOutcome;

/// A step whose replies so far leave more to be told.
#[derive(Drop)]
pub(crate) struct Step {
    /// The outcome of its first reply.
    pub outcome: ReplyOutcome,
    /// How many entries had been heard before it.
    pub older: u32,
}

/// The step that is under way after a reply, where so many entries had been heard before it: by the step before, whether the
/// request asked for the rest of a reply, and the reply's outcome, if it left more to be told.
pub(crate) fn next_step(
    step: Option<Step>,
    older: u32,
    is_more: bool,
    left: Option<ReplyOutcome>,
) -> Option<Step>
    ensures { pending_of result ≡ pending_after older (pending_of step) is_more left }
{
    let outcome = left?;
    match step {
        Some(step) if is_more => Some(step),
        _ => Some(Step { outcome, older }),
    }
}
