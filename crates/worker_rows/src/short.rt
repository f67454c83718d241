//! Whether pages are within the limits of frames.

ghost use Rattle.std.specs.Prelude.{◌≡◌};
ghost use Rattle.std.specs.List.{list_all};
ghost use Rattle.plain_data.specs.DataLimits as limits;
ghost use Rattle.step_ranges.specs.Ranges as spec;

use agent_terms::{Operand, Page, Step};
use plain_data::Text;
use session_reading::within_limits;

/// How many steps a script or a handler has at most.
const MOST_STEPS: usize = 200;

/// How many bytes a text has at most.
const MOST_TEXT: usize = 1024;

fn is_short(text: &Text) -> bool
    ensures { result ≡ limits.is_short text.now }
{
    text.as_str().len() <= MOST_TEXT
}

fn is_short_if_any(text: &Option<Text>) -> bool
    ensures { result ≡ spec.is_short_if_any text.now }
{
    match text {
        Some(text) => is_short(text),
        None => true,
    }
}

fn is_operand_short(operand: &Operand) -> bool
    ensures { result ≡ spec.is_operand_short operand.now }
{
    match operand {
        Operand::Register(_) => true,
        Operand::Plain(value) => within_limits(value),
    }
}

fn are_operands_short(operands: &[Operand]) -> bool
    ensures { result ≡ list_all spec.is_operand_short operands.now }
{
    operands.iter().all(|operand| is_operand_short(operand))
}

#[tactic(auto, unfolding(step_ranges::specs::Ranges::is_step_short))]
fn is_step_short(step: &Step) -> bool
    ensures { result ≡ spec.is_step_short step.now }
{
    match step {
        Step::Let { value, .. } | Step::Set { value, .. } => is_operand_short(value),
        Step::Define { value, .. } => match value {
            Some(value) => is_operand_short(value),
            None => true,
        },
        Step::Call { args, .. } => are_operands_short(args.as_slice()),
        Step::Frame { name, .. } => is_short_if_any(name),
        Step::Open { target, .. } | Step::Link { target, .. } => is_short(target),
        Step::Domain { value } => is_short(value),
        _ => true,
    }
}

fn is_each_short(steps: &[Step]) -> bool
    ensures { result ≡ list_all spec.is_step_short steps.now }
{
    steps.iter().all(|step| is_step_short(step))
}

fn are_steps_short(steps: &[Step]) -> bool
    ensures { result ≡ spec.are_steps_short steps.now }
{
    steps.len() <= MOST_STEPS && is_each_short(steps)
}

fn is_page_short(page: &Page) -> bool
    ensures { result ≡ spec.is_page_short page.now }
{
    are_steps_short(page.script.as_slice()) && are_steps_short(page.handler.as_slice())
}

/// Whether pages have no more steps than they may, and the texts and data of each step are within the limits. It takes no memory.
pub fn are_pages_short(pages: &[Page]) -> bool
    ensures { result ≡ spec.are_pages_short pages.now }
{
    pages.iter().all(|page| is_page_short(page))
}
