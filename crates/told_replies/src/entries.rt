ghost use Rattle.std.specs.Prelude.{◌≡◌, ◌++◌};
ghost use Rattle.std.specs.Option.{option_copied};
ghost use Rattle.request_decisions.specs.Made.{entries_of};
ghost use Rattle.tree_log.specs.Log as spec;

use request_decisions::Made;
use tree_log::{Entry, Log};

/// The entry at a place of the log with the entries of a decision that is still to join it.
#[tactic(auto, using(crate::proofs::Places::of_the_log, crate::proofs::Places::of_the_newest))]
pub fn entry_at<'a>(log: &'a Log, made: &'a Made, place: u32) -> Option<&'a Entry>
    ensures { option_copied result ≡ spec.entry_at (entries_of made.now ++ log.now.entries) place }
{
    let len = log.len();
    if place < len {
        log.at(place)
    } else {
        made_at(made, place - len)
    }
}

#[tactic(auto, unfolding(tree_log::specs::Log::entry_at))]
fn made_at(made: &Made, place: u32) -> Option<&Entry>
    ensures { option_copied result ≡ spec.entry_at (entries_of made.now) place }
{
    match (made, place) {
        (Made::One(entry), 0) => Some(entry),
        (Made::Two { first, .. }, 0) => Some(first),
        (Made::Two { second, .. }, 1) => Some(second),
        _ => None,
    }
}
