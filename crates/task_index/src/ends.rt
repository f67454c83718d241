ghost use Rattle.std.specs.Prelude.{◌≡◌, ◌==◌, ◌&&◌, ◌||◌, ◌<◌, ℕ, length, OnOk, OnErr};
ghost use Rattle.task_index.specs.Fed.{is_message_to, over_at};

use std::alloc::AllocError;
use tree_log::What;

/// Whether the message that stands at a place is over.
pub fn is_over(over: &[bool], place: u32) -> bool
    ensures { result ≡ over_at over.now place }
{
    let place = place as usize;
    place < over.len() && over[place]
}

/// Notes that the message that stands at a place is over. After an `Err` it says of each what it said before.
pub fn set_over(over: &mut Vec<bool>, place: u32) -> Result<(), AllocError>
    ensures ok { OnOk result ((other : ℕ) → over_at over.new.items other ≡ (place == other) || over_at over.old.items other) }
    ensures err { OnErr result ((other : ℕ) → over_at over.new.items other ≡ over_at over.old.items other) }
{
    reach(over, place)?;
    over[place as usize] = true;
    Ok(())
}

/// Makes room up to a place.
fn reach(over: &mut Vec<bool>, place: u32) -> Result<(), AllocError>
    ensures same { (other : ℕ) → over_at over.new.items other ≡ over_at over.old.items other }
    ensures there { OnOk result (place < length over.new.items) }
{
    while over.len() <= place as usize {
        over.push(false)?;
    }
    Ok(())
}

/// The message that this entry posted, at the place `post`, has its end, if it is one to this document.
pub fn end_message(over: &mut Vec<bool>, what: &What, doc: u32, post: u32) -> Result<(), AllocError>
    ensures ok { OnOk result ((other : ℕ) → over_at over.new.items other ≡ (is_message_to doc what.now && post == other) || over_at over.old.items other) }
    ensures err { OnErr result ((other : ℕ) → over_at over.new.items other ≡ over_at over.old.items other) }
{
    if is_message_to(what, doc) {
        set_over(over, post)
    } else {
        Ok(())
    }
}

fn is_message_to(what: &What, doc: u32) -> bool
    ensures { result ≡ is_message_to doc what.now }
{
    match what {
        What::Post { to, .. } => *to == doc,
        _ => false,
    }
}
