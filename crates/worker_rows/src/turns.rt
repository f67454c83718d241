use renderer::Turn;
use std::alloc::{AllocError, Global};

/// The text of a turn.
pub fn turn_text(alloc: Global, turn: Turn) -> Result<String, AllocError> {
    match turn {
        Turn::Acted => String::from_str(alloc, "acted\n"),
        Turn::Idle => String::from_str(alloc, "idle\n"),
        Turn::Stopped => String::from_str(alloc, "stopped\n"),
        Turn::Full { len } => format!(in alloc; "full {len}\n"),
        Turn::ActsFull => String::from_str(alloc, "actsfull\n"),
        Turn::BadReply { place } => format!(in alloc; "badreply {place}\n"),
    }
}
