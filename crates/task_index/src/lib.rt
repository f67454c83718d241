//! What waits at each renderer, kept in rows: a renderer's next task without a walk over the log (HTML Standard, 8.1.7, event
//! loops).
//!
//! [`Waiting`] is fed each entry of the log as it is appended, and then says of each renderer just what
//! [`web_message::next_event`] says.
#![tactic(auto)]

mod ends;
mod feed;
pub mod laws;
mod places;
mod row;
mod tasks;
mod waiting;

pub use waiting::Waiting;
