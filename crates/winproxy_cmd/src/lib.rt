//! Plays sessions of windows that live in several renderers.
//!
//! [`command`] does what the words of the program ask for: [`play`] reads a session, plays it as `session_player` does,
//! and prints its log, the record of each renderer and a status line, and [`check`] reads a session and prints what it
//! has. `specs/Command` says what a command answers and prints.
#![tactic(auto)]

mod forms;
mod output;
#[cfg(test)]
mod tests;

pub use forms::{Form, LIMIT, check, command, form_of, play};
pub use trace_text::Status;
