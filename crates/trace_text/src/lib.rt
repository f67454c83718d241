//! The texts that a run of a session prints: its log, the record of each renderer, and the line of its status.
//!
//! Each is exactly what the definitions say, byte by byte.
#![tactic(auto)]

mod answer_text;
mod log_lines;
mod record_lines;
mod status;

pub use log_lines::{entry_text, log_text};
pub use record_lines::record_text;
pub use status::{Status, status_text};
