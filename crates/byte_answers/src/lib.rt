//! Answers over bytes alone, for callers that have no types of Rattle: texts come as bytes, and go into a buffer of the
//! caller.
#![tactic(auto)]

mod answer;
mod buffer;
mod messages;
mod texts;
mod urls;

pub use answer::Answer;
pub use buffer::{tell, write_out};
pub use messages::{target_text, tell_sandbox_flags};
pub use texts::{suffixes_of, text_of};
pub use urls::{origin_text_of, page_of, site_text_of, tell_same_origin, tell_same_site};
