//! Frames for callers that have no types of Rattle: a request and a reply as numbers, the texts in them as bytes, and requests
//! written from both.
#![tactic(auto)]

mod numbers;
mod parts;
mod reading;
mod replies;
mod writing;

pub use numbers::{FrameFault, ReplyNumbers, RequestNumbers};
pub use reading::{read_request, request_text};
pub use replies::{read_reply, reply_line};
pub use writing::write_request;
