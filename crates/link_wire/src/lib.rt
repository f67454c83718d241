//! Frames: what renderers and the coordinator send to each other, as bytes.
//!
//! A frame is a version, a kind, the length of the body in four bytes, and the body: the fields of a request or of a
//! [`Reply`], by its kind. `Requests` in `specs/`, and `Entries` and `Outcomes` in those of `frame_grammar`, list the fields
//! of each kind. A reply that hasn't room for all entries that there are to tell says so, and the request More asks for
//! the rest.
//!
//! A value in range has one spelling, which [`encode_request`] and [`encode_reply`] give; no spelling begins another.
//! [`decode_request`] and [`decode_reply`] take just these spellings, and say of other bytes where and why they are
//! none: the first fault in the order of head and fields ([`Bad`]). However deep data nests, decoding goes no more than
//! sixteen calls deep. A [`FrameReader`] takes frames of requests from a stream in pieces, and a [`Link`] carries a
//! request to the coordinator and brings back its reply.
#![tactic(auto)]

mod bad;
mod entry_reading;
mod entry_writing;
mod frame;
/// Laws over frames. Each function does nothing: its contract is the law.
pub mod laws;
mod link;
mod parts;
mod reader;
mod replies;
mod reply;
mod reply_rows;
mod request_rows;
mod requests;

pub use agent_terms::{ReplyOutcome, Request, Why};
pub use bad::{Bad, DecodeError};
pub use entry_writing::put_entry;
pub use link::{Link, LinkError};
pub use reader::{Fed, FrameReader};
pub use replies::{decode_reply, encode_reply, outcome_kind};
pub use reply::Reply;
pub use reply_rows::{put_outcome, why_number};
pub use requests::{decode_request, encode_request};
