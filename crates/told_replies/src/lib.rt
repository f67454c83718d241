//! Replies that tell a renderer what it wasn't told of the log, written from the log itself: no entry is copied but into a
//! frame. A renderer sees no URL and no message of a document whose home is another.
#![tactic(auto)]

mod entries;
mod replies;
mod telling;

pub use replies::{Written, write_reply};
