//! A reply frame that is written entry by entry: a coordinator tells entries of its log without copying them first.
//!
//! A [`ReplyWriter`] holds the bytes of the frame so far. An entry is told where the reply has room for it, and else the reply
//! is cut. Contracts see a writer as the reply that it would finish.
#![tactic(auto)]

mod news;
mod patching;
mod writer;

pub use writer::{ReplyWriter, Told};
