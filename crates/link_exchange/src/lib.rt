//! What a renderer hears over any link: a request, and More behind it until no more is to be told.
//!
//! [`exchange`] makes the calls and takes in the news of each reply. Nothing is assumed of the link: bytes that are no reply to
//! the request are refused, with their place. The contract says which calls were made, as the link says of itself, and what
//! was heard; `Courses` in `proofs/` has what follows for a link that tells.
#![tactic(auto)]

mod asking;
mod exchanging;
mod replica;
mod view;

pub use exchanging::{End, exchange};
pub use replica::Replica;
pub use view::EmptyView;
