//! What the coordinator decides on each request of an active document (HTML Standard, 4.8.5, a frame; 7.2.2.1, open and
//! close; 4.6.4, a link; 7.4.2, navigation; 7.2.2.4, name and opener; 9.3.3, postMessage; 7.1.1.2, the setter of
//! `document.domain`).
//!
//! [`decide`] goes over any [`View`](tree_view::View), and equals the definition `decide` of `coordinator_rules`. Homes
//! come from a [`home_index::Homes`], so no list of documents is walked.
#![tactic(auto)]

mod asking;
mod deciding;
mod decisions;
mod domains;
mod frames;
mod navigating;
mod others;
mod windows;

pub use deciding::{asker_of, decide};
pub use decisions::{Decided, Made};
