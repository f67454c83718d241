//! At which place of the log a document ended, kept in rows: without a walk over the log (HTML Standard, 7.3, the active document
//! of a navigable, and what is discarded).
//!
//! [`Ends`] is fed each entry of the log as it is appended, and then says of each document that was active just what the
//! definition of `coordinator_rules` says.
#![tactic(auto)]

mod ends;
mod feed;
pub mod laws;

pub use ends::Ends;
