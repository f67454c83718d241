//! What a coordinator keeps beside its log, so that it never searches it: a view of the log, what waits at each renderer, the
//! homes of the loaded documents, and where documents ended.
//!
//! [`LogRows`] takes in each entry as it joins the log.
#![tactic(auto)]

mod loads;
mod rows;

pub use rows::LogRows;
