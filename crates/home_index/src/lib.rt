//! The home of a new document without a look at each loaded one: the group and the site of each loaded document in rows,
//! each pair once (HTML Standard, 7.3.2.3, agent clusters keyed by sites).
//!
//! [`Homes`] notes each load as its entry joins the log, and then answers what `home_for` says of that log. An entry that
//! begins no load changes nothing ([`laws`]).
#![tactic(auto)]

mod homes;
mod key;
pub mod laws;

pub use homes::Homes;
