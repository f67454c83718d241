//! Laws about whole logs: homes, what renderers are told, messages, and the logs that come of plays.
//!
//! Nothing here runs: each function of [`laws`], [`message_laws`] and [`record_laws`] does nothing, and its contract is a law about the
//! definitions of the crates below.
#![tactic(auto)]

pub mod laws;
pub mod message_laws;
pub mod record_laws;
