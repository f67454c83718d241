//! Laws of what an exchange of the coordinator can append, whatever a renderer sent.
//!
//! Nothing here runs: each function of [`laws`] does nothing, and its contract is a law about the definitions of the
//! crates below.
#![tactic(auto)]

pub mod laws;
