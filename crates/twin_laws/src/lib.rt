//! Laws about two logs that a renderer can't tell apart, and about two runs that leave such logs.
//!
//! Nothing here runs: each function of [`laws`] does nothing, and its contract is a law about the definitions of the
//! crates below.
#![tactic(auto)]

pub mod laws;
