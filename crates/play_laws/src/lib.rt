//! That a play stays under way from turn to turn.
//!
//! The functions of [`laws`] do nothing: the contract of each is a law about the definitions of the crates below.
#![tactic(auto)]

pub mod laws;
