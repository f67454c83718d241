//! Laws about the renderers that a session names to be lost: how many exchanges they make, and what their loss leaves.
//!
//! Nothing here runs: each function of [`laws`] does nothing, and its contract is a law about the turns of a play.
#![tactic(auto)]

pub mod laws;
