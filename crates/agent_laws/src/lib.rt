//! Laws about what one agent that reads the whole log decides and answers, which the proofs of the program rest on.
//!
//! Nothing here runs: each function of [`laws`] does nothing, and its contract is a law about the definitions of the
//! crates below.
#![tactic(auto)]

pub mod laws;
