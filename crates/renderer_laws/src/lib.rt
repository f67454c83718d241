//! That a renderer moves as the one agent does that reads the whole log, though it is told only what it may know.
//!
//! The functions of [`laws`] and [`kept_laws`] do nothing: the contract of each is a law about the definitions of the crates below.
#![tactic(auto)]

pub mod kept_laws;
pub mod laws;
