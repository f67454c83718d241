//! That a step of a renderer, over a link to a coordinator that no one else talks to meanwhile, is a turn of the one agent.
//!
//! The functions of [`laws`] do nothing: the contract of each is a law about the definitions of the crates below.
#![tactic(auto)]

pub mod laws;
