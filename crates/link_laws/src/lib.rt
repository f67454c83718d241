//! What an exchange comes to over the links of a coordinator that no one else talks to meanwhile.
//!
//! The functions of [`laws`] do nothing: the contract of each is a law about the definitions of the crates below.
#![tactic(auto)]

pub mod laws;
