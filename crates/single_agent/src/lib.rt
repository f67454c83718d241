//! The single agent: what one agent that reads the whole log does next, and which logs and records are legal.
//!
//! The crate holds definitions, in `specs/`, and laws about them ([`laws`]). Nothing here runs: the crates above answer
//! and decide, and their contracts cite these definitions.
#![tactic(auto)]

pub mod laws;
