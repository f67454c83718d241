//! What a document sees of a Window and of a Location, and what each step of a script answers on what its renderer heard.
//!
//! The crate holds definitions, in `specs/`, and a law about them, in [`laws`]. Nothing here runs.
#![tactic(auto)]

pub mod laws;
