//! What the coordinator decides: permission to navigate, familiarity, the choice of a navigable, the next task of a
//! renderer, and what one exchange gives.
//!
//! The crate holds definitions, in `specs/`. Nothing here runs.
#![tactic(auto)]
