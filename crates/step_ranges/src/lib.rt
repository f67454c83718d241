//! What steps answer and ask stays within the limits of frames.
//!
//! The functions of [`laws`] do nothing: the contract of each is a law about the definitions of the crates below.
//! [`know_request`] shows of a request at hand that a frame spells it.
#![tactic(auto)]

pub mod laws;
mod requests;

pub use requests::know_request;
