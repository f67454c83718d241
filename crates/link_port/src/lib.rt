//! Links: the ways of a renderer to the coordinator.
//!
//! A [`DirectLink`] is one over a coordinator that it alone uses. A [`FailingLink`] passes calls on to another link, and fails
//! at one of them. A [`GatedLink`] asks a [`Gate`] before each call.
#![tactic(auto)]

mod direct;
mod exchanging;
mod failing;
mod gated;
mod gates;
mod spelled;
mod step;
#[cfg(test)]
mod tests;

pub use direct::DirectLink;
pub use failing::FailingLink;
pub use gated::GatedLink;
pub use gates::{CheckGate, Gate, OpenGate};
