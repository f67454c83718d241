//! A renderer: what it heard, the scripts of its documents, and its record of acts.
//!
//! A [`Worker`] makes one step at a time over any [`Link`](link_wire::Link): the next step of the script or handler that runs, on
//! what it heard, or else the next task. Nothing is assumed of the link. The contract of [`Worker::step`] says what a step does
//! by what the link answers, and knows of no coordinator.
#![tactic(auto)]

mod answers;
mod record;
mod state;
mod tasks;
mod turn;
mod worker;

pub use turn::Turn;
pub use worker::Worker;
