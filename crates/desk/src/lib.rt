//! The coordinator: it keeps the one log of all changes to the tree of navigables, decides every request, and tells each
//! renderer only what it may know (HTML Standard, 7.3, navigables; that renderers share one log is this project's own).
//!
//! [`Desk::serve`] takes the bytes that a renderer sent, whatever they are, and gives the bytes of the reply. Nothing is
//! assumed of the sender: a document asks for itself alone, at its own home and while it is active.
#![tactic(auto)]

mod answering;
mod asked;
mod desk;
mod item;
pub mod laws;
mod ledger;
mod starts;
mod telling;
mod tellings;

pub use desk::{Desk, PlainDesk};
pub use item::Item;
