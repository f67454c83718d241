//! Plays a session: one coordinator, a worker for each renderer, and their turns.
//!
//! The coordinator ([`Desk`]) keeps the log. Each worker ([`Worker`]) keeps a replica of what it has heard of it, does
//! the steps of its documents on that replica ([`script_steps::local`]), and asks the coordinator for what concerns others and for its
//! next task. Turns are taken in the session's order and then in rounds ([`play`]). The contracts compare all of this
//! with the single agent of `single_agent`.
#![tactic(auto)]

mod desk;
mod playing;
mod replica;
mod requests;
mod script;
mod worker;
mod writes;

pub use desk::{AskReply, Desk, NextReply, Told};
pub use playing::{Run, play};
pub use replica::Replica;
pub use requests::Replied;
pub use worker::{Turn, Worker};
