//! A lock that lets those who hold a pass in one at a time, in the order of their tickets, and hands them a state with a
//! history. A pass stands for what its owner has seen of that history.
//!
//! [`Turnstile::new`] gives a pass for each seat. Who goes in by [`Turnstile::enter`] holds the state, whose history is all
//! that the pass has seen and then items of other seats alone; who comes out by [`Turnstile::leave`] has added items of the
//! own seat alone, and has seen the whole. [`Turnstile::close`] takes all passes back and gives the state.
//!
//! Nothing says that a turn ever comes, nor in which order waiters drew their tickets.
#![tactic(auto)]

mod dealing;
mod grows;
mod held;
mod pass;
mod rule;
mod state;
mod steps;
mod turnstile;
mod view;
mod waiting;

pub use grows::Grows;
pub use held::Held;
pub use pass::Pass;
pub use rule::{About, OneAtATime};
pub use turnstile::Turnstile;
pub use view::{Stage, View};
