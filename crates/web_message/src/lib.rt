//! Messages between windows (HTML Standard, 9.3): the origins that a message is for ([`target_of`]), and the data that
//! it takes of a value ([`clone_of`]); and what a renderer does next, messages among it ([`next_event`]).
#![tactic(auto)]

mod cloning;
mod target;
mod task;
mod tasks;

pub use cloning::{CloneError, clone_of};
pub use target::{TargetError, target_of};
pub use task::{Task, next_task};
pub use tasks::{closing_task, delivery, load_task, next_event};
