//! What a step of a document's script does on what its renderer heard.
#![tactic(auto)]

mod agent;
mod asking;
mod loading;
mod locations;
mod operation;
mod registers;
mod slots;
mod steps;
mod stores;
mod windows;
mod words;

pub use agent_terms::{Act, Answer, OpName, Operand, Page, Performed, Point, Step};
pub use registers::Registers;
pub use steps::local;
pub use stores::Stores;
