//! The plain words of the agent: steps and their operations, requests and replies, outcomes, acts, pages and sessions.
//!
//! Definitions, texts and frames all speak of these types. Nothing here runs but what spells the names of steps and rules;
//! `specs/Limits` has the limits of sessions and plays.
#![tactic(auto)]

mod act;
mod outcome;
mod request;
mod session;
mod step;

pub use act::{Act, Answer, Ending, Move, Performed, Point, Running, TaskKind, Write};
pub use outcome::{Ask, Op, Outcome, Rule, Ruling};
pub use request::{ReplyOutcome, Request, Why};
pub use session::{Lose, Page, Session};
pub use step::{OpName, Operand, Step};
