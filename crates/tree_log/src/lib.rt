//! The log of a session: every change of the tree of navigables, in order, and what it says of the tree.
//!
//! A coordinator keeps one [`Log`]. Contracts see it as a list of entries with the newest one first; the place
//! of an entry is the number of entries before it. The definitions in `specs/` say what such a list means: the
//! tree of navigables (`Tree`), the URLs of documents (`Urls`), the children that can be reached by name
//! (`NamedChildren`), and what a log shows to one who may see only some documents (`Blanking`).
#![tactic(auto)]

mod blanking;
mod entry;
mod homes;
/// Laws over what a log says. Each function does nothing: its contract is the law.
pub mod laws;
mod log;
mod range;

pub use blanking::{blank, kept_for_renderer};
pub use entry::{Cause, Entry, Load, Target, What};
pub use log::Log;
