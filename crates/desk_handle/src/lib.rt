//! A coordinator that stands behind a handle of one pointer, for a caller that has no types of Rattle: what it is given and
//! what it answers are numbers and bytes.
#![tactic(auto)]

mod handle;
mod loose;
mod opening;
mod reading;
mod serving;

pub use handle::Handle;
pub use opening::{free, open, start};
pub use reading::{count_entries, count_renderers, count_told, is_lost, line};
pub use serving::{lose, serve};
