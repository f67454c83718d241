//! Permission to navigate, familiarity, closing, the choice of a navigable by its name, and the renderer that a new
//! document is given to (HTML Standard, 7.4.2.4, 7.3.1.7 and 7.2.2.1).
//!
//! Each call goes over any [`View`](tree_view::View) and equals its definition in `coordinator_rules` or `tree_log`, on
//! the tree that the view says. None but [`home_for`] takes memory, and none recurses: a tree is walked by parents and
//! by the place of a child among its siblings, so its depth doesn't matter.
#![tactic(auto)]

mod choosing;
mod familiarity;
mod grown;
mod homes;
mod permission;
mod place;
mod searching;

pub use choosing::{Choice, choose};
pub use familiarity::familiar;
pub use homes::home_for;
pub use permission::{may_close, may_navigate};
