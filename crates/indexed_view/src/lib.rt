//! A view of the tree of navigables whose reads walk no ancestors and no siblings.
//!
//! [`IndexedView`] is a `View` as the plain one, and says the same of each log. Its rows are those of the plain view.
//! Beside them it keeps what the plain view walks for.
#![tactic(auto)]

mod applies;
mod families;
mod index;
mod lists;
mod marks;
mod names;
mod reads;
mod view;

pub use view::IndexedView;
