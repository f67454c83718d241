//! What is known of the tree of navigables where the entries of a log were heard: a replica of the log's tree, an
//! entry at a time.
//!
//! [`View`] has every read of the tree, each of them equal to the definition in `tree_log`. [`PlainView`] keeps a row
//! for each navigable and each document.
#![tactic(auto)]

mod admits;
mod plain;
mod view;

pub use plain::PlainView;
pub use view::View;
