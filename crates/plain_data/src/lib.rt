//! Plain data: the values that a message carries from one window to another.
//!
//! A message holds what the HTML Standard's StructuredSerialize makes of plain values: undefined, null, truth
//! values, whole numbers, texts, lists and records ([`Data`]). This crate compares such values ([`same`]), copies
//! them ([`copy`], and `clone`) and writes them as compact text ([`text_of`]), each exactly, for every value that
//! memory holds. [`Text`] and [`Items`] are a `String` and a `Vec` that contracts see as their content alone, so
//! that in contracts `≡` on [`Data`] is equality of trees.
#![tactic(auto)]

mod ascending;
mod data;
mod items;
mod text;
mod writing;

pub use ascending::keys_ascend;
pub use data::{Data, copy, same};
pub use items::Items;
pub use text::Text;
pub use writing::{quote, text_of};
