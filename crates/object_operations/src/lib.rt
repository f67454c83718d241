//! What a document may do on an object that it meets, and what comes of it: on a Window through its WindowProxy, and on a
//! Location (HTML Standard, 7.2.3 and 7.2.4).
//!
//! What the two have in common stands here once, over [`Met`]: [`access`] has the operations, [`go`] sends a Location to
//! a text, and [`values`] has the values that attributes and methods give.
#![tactic(auto)]

pub mod access;
mod going;
mod met;
pub mod values;

pub use going::{go, set_href};
pub use met::Met;
