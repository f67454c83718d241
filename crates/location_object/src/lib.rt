//! What a document may do on a Location, and what comes of it (HTML Standard, 7.2.4).
//!
//! A Location belongs to one document. What it has in common with a Window stands in [`object_operations::access`]; here
//! are its attributes and its methods. It has no children, and array indices are keys like others.
#![tactic(auto)]

mod attributes;
mod location;
mod operations;
mod sending;

pub use operations::{
    call, define, delete, get, has, is_extensible, own_keys, own_property, prevent_extensions,
    prototype, set, set_prototype, verdict,
};
pub use sending::{assign, assign as replace};
