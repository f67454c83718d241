//! Readers of JSON values: each gives what a value is, or the first refusal with the path to its place.
//!
//! An object is read as a [`Form`], field by field, each to its end before the next, a list item by item ([`list_of`]),
//! and last the object is searched for fields that weren't read ([`Form::ends`]). A refusal is made at its own place, and
//! each reader above adds one [`Segment`] to its [`Path`], as in `pages[0].script[2].url`.
//!
//! `specs/Reading` and `specs/Forms` define what each reader gives, as a function of the tree that `serde_json` promises
//! for a text (`Gives` of `specs/Refusing` ties the two together: only `NoMemory` is left open). `plain_data` has the
//! limits of plain data, `specs/PlainData` the data that a tree is, and [`laws`] what holds of the definitions.
#![tactic(auto)]

mod data;
mod error;
mod form;
pub mod laws;
mod limits;
mod name;
mod path;
mod reading;

pub use data::read_data;
pub use error::{
    SessionError, missing, out_of_range, refusal_text, unknown_field, unknown_step, wrong_kind,
};
pub use form::Form;
pub use limits::within_limits;
pub use name::Name;
pub use path::{Path, Segment, path_text};
pub use reading::{Reads, ReadsItem, any_list, list_of, text, truth, whole};
