//! The fields of frames: how a number, a truth value, a text, a page's URL, an option, an origin or plain data stands
//! in bytes.
//!
//! `specs/Field` says what a field is: how each value is spelled, which values are in range, and how one is read from
//! the front of some bytes. Fields are made of fields by a few combinators, and for each of these it is proved
//! (`proofs/FieldLaws`) that what is read is spelled so, and that what is spelled so is read, whatever stands behind it.
//!
//! Each `read_` call gives the value at the front and the bytes behind it, or the first fault: what is wrong, and how
//! many bytes there are from the first byte of the field on. Each `put_` call adds the bytes of a value at the end of
//! a vector; a count that doesn't fit its bytes is written by its low bytes.
#![tactic(auto)]

mod fault;
mod last;
/// Laws over fields. Each function does nothing: its contract is the law.
pub mod laws;
mod numbers;
mod origins;
mod skipping;
mod texts;
mod values;
mod writing;

pub use fault::{Fault, Flaw, ReadError, fault_here};
pub use last::LastOrigin;
pub use numbers::{
    read_bool, read_optional_u16, read_optional_u32, read_small, read_u8, read_u16, read_u32,
};
pub use origins::{read_any_host, read_origin};
pub use skipping::read_data;
pub use texts::{read_flag_bits, read_optional_url, read_text, read_url};
pub use writing::{
    put_bool, put_data, put_flags, put_host, put_optional_u16, put_optional_u32, put_optional_url,
    put_origin, put_text, put_u8, put_u16, put_u32, put_url,
};
