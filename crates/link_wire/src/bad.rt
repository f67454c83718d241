ghost use Rattle.std.specs.Prelude.{◌≡◌, ◌<◌, ◌^◌, length};
ghost use Rattle.link_wire.specs.Bad as spec;
ghost use Rattle.link_wire.specs.declared.bad.DecodeError.TheVariants as errors;

use agent_terms::Why;
use link_fields::{Flaw, ReadError};
use std::alloc::{AllocError, AllocFailed};

/// Where bytes are no frame, counted from the first one, and why.
#[derive(Clone, Copy, Debug, PartialEq, Eq)]
pub struct Bad {
    pub place: u32,
    pub why: Why,
}

/// Why bytes were not decoded.
#[derive(Debug, Drop)]
pub enum DecodeError {
    /// Memory ran out.
    Memory,
    /// The bytes are no frame.
    Bad(Bad),
}

impl From<Bad> for DecodeError {
    ghost from_gives = { λ bad e. e ≡ errors.Bad bad };

    fn from(bad: Bad) -> DecodeError {
        DecodeError::Bad(bad)
    }
}

impl From<AllocError> for DecodeError {
    ghost from_gives = { λ _ e. e ≡ errors.Memory };

    fn from(_e: AllocError) -> DecodeError {
        DecodeError::Memory
    }
}

impl<T: Drop> From<AllocFailed<T>> for DecodeError {
    ghost from_gives = { λ _ e. e ≡ errors.Memory };

    fn from(_e: AllocFailed<T>) -> DecodeError {
        DecodeError::Memory
    }
}

pub(crate) fn bad_at(place: u32, why: Why) -> DecodeError
    ensures { result ≡ errors.Bad (spec.bad_at place why) }
{
    DecodeError::Bad(Bad { place, why })
}

fn why_of_flaw(flaw: Flaw) -> Why
    ensures { result ≡ spec.why_of_flaw flaw }
{
    match flaw {
        Flaw::Short => Why::Short,
        Flaw::Text => Why::Text,
        Flaw::Range => Why::Range,
        Flaw::Url => Why::Url,
    }
}

/// Why the bytes are no frame, where a field at the end of them was not read.
pub(crate) fn field_error(bytes: &[u8], error: ReadError) -> DecodeError
    requires { length bytes.now < 2 ^ 32 }
    ensures { result ≡ spec.field_error bytes.now error }
{
    match error {
        ReadError::Memory => DecodeError::Memory,
        ReadError::Fault(fault) => bad_at(
            bytes.len().saturating_sub(fault.left) as u32,
            why_of_flaw(fault.why),
        ),
    }
}
