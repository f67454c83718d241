ghost use Rattle.std.specs.Prelude.{◌≡◌};
ghost use Rattle.link_fields.specs.Field.{fault_at};
ghost use Rattle.link_fields.specs.declared.fault.ReadError.TheVariants.{Memory};

use std::alloc::{AllocError, AllocFailed};

/// What is wrong with a field.
#[derive(Clone, Copy, Debug, PartialEq, Eq)]
pub enum Flaw {
    /// The field ends behind the last byte.
    Short,
    /// A text isn't UTF-8, or is over its limit.
    Text,
    /// A tag, truth value, option, number, host, port, key order, depth or size is out of range.
    Range,
    /// A text is no page's URL as the URL Standard serializes it.
    Url,
}

/// What is wrong with a field, and how many bytes there are from its first byte on.
#[derive(Clone, Copy, Debug, PartialEq, Eq)]
pub struct Fault {
    pub why: Flaw,
    pub left: usize,
}

/// Why a field was not read.
#[derive(Debug, Drop)]
pub enum ReadError {
    Memory,
    Fault(Fault),
}

impl From<AllocError> for ReadError {
    ghost from_gives = { λ _ e. e ≡ Memory };

    fn from(_e: AllocError) -> ReadError {
        ReadError::Memory
    }
}

impl<T: Drop> From<AllocFailed<T>> for ReadError {
    ghost from_gives = { λ _ e. e ≡ Memory };

    fn from(_e: AllocFailed<T>) -> ReadError {
        ReadError::Memory
    }
}

/// The fault at the first of these bytes.
pub fn fault_here(why: Flaw, bytes: &[u8]) -> ReadError
    ensures { result ≡ ReadError.Fault (fault_at why bytes.now) }
{
    ReadError::Fault(Fault {
        why,
        left: bytes.len(),
    })
}
