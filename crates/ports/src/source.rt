ghost use Rattle.std.specs.Prelude.{◌≡◌, ◌≤◌, ◌<◌, ◌+◌, List, Option, ℕ, length, None, IsOk, IfOk, IfSome, IsErrOf};
ghost use Rattle.std.specs.Io.{ReadsAtMost};
ghost use Rattle.std.specs.Io.KnownBytes.{ReadConsumes, IsAtEnd};
ghost use Rattle.ports.specs.Causes.{Rose, HasCause, StandsStill, GivesCount, GivesAtMost};
ghost use Rattle.ports.specs.declared.source.ReadAllError.TheVariants.{ReadFault, NoMemory};

use crate::fault::Failed;
use std::alloc::{AllocError, Global};
use thiserror::Error;

/// How many bytes `read_all` asks for at once, at most.
const PIECE: usize = 4096;

/// Where bytes come from.
///
/// An implementation says what it knows of its bytes by `left`, and what it knows of its failures by
/// `faults` and `never_fails`. Whoever calls it rests on nothing else.
pub trait Source {
    /// The bytes that are left, where the source tells them.
    ghost left: { Self → Option (List ℕ) } = { λ _. None };

    /// How often a call has failed. The count never falls, and stands still at 2^64 - 1.
    ghost faults: { Self → ℕ };

    /// What the source may know of itself under which no call fails from here on.
    ghost never_fails: { Self → Type 0 } = { λ _. ⊥ };

    /// Reads the first bytes that are left into the front of `into`, and answers how many, at most
    /// as many as there is room for. 0 where there is room is the end: nothing is left. What stands
    /// in `into` behind the bytes read is not promised.
    ///
    /// # Errors
    ///
    /// `Failed` comes only where the count of faults rose in this call. It reads nothing: what is
    /// left stays as it was, and the next call goes on there.
    fn read(&mut self, into: &mut [u8]) -> Result<usize, Failed>
        ensures bound { ReadsAtMost result into.new }
        ensures bytes { ReadConsumes (left self.old) (left self.new) result into.new }
        ensures cause { HasCause (faults self.old) (faults self.new) result }
        ensures steady { never_fails self.old
            → never_fails self.new × (faults self.new ≡ faults self.old) × IsOk result };
}

/// Why `read_all` has no answer.
#[derive(Clone, Copy, Debug, PartialEq, Eq, Error)]
pub enum ReadAllError {
    /// A call of the source failed, and its count of faults rose.
    #[error("the source failed")]
    ReadFault,
    /// The source gave one byte more than the limit.
    #[error("the source has more bytes than the limit")]
    TooLarge,
    /// Memory ran out.
    #[error("out of memory")]
    NoMemory,
}

impl From<AllocError> for ReadAllError {
    ghost from_gives = { λ _ e. e ≡ NoMemory };

    fn from(_e: AllocError) -> ReadAllError {
        ReadAllError::NoMemory
    }
}

impl From<Failed> for ReadAllError {
    ghost from_gives = { λ _ e. e ≡ ReadFault };

    fn from(_e: Failed) -> ReadAllError {
        ReadAllError::ReadFault
    }
}

/// Reads a source to its end: all bytes that it has left, where these are at most `limit`.
///
/// # Errors
///
/// - `TooLarge` comes exactly where `limit` + 1 bytes were taken from the source, and with every
///   other answer at most `limit` were. So over a source that tells its bytes and never fails, it
///   comes exactly where more than `limit` are left, unless memory runs out.
/// - `ReadFault` comes only where the source's count of faults rose.
/// - `NoMemory` may come whenever the bytes grow.
///
/// What was read before an error is dropped.
pub fn read_all<S: Source>(
    alloc: Global,
    source: &mut S,
    limit: u32,
) -> Result<Vec<u8>, ReadAllError>
    // They are all that it had left, read to its end.
    ensures whole { IfOk result (λ bytes. IfSome (S.left source.old) (λ left. bytes.items ≡ left)) }
    ensures at_end { IfOk result (λ bytes. IsAtEnd (S.left source.new)) }
    ensures within { IfOk result (λ bytes. length bytes.items ≤ limit) }
    // One byte more than the limit was taken exactly there.
    ensures too_large { IsErrOf result ReadAllError.TooLarge
        → GivesCount (limit + 1) (S.left source.old) (S.left source.new) }
    ensures over { IsErrOf result ReadAllError.TooLarge → IfSome (S.left source.old) (λ left. limit < length left) }
    ensures else_within { (IsErrOf result ReadAllError.TooLarge → ⊥)
        → GivesAtMost limit (S.left source.old) (S.left source.new) }
    ensures fault { IsErrOf result ReadAllError.ReadFault → Rose (S.faults source.old) (S.faults source.new) }
    ensures later { S.faults source.old ≤ S.faults source.new }
    ensures still { StandsStill (S.faults source.old) (S.faults source.new) }
    // A source that never fails still does, and is not at fault.
    ensures steady { S.never_fails source.old
        → S.never_fails source.new × (S.faults source.new ≡ S.faults source.old) }
    ensures no_fault { S.never_fails source.old → IsErrOf result ReadAllError.ReadFault → ⊥ }
{
    let limit = limit as usize;
    let mut bytes = Vec::new(alloc);
    let mut piece = [0u8; PIECE];
    'pieces: loop {
        let room = (limit - bytes.len() + 1).min(PIECE);
        let count = source.read(&mut piece[..room])?;
        if count == 0 {
            return Ok(bytes);
        }
        if count > limit - bytes.len() {
            return Err(ReadAllError::TooLarge);
        }
        bytes.extend_from_slice(&piece[..count])?;
    }
}
