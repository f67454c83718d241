ghost use Rattle.std.specs.Prelude.{◌≡◌, ◌≤◌, ◌<◌, ◌-◌, List, Option, ℕ, length, None, OnOk, OnErr, IsOk, IsOkAnd};
ghost use Rattle.std.specs.Io.{WritesAtMost};
ghost use Rattle.std.specs.Io.KnownBytes.{WriteAppends, Appends};
ghost use Rattle.ports.specs.Causes.{Rose, HasCause, StandsStill, StopsWithCause, TakesFront};

use crate::fault::Failed;
use thiserror::Error;

/// Where bytes go.
///
/// An implementation says what it knows of its bytes by `taken`, and what it knows of its failures by
/// `faults` and `has_room`. Whoever calls it rests on nothing else.
pub trait Sink {
    /// The bytes taken so far, where the sink tells them.
    ghost taken: { Self → Option (List ℕ) } = { λ _. None };

    /// How often a call has failed, or has taken nothing of a nonempty piece. The count never falls,
    /// and stands still at 2^64 - 1.
    ghost faults: { Self → ℕ };

    /// What the sink may know of itself under which it takes so many more bytes without a fault.
    ghost has_room: { Self → ℕ → Type 0 } = { λ _ _. ⊥ };

    /// Takes the first bytes of the piece, and answers how many. 0 of a nonempty piece comes only
    /// where the count of faults rose in this call.
    ///
    /// # Errors
    ///
    /// `Failed` comes only where the count of faults rose in this call. It takes nothing: what was
    /// taken stays as it was.
    fn write(&mut self, piece: &[u8]) -> Result<usize, Failed>
        ensures bound { WritesAtMost result piece.now }
        ensures bytes { WriteAppends (taken self.old) (taken self.new) result piece.now }
        ensures cause { HasCause (faults self.old) (faults self.new) result }
        ensures stop { StopsWithCause (faults self.old) (faults self.new) result piece.now }
        ensures room { (n : ℕ) → has_room self.old n → length piece.now ≤ n
            → IsOkAnd result (λ count. (0 < length piece.now → 0 < count) × has_room self.new (n - count))
            × (faults self.new ≡ faults self.old) };
}

/// The sink stopped before it took all: a call failed or took nothing, and its count of faults rose.
#[derive(Clone, Copy, Debug, PartialEq, Eq, Error)]
#[error("the sink stopped")]
pub struct WriteFault;

impl From<Failed> for WriteFault {
    fn from(_e: Failed) -> WriteFault {
        WriteFault
    }
}

/// Hands all bytes to a sink, in as many calls as it takes. Takes no memory.
///
/// # Errors
///
/// `WriteFault` comes only where the sink's count of faults rose. What was taken is then a front of
/// the bytes.
pub fn write_all_of<K: Sink>(sink: &mut K, bytes: &[u8]) -> Result<(), WriteFault>
    ensures ok { OnOk result (Appends (K.taken sink.old) (K.taken sink.new) bytes.now) }
    ensures fault { OnErr result (Rose (K.faults sink.old) (K.faults sink.new)) }
    ensures front { OnErr result (TakesFront (K.taken sink.old) (K.taken sink.new) bytes.now) }
    ensures later { K.faults sink.old ≤ K.faults sink.new }
    ensures still { StandsStill (K.faults sink.old) (K.faults sink.new) }
    // A sink with room for all of them takes them without a fault.
    ensures room { (n : ℕ) → K.has_room sink.old n → length bytes.now ≤ n
        → IsOk result × K.has_room sink.new (n - length bytes.now) × (K.faults sink.new ≡ K.faults sink.old) }
{
    let mut done = 0;
    while done < bytes.len() {
        let count = sink.write(&bytes[done..])?;
        if count == 0 {
            return Err(WriteFault);
        }
        done += count;
    }
    Ok(())
}
