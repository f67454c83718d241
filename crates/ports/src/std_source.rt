ghost use Rattle.std.specs.Prelude.{◌≡◌};
ghost use Rattle.ports.specs.Streams.{reader, reader_faults};

use crate::fault::{Failed, FaultCount};
use crate::source::Source;
use std::io::Read;

/// A source over a reader of std. Each error of the reader is a fault, an interrupted call too. Where
/// the reader tells which bytes remain, they are what is left.
#[derive(Drop)]
pub struct StdSource<R: Read> {
    inner: R,
    faults: FaultCount,
}

impl<R: Read> StdSource<R> {
    /// A source that gives what the reader gives. Its count of faults is 0.
    pub fn new(inner: R) -> Self
        ensures inner { reader result ≡ inner }
        ensures faults { reader_faults result ≡ 0 }
    {
        StdSource {
            inner,
            faults: FaultCount::new(),
        }
    }
}

impl<R: Read> Source for StdSource<R> {
    ghost use Rattle.std.specs.Prelude.{◌≡◌, MatchResult};
    ghost use Rattle.std.specs.Io.{ReadsAtMost};
    ghost use Rattle.std.specs.Io.KnownBytes.{ReadConsumes};
    ghost use Rattle.ports.specs.Causes.{HasCause, counted};
    ghost use Rattle.ports.specs.Streams.{reader, reader_faults};

    ghost left = { λ source. R.remaining (reader source) };

    ghost faults = { λ source. reader_faults source };

    /// Reads what the reader gives. The count of faults rises exactly where the reader answers an error.
    fn read(&mut self, into: &mut [u8]) -> Result<usize, Failed>
        ensures bound { ReadsAtMost result into.new }
        ensures bytes { ReadConsumes (R.remaining (reader self.old)) (R.remaining (reader self.new)) result into.new }
        ensures cause { HasCause (reader_faults self.old) (reader_faults self.new) result }
        ensures faults { MatchResult result (λ _. reader_faults self.new ≡ reader_faults self.old)
            (λ _. reader_faults self.new ≡ counted (reader_faults self.old)) }
    {
        match self.inner.read(into) {
            Ok(count) => Ok(count),
            Err(_) => {
                self.faults.raise();
                Err(Failed)
            }
        }
    }
}
