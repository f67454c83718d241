ghost use Rattle.std.specs.Prelude.{◌≡◌};
ghost use Rattle.ports.specs.Streams.{writer, writer_faults};

use crate::fault::{Failed, FaultCount};
use crate::sink::Sink;
use std::io::Write;

/// A sink over a writer of std. Each error of the writer is a fault, an interrupted call too, and so is
/// a write that takes nothing of a nonempty piece. Where the writer tells its contents, they are what
/// was taken. It flushes nothing.
#[derive(Drop)]
pub struct StdSink<W: Write> {
    inner: W,
    faults: FaultCount,
}

impl<W: Write> StdSink<W> {
    /// A sink that hands on to the writer. Its count of faults is 0.
    pub fn new(inner: W) -> Self
        ensures inner { writer result ≡ inner }
        ensures faults { writer_faults result ≡ 0 }
    {
        StdSink {
            inner,
            faults: FaultCount::new(),
        }
    }
}

impl<W: Write> Sink for StdSink<W> {
    ghost use Rattle.std.specs.Prelude.{◌≡◌, ◌<◌, length, IfOk, OnErr};
    ghost use Rattle.std.specs.Io.{WritesAtMost};
    ghost use Rattle.std.specs.Io.KnownBytes.{WriteAppends};
    ghost use Rattle.ports.specs.Causes.{HasCause, StopsWithCause, counted};
    ghost use Rattle.ports.specs.Streams.{writer, writer_faults};

    ghost taken = { λ sink. W.contents (writer sink) };

    ghost faults = { λ sink. writer_faults sink };

    /// Hands the piece to the writer, and takes what it takes.
    fn write(&mut self, piece: &[u8]) -> Result<usize, Failed>
        ensures bound { WritesAtMost result piece.now }
        ensures bytes { WriteAppends (W.contents (writer self.old)) (W.contents (writer self.new)) result piece.now }
        ensures cause { HasCause (writer_faults self.old) (writer_faults self.new) result }
        ensures stop { StopsWithCause (writer_faults self.old) (writer_faults self.new) result piece.now }

        // The count rises exactly at a failure, and where nothing is taken of a nonempty piece.
        ensures failed { OnErr result (writer_faults self.new ≡ counted (writer_faults self.old)) }
        ensures took_none { IfOk result (λ count. count ≡ 0 → 0 < length piece.now
            → writer_faults self.new ≡ counted (writer_faults self.old)) }
        ensures took_some { IfOk result (λ count. (count ≡ 0 → length piece.now ≡ 0)
            → writer_faults self.new ≡ writer_faults self.old) }
    {
        match self.inner.write(piece) {
            Ok(count) => {
                if count == 0 && !piece.is_empty() {
                    self.faults.raise();
                }
                Ok(count)
            }
            Err(_) => {
                self.faults.raise();
                Err(Failed)
            }
        }
    }
}
