ghost use Rattle.std.specs.Prelude.{◌≡◌, ◌≤◌, [], IfOk, vec_len, vec_capacity};

use crate::call_plan::CallPlan;
use crate::fault::Failed;
use crate::sink::Sink;
use std::alloc::{AllocError, Global};

/// A sink in memory with room for so many bytes. It tells what it took, and fails at the calls that it
/// is told to.
#[derive(Drop)]
pub struct MemorySink {
    bytes: Vec<u8>,
    room: u32,
    plan: CallPlan,
    ghost held: { room ≤ vec_capacity bytes },
    ghost fits: { vec_len bytes ≤ room },
}

impl MemorySink {
    ghost use Rattle.ports.specs.Memory.{sink_taken, sink_room, sink_calls, sink_fails, sink_faults};

    /// An empty sink with memory for `room` bytes. The calls numbered in `fails`, from 1 and in any
    /// order, fail, and no others. So over an empty list the count of faults stays 0 until the sink
    /// takes nothing of a nonempty piece.
    pub fn new(alloc: Global, room: u32, fails: Vec<u32>) -> Result<Self, AllocError>
        ensures taken { IfOk result (λ sink. sink_taken sink ≡ []) }
        ensures room { IfOk result (λ sink. sink_room sink ≡ room) }
        ensures calls { IfOk result (λ sink. sink_calls sink ≡ 0) }
        ensures fails { IfOk result (λ sink. sink_fails sink ≡ fails.items) }
        ensures faults { IfOk result (λ sink. sink_faults sink ≡ 0) }
    {
        Ok(MemorySink {
            bytes: Vec::with_capacity(alloc, room as usize)?,
            room,
            plan: CallPlan::new(fails),
        })
    }

    /// The bytes taken so far.
    pub fn taken(&self) -> &[u8]
        ensures { result.now ≡ sink_taken self.now }
    {
        &self.bytes
    }
}

impl Sink for MemorySink {
    ghost use Rattle.std.specs.Prelude.{◌≡◌, ◌≤◌, ◌<◌, ◌-◌, ◌↔◌, [], Some, ℕ, length, min, Contains, IsErr, IsOkAnd, OnErr, IfOk};
    ghost use Rattle.std.specs.Io.{WritesAtMost};
    ghost use Rattle.std.specs.Io.KnownBytes.{WriteAppends};
    ghost use Rattle.ports.specs.Causes.{HasCause, StopsWithCause, counted};
    ghost use Rattle.ports.specs.Memory.{sink_taken, sink_room, sink_calls, sink_fails, sink_faults, SinkHasRoom};

    ghost taken = { λ sink. Some (sink_taken sink) };

    ghost faults = { λ sink. sink_faults sink };

    ghost has_room = { SinkHasRoom };

    /// Takes as much of the piece as still fits. Takes no memory.
    fn write(&mut self, piece: &[u8]) -> Result<usize, Failed>
        ensures bound { WritesAtMost result piece.now }
        ensures bytes { WriteAppends (Some (sink_taken self.old)) (Some (sink_taken self.new)) result piece.now }
        ensures cause { HasCause (sink_faults self.old) (sink_faults self.new) result }
        ensures stop { StopsWithCause (sink_faults self.old) (sink_faults self.new) result piece.now }
        ensures room { (n : ℕ) → SinkHasRoom self.old n → length piece.now ≤ n
            → IsOkAnd result (λ count. (0 < length piece.now → 0 < count) × SinkHasRoom self.new (n - count))
            × (sink_faults self.new ≡ sink_faults self.old) }

        // The calls are numbered from 1, and those fail whose numbers the sink was given.
        ensures calls { sink_calls self.new ≡ counted (sink_calls self.old) }
        ensures fails { IsErr result ↔ Contains (sink_fails self.old) (sink_calls self.new) }
        ensures same_fails { sink_fails self.new ≡ sink_fails self.old }
        ensures same_room { sink_room self.new ≡ sink_room self.old }
        ensures count { IfOk result (λ count. count ≡ min (sink_room self.old - length (sink_taken self.old)) (length piece.now)) }
        // The count rises exactly at a failure, and where nothing is taken of a nonempty piece.
        ensures failed { OnErr result (sink_faults self.new ≡ counted (sink_faults self.old)) }
        ensures took_none { IfOk result (λ count. count ≡ 0 → 0 < length piece.now
            → sink_faults self.new ≡ counted (sink_faults self.old)) }
        ensures took_some { IfOk result (λ count. (count ≡ 0 → length piece.now ≡ 0)
            → sink_faults self.new ≡ sink_faults self.old) }
    {
        self.plan.begin()?;
        let count = (self.room as usize - self.bytes.len()).min(piece.len());
        if count == 0 && !piece.is_empty() {
            self.plan.faults.raise();
        }
        if self.bytes.extend_from_slice(&piece[..count]).is_err() {
            return unreachable!();
        }
        Ok(count)
    }
}
