ghost use Rattle.std.specs.Prelude.{◌≡◌, ◌≤◌, length};

use crate::call_plan::CallPlan;
use crate::fault::Failed;
use crate::source::Source;

/// A source over bytes in memory. It tells what is left, and fails at the calls that it is told to.
#[derive(Drop)]
pub struct MemorySource {
    bytes: Vec<u8>,
    at: usize,
    plan: CallPlan,
    ghost within: { at ≤ length bytes.items },
}

impl MemorySource {
    ghost use Rattle.ports.specs.Memory.{source_left, source_calls, source_fails, source_faults};

    /// A source that gives these bytes. The calls numbered in `fails`, from 1 and in any order, fail,
    /// and no others. So over an empty list the count of faults stays 0.
    pub fn new(bytes: Vec<u8>, fails: Vec<u32>) -> Self
        ensures left { source_left result ≡ bytes.items }
        ensures calls { source_calls result ≡ 0 }
        ensures fails { source_fails result ≡ fails.items }
        ensures faults { source_faults result ≡ 0 }
    {
        MemorySource {
            bytes,
            at: 0,
            plan: CallPlan::new(fails),
        }
    }
}

impl Source for MemorySource {
    ghost use Rattle.std.specs.Prelude.{◌≡◌, ◌≤◌, ◌↔◌, [], Some, length, min, Contains, IsErr, IsOk, IfOk, OnErr, MatchResult};
    ghost use Rattle.std.specs.Io.{ReadsAtMost};
    ghost use Rattle.std.specs.Io.KnownBytes.{ReadConsumes};
    ghost use Rattle.ports.specs.Causes.{HasCause, counted};
    ghost use Rattle.ports.specs.Memory.{source_left, source_calls, source_fails, source_faults};

    ghost left = { λ source. Some (source_left source) };

    ghost faults = { λ source. source_faults source };

    ghost never_fails = { λ source. source_fails source ≡ [] };

    /// Reads as much as is left and there is room for. A call that fails leaves `into` as it was.
    fn read(&mut self, into: &mut [u8]) -> Result<usize, Failed>
        ensures bound { ReadsAtMost result into.new }
        ensures bytes { ReadConsumes (Some (source_left self.old)) (Some (source_left self.new)) result into.new }
        ensures cause { HasCause (source_faults self.old) (source_faults self.new) result }
        ensures steady { source_fails self.old ≡ []
            → (source_fails self.new ≡ []) × (source_faults self.new ≡ source_faults self.old) × IsOk result }

        // The calls are numbered from 1, and those fail whose numbers the source was given.
        ensures calls { source_calls self.new ≡ counted (source_calls self.old) }
        ensures fails { IsErr result ↔ Contains (source_fails self.old) (source_calls self.new) }
        ensures same_fails { source_fails self.new ≡ source_fails self.old }
        ensures faults { MatchResult result (λ _. source_faults self.new ≡ source_faults self.old)
            (λ _. source_faults self.new ≡ counted (source_faults self.old)) }
        ensures untouched { OnErr result (into.new ≡ into.old) }
        ensures count { IfOk result (λ count. count ≡ min (length (source_left self.old)) (length into.new)) }
    {
        self.plan.begin()?;
        let count = (self.bytes.len() - self.at).min(into.len());
        into[..count].copy_from_slice(&self.bytes[self.at..self.at + count]);
        self.at += count;
        Ok(count)
    }
}
