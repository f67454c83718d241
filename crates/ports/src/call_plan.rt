ghost use Rattle.std.specs.Prelude.{◌≡◌, ◌≤◌, ◌↔◌, Contains, IsErr, MatchResult};
ghost use Rattle.ports.specs.Causes.{counted};

use crate::fault::{Failed, FaultCount};

/// The calls that were made, and the numbers of those that fail, from 1.
#[derive(Drop)]
pub(crate) struct CallPlan {
    calls: u64,
    fails: Vec<u32>,
    pub(crate) faults: FaultCount,
}

impl CallPlan {
    pub(crate) fn new(fails: Vec<u32>) -> Self
        ensures calls { result.calls ≡ 0 }
        ensures fails { result.fails.items ≡ fails.items }
        ensures faults { result.faults.count ≡ 0 }
    {
        CallPlan {
            calls: 0,
            fails,
            faults: FaultCount::new(),
        }
    }

    /// Counts a call, which fails where its number is among `fails`.
    pub(crate) fn begin(&mut self) -> Result<(), Failed>
        ensures calls { self.new.calls ≡ counted self.old.calls }
        ensures fails { IsErr result ↔ Contains self.old.fails.items self.new.calls }
        ensures same { self.new.fails.items ≡ self.old.fails.items }
        ensures faults { MatchResult result (λ _. self.new.faults.count ≡ self.old.faults.count)
            (λ _. self.new.faults.count ≡ counted self.old.faults.count) }
        ensures later { self.old.faults.count ≤ self.new.faults.count }
    {
        self.calls = self.calls.saturating_add(1);
        let number = self.calls;
        if self.fails.iter().any(|&fails| u64::from(fails) == number) {
            self.faults.raise();
            return Err(Failed);
        }
        Ok(())
    }
}
