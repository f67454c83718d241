ghost use Rattle.std.specs.Prelude.{◌≡◌, ◌≤◌};
ghost use Rattle.ports.specs.Causes.{counted};

use thiserror::Error;

/// A call of a source or of a sink failed. No byte moved, and the count of faults rose in that call.
#[derive(Clone, Copy, Debug, PartialEq, Eq, Error)]
#[error("the call failed")]
pub struct Failed;

/// A count of faults, which stands still at 2^64 - 1.
#[derive(Drop)]
pub(crate) struct FaultCount {
    count: u64,
}

impl FaultCount {
    pub(crate) fn new() -> Self
        ensures { result.count ≡ 0 }
    {
        FaultCount { count: 0 }
    }

    pub(crate) fn raise(&mut self)
        ensures count { self.new.count ≡ counted self.old.count }
        ensures later { self.old.count ≤ self.new.count }
    {
        self.count = self.count.saturating_add(1);
    }
}
