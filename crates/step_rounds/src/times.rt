use std::alloc::{AllocError, Global};

/// Times in nanoseconds.
#[derive(Drop)]
pub struct Times {
    times: Vec<u64>,
}

impl Times {
    pub fn new(alloc: Global) -> Times {
        Times {
            times: Vec::new(alloc),
        }
    }

    pub fn add(&mut self, nanoseconds: u64) -> Result<(), AllocError> {
        self.times.push(nanoseconds)?;
        Ok(())
    }

    /// The same, the least first.
    pub fn sorted(self) -> Result<Times, AllocError> {
        let mut times = self.times;
        times.sort()?;
        Ok(Times { times })
    }

    /// The least of sorted times, or 0 where there are none.
    pub fn best(&self) -> u64 {
        self.times.first().copied().unwrap_or(0)
    }

    /// The one in the middle of sorted times, or 0 where there are none.
    pub fn middle(&self) -> u64 {
        self.times.get(self.times.len() / 2).copied().unwrap_or(0)
    }
}
