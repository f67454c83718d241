//! How a thread waits for its turn.
ghost use Rattle.std.specs.Prelude.{◌<◌};

use crate::dealing::Gate;
use crate::grows::Grows;
use std::sync::Wait;
use std::thread;
use std::time::Duration;

/// So many times a waiting thread gives its processor to others before it sleeps between two looks.
const YIELDS: u32 = 1000;

/// It sleeps for so many microseconds at most, and not at all where another ticket is served by then.
const SLEEP: u64 = 100;

/// Lets other threads go on after a look that found this ticket, and so many others before it.
pub(crate) fn pause<S: Grows, R: Wait>(rt: &R, gate: &Gate<S>, served: u64, looks: u32)
    requires { 1 < gate.now.shared.table_id.words }
{
    if looks < YIELDS {
        thread::yield_now();
    } else {
        let low_bits = (served % (1 << 32)) as u32;
        gate.shared
            .park_timeout(rt, 1, low_bits, Duration::from_micros(SLEEP));
    }
}
