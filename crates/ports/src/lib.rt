//! Where a run's bytes come from and where its text goes.
//!
//! A [`Source`] gives bytes and a [`Sink`] takes them, a piece at a time, and a call of either may
//! fail. No contract can say what a real stream holds or when it breaks. So a source may tell which
//! bytes it has left, and a sink which it took, and what is promised of bytes holds where they do.
//! And each counts its faults: a failure is answered only where the count rose in that call. A count
//! never falls, and stands still at 2^64 - 1; "rose" includes that it stands there.
//!
//! [`read_all`] reads a source to its end, and [`write_all_of`] hands all bytes to a sink.
//! [`StdSource`] and [`StdSink`] stand on readers and writers of std. [`MemorySource`] and
//! [`MemorySink`] hold their bytes, and fail at the calls that they are told to.
//!
//! ```
//! let mut source = MemorySource::new(vec![in alloc; b'h', b'i']?, Vec::new(alloc));
//! let bytes = read_all(alloc, &mut source, 2)?;
//!
//! let mut sink = StdSink::new(io::writer(&rt));
//! write_all_of(&mut sink, &bytes)?;
//! ```
#![tactic(auto)]

mod call_plan;
mod fault;
mod memory_sink;
mod memory_source;
mod sink;
mod source;
mod std_sink;
mod std_source;
#[cfg(test)]
mod tests;

pub use fault::Failed;
pub use memory_sink::MemorySink;
pub use memory_source::MemorySource;
pub use sink::{Sink, WriteFault, write_all_of};
pub use source::{ReadAllError, Source, read_all};
pub use std_sink::StdSink;
pub use std_source::StdSource;
