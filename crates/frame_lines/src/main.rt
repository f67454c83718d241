//! Reads lines of bytes in hexadecimal as frames, and prints what a decoder, a reader of frames or a coordinator answers
//! to each.
//!
//! ```text
//! q 020100000000             a request's frame: good 020100000000
//! p 0245                     a reply's frame: bad 2 Short
//! feed 0201                  a piece of the stream of requests: more, whole USED FRAME, or bad PLACE WHY
//! desk 2 - https://a.test/   a coordinator of two renderers with this start window: desk
//! r0 020100000000            the frame of a request of renderer 0: the frame of the coordinator's reply
//! lose 0                     the coordinator loses renderer 0: lost
//! log                        a line for each entry of the coordinator's log, as a play prints them, and then end
//! ```
//!
//! A line ends with a line feed or with the input. One that begins with `#` is printed as it is; here it says where the
//! rows behind it come from. Any other line that isn't of these forms prints `what` and changes nothing. Words have one
//! space between them. Numbers are decimals without sign and leading zeros, and digits are those of whole bytes, in
//! lower case, or none. What a piece has behind a whole frame is dropped.
//!
//! A line `desk` has the number of renderers, 1 to 16, the public suffixes with commas between them, or `-`, and at most
//! 64 URLs, each of them and each suffix as a session may have it. It puts the new coordinator in the place of an earlier
//! one. A renderer is served whether it was lost or not. A line prints `what` where there is no coordinator yet, where it
//! has no such renderer, and where it lost the one that it is to lose before.
//!
//! It ends with status 0 at the end of its input, with 3 where that couldn't be read, with 4 where a line couldn't be
//! written, and with 7 where there was no memory.
#![tactic(auto)]

mod ask;
mod digits;
mod entries;
mod lines;
mod opening;

use crate::lines::Lines;
use ports::{StdSink, WriteFault, write_all_of};
use std::alloc::{AllocError, AllocFailed};
use std::io;
use std::io::{BufRead, BufReader, ErrorKind};
use std::process::ExitCode;

/// Why the lines weren't read to their end.
enum Stop {
    Read,
    Write,
    Memory,
}

impl Stop {
    /// The exit status that says so.
    fn status(self) -> u8 {
        match self {
            Stop::Read => 3,
            Stop::Write => 4,
            Stop::Memory => 7,
        }
    }
}

impl From<io::Error> for Stop {
    fn from(e: io::Error) -> Stop {
        if e.kind() == ErrorKind::OutOfMemory {
            Stop::Memory
        } else {
            Stop::Read
        }
    }
}

impl From<WriteFault> for Stop {
    fn from(_e: WriteFault) -> Stop {
        Stop::Write
    }
}

impl From<AllocError> for Stop {
    fn from(_e: AllocError) -> Stop {
        Stop::Memory
    }
}

impl<T: Drop> From<AllocFailed<T>> for Stop {
    fn from(_e: AllocFailed<T>) -> Stop {
        Stop::Memory
    }
}

/// Answers each line before it reads the next one.
fn answer_lines(rt: &HostRuntime) -> Result<(), Stop> {
    let alloc = rt.alloc();
    let mut input = BufReader::new(alloc, rt.reader())?;
    let mut sink = StdSink::new(io::writer(rt));
    let mut lines = Lines::new(alloc);
    let mut text = Vec::new(alloc);
    for _ in 0..u64::MAX {
        text.clear();
        if input.read_until(b'\n', &mut text)? == 0 {
            return Ok(());
        }
        let line = match text.as_slice() {
            [line @ .., b'\n'] => line,
            line => line,
        };
        write_all_of(&mut sink, lines.answer(line)?.as_slice())?;
    }
    Ok(())
}

fn main(rt: HostRuntime) -> ExitCode {
    ExitCode::from(match answer_lines(&rt) {
        Ok(()) => 0,
        Err(stop) => stop.status(),
    })
}
