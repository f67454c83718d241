//! Limits, faults at each call in turn, and the adapters over readers and writers of std.

ghost use Rattle.std.specs.Prelude.{◌≡◌, ◌≤◌, ◌<◌, ◌^◌, ◌⊎◌, length, IfOk, MatchResult};
ghost use Rattle.ports.specs.Memory.{sink_taken};

use crate::{
    MemorySink, MemorySource, ReadAllError, Sink, Source, StdSink, StdSource, WriteFault, read_all,
    write_all_of,
};
use std::alloc::{AllocError, Global};
use std::io;
use std::io::{ErrorKind, Read, Write};
use std::process::Abort;
use std::test::Fail;

/// The bytes 0, 1, .. of this length, which begin again after 250.
fn some_bytes(alloc: Global, len: u32) -> Result<Vec<u8>, AllocError> {
    let mut bytes = Vec::new(alloc);
    for i in 0..len {
        bytes.push((i % 251) as u8)?;
    }
    Ok(bytes)
}

/// What is known of a source in memory with no failing call: its bytes are read where they fit, or memory ran out.
fn read_memory(alloc: Global, bytes: Vec<u8>, limit: u32) -> Result<Vec<u8>, ReadAllError>
    ensures fits { length bytes.items ≤ limit
        → MatchResult result (λ read. read.items ≡ bytes.items) (λ e. e ≡ ReadAllError.NoMemory) }
    ensures over { limit < length bytes.items
        → MatchResult result (λ _. ⊥) (λ e. (e ≡ ReadAllError.TooLarge) ⊎ (e ≡ ReadAllError.NoMemory)) }
{
    read_all(alloc, &mut MemorySource::new(bytes, Vec::new(alloc)), limit)
}

/// What is known of a sink in memory with no failing call: it takes all bytes that there is room for.
fn write_memory(alloc: Global, bytes: &[u8]) -> Result<MemorySink, AllocError>
    requires { length bytes.now < 2 ^ 32 }
    ensures { IfOk result (λ sink. sink_taken sink ≡ bytes.now) }
{
    let mut sink = MemorySink::new(alloc, bytes.len() as u32, Vec::new(alloc))?;
    if write_all_of(&mut sink, bytes).is_err() {
        return unreachable!();
    }
    Ok(sink)
}

/// Reads at a limit and beside it.
fn check_limits(rt: &impl Abort, alloc: Global) -> Result<(), Fail> {
    let five = some_bytes(alloc, 5)?;
    assert_eq!(rt;
        read_memory(alloc, some_bytes(alloc, 5)?, 5)?.as_slice(),
        five.as_slice()
    );
    assert_eq!(rt;
        read_memory(alloc, some_bytes(alloc, 5)?, 4).err(),
        Some(ReadAllError::TooLarge)
    );
    assert_eq!(rt; write_memory(alloc, &five)?.taken(), five.as_slice());
    // How many bytes there are, the limit, and how many are left where that was too small.
    let cases = [
        (5, 5, None),
        (5, 4, Some(0)),
        (6, 4, Some(1)),
        (0, 0, None),
        (1, 0, Some(0)),
        (9000, 9000, None),
        (9000, 8999, Some(0)),
        (9000, 4096, Some(4903)),
    ];
    for (len, limit, left) in cases {
        let bytes = some_bytes(alloc, len)?;
        let mut source = MemorySource::new(some_bytes(alloc, len)?, Vec::new(alloc));
        let read = read_all(alloc, &mut source, limit);
        let rest = read_all(alloc, &mut source, 10_000)?;
        match left {
            None => {
                assert_eq!(rt; read?.as_slice(), bytes.as_slice(), "{len} of {limit}");
                assert_eq!(rt; rest.len(), 0, "{len} of {limit}");
            }
            Some(left) => {
                assert_eq!(rt;
                    read.err(),
                    Some(ReadAllError::TooLarge),
                    "{len} of {limit}"
                );
                assert_eq!(rt; rest.len(), left, "{len} of {limit}");
            }
        }
    }
    Ok(())
}

/// Faults in memory, at each call in turn.
fn check_faults(rt: &impl Abort, alloc: Global) -> Result<(), Fail> {
    // Nine thousand bytes are three pieces and an end.
    for (call, fails) in [(1, true), (2, true), (3, true), (4, true), (5, false)] {
        let mut source = MemorySource::new(some_bytes(alloc, 9000)?, vec![in alloc; call]?);
        let read = read_all(alloc, &mut source, 9000);
        let want = if fails {
            Some(ReadAllError::ReadFault)
        } else {
            None
        };
        assert_eq!(rt; read.err(), want, "read {call}");
    }
    // The room, the call that fails, the answer to "abcde" and to "fg" after it, and what was taken.
    let cases = [
        (7, 0, true, true, "abcdefg"),
        (7, 1, false, true, "fg"),
        (7, 2, true, false, "abcde"),
        (7, 3, true, true, "abcdefg"),
        (4, 0, false, false, "abcd"),
        (4, 2, false, false, "abcd"),
        (0, 0, false, false, ""),
    ];
    for (room, call, first, second, taken) in cases {
        let mut sink = MemorySink::new(alloc, room, vec![in alloc; call]?)?;
        assert_eq!(rt;
            write_all_of(&mut sink, b"abcde").is_ok(),
            first,
            "{room} {call}"
        );
        assert_eq!(rt;
            write_all_of(&mut sink, b"fg").is_ok(),
            second,
            "{room} {call}"
        );
        assert_eq!(rt; sink.taken(), taken.as_bytes(), "{room} {call}");
    }
    Ok(())
}

/// A stream that moves two bytes a call, and fails at one call.
#[derive(Drop)]
struct Halting {
    bytes: Vec<u8>,
    at: usize,
    calls: u32,
    fails: u32,
}

impl Halting {
    fn new(bytes: Vec<u8>, fails: u32) -> Self {
        Halting {
            bytes,
            at: 0,
            calls: 0,
            fails,
        }
    }

    fn begin(&mut self) -> io::Result<()> {
        self.calls = self.calls.saturating_add(1);
        if self.calls == self.fails {
            return Err(io::Error::from(ErrorKind::BrokenPipe));
        }
        Ok(())
    }
}

impl Read for Halting {
    fn read(&mut self, buf: &mut [u8]) -> io::Result<usize> {
        self.begin()?;
        let mut rest = self.bytes.get(self.at..).unwrap_or(&[]);
        if rest.len() > 2 {
            rest = &rest[..2];
        }
        let count = rest.read(buf)?;
        self.at = self.at.saturating_add(count);
        Ok(count)
    }
}

impl Write for Halting {
    fn write(&mut self, buf: &[u8]) -> io::Result<usize> {
        self.begin()?;
        let count = buf.len().min(2);
        self.bytes.extend_from_slice(&buf[..count])?;
        Ok(count)
    }

    fn flush(&mut self) -> io::Result<()> {
        Ok(())
    }
}

#[test]
fn reads_and_writes_in_memory(rt: HostRuntime) -> Result<(), Fail> {
    check_limits(&rt, rt.alloc())?;
    check_faults(&rt, rt.alloc())
}

/// Reads a stream that fails at each call in turn.
fn check_reads(rt: &impl Abort, alloc: Global) -> Result<(), Fail> {
    let text = b"abcde";
    assert_eq!(rt;
        read_all(alloc, &mut StdSource::new(text.as_slice()), 5)?.as_slice(),
        text.as_slice()
    );
    // Three calls give two, two and one byte, and the fourth is the end. What comes after a failure is still there.
    let cases = [
        (0, true, 0),
        (1, false, 5),
        (2, false, 3),
        (3, false, 1),
        (4, false, 0),
    ];
    for (call, whole, left) in cases {
        let mut source = StdSource::new(Halting::new(some_bytes(alloc, 5)?, call));
        let read = read_all(alloc, &mut source, 5);
        assert_eq!(rt; read.is_ok(), whole, "read {call}");
        assert_eq!(rt;
            read_all(alloc, &mut source, 5)?.len(),
            left,
            "after read {call}"
        );
    }
    Ok(())
}

/// Writes to a stream that fails at each call in turn, and to one that is full.
fn check_writes(rt: &impl Abort, alloc: Global) -> Result<(), Fail> {
    let mut bytes = Vec::new(alloc);
    write_all_of(&mut StdSink::new(&mut bytes), b"abcde")?;
    assert_eq!(rt; bytes.as_slice(), b"abcde".as_slice());
    // A slice of four bytes takes four, and then none.
    let mut room = [0u8; 4];
    assert_eq!(rt;
        write_all_of(&mut StdSink::new(room.as_mut_slice()), b"abcde"),
        Err(WriteFault)
    );
    assert_eq!(rt; room.as_slice(), b"abcd".as_slice());
    // Three calls take two, two and one byte. What was taken before a failure is a front.
    let cases = [
        (0, true, "abcde"),
        (1, false, ""),
        (2, false, "ab"),
        (3, false, "abcd"),
        (4, true, "abcde"),
    ];
    for (call, whole, taken) in cases {
        let mut stream = Halting::new(Vec::new(alloc), call);
        let written = write_all_of(&mut StdSink::new(&mut stream), b"abcde");
        assert_eq!(rt; written.is_ok(), whole, "write {call}");
        assert_eq!(rt; stream.bytes.as_slice(), taken.as_bytes(), "write {call}");
    }
    Ok(())
}

#[test]
fn reads_and_writes_over_std(rt: HostRuntime) -> Result<(), Fail> {
    check_reads(&rt, rt.alloc())?;
    check_writes(&rt, rt.alloc())
}
