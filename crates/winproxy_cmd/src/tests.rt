//! What examples can't say: calls of the streams that fail, and inputs of 8 MiB.

use crate::{Status, command};
use ports::{MemorySink, MemorySource};
use std::alloc::{AllocError, Global};
use std::test::Fail;

const SILENT: &[u8] =
    br#"{"renderers":1,"start":["https://a.test/"],"pages":[{"url":"https://a.test/"}]}"#;

const PLAYED: &[u8] = b"log 2
0 - - open n0 d0 g0 home=0 origin=opaque:0 name=\"\" opener=- flags=- navigator=- load=d1 lhome=0 lorigin=https://a.test lurl=\"https://a.test/\"
1 r0 - commit n0 d1 begin=0
record 0 1
2 task commit 1
status 0 done
";

const CHECKED: &[u8] = b"session ok renderers=1 start=1 pages=1 steps=0\nstatus 0 done\n";

const TOO_LARGE: &[u8] = b"refused TooLarge\nstatus 2 session\n";

/// What the one word came to, and what the sink took of its text. The calls of these numbers fail.
fn run(
    alloc: Global,
    word: &str,
    input: &[u8],
    room: u32,
    failing: [u32; 2],
) -> Result<(Status, MemorySink), AllocError> {
    let words = vec![in alloc; String::from_str(alloc, word)?]?;
    let mut source = MemorySource::new(input.to_vec(alloc)?, vec![in alloc; failing[0]]?);
    let mut sink = MemorySink::new(alloc, room, vec![in alloc; failing[1]]?)?;
    let status = command(alloc, &words, &mut source, &mut sink);
    Ok((status, sink))
}

#[test]
fn refuses_an_input_over_the_limit(rt: HostRuntime) -> Result<(), Fail> {
    let alloc = rt.alloc();
    let mut input = SILENT.to_vec(alloc)?;
    for _ in input.len()..8_388_608 {
        input.push(b' ')?;
    }
    for (word, text) in [("play", PLAYED), ("check", CHECKED)] {
        let (status, sink) = run(alloc, word, &input, 1000, [0, 0])?;
        assert_eq!(rt; status, Status::Done);
        assert_eq!(rt; sink.taken(), text);
    }
    input.push(b' ')?;
    for word in ["play", "check"] {
        let (status, sink) = run(alloc, word, &input, 1000, [0, 0])?;
        assert_eq!(rt; status, Status::Session);
        assert_eq!(rt; sink.taken(), TOO_LARGE);
    }
    Ok(())
}

#[test]
fn tells_of_calls_that_fail(rt: HostRuntime) -> Result<(), Fail> {
    let alloc = rt.alloc();
    // The word, how much the sink has room for, the failing calls of the source and of the sink, the status and how many
    // bytes were taken.
    let rows: [(&str, u32, [u32; 2], Status, usize); 13] = [
        ("play", 1000, [0, 0], Status::Done, PLAYED.len()),
        ("play", 1000, [1, 0], Status::Read, 14),
        ("play", 1000, [2, 0], Status::Read, 14),
        ("play", 1000, [3, 0], Status::Done, PLAYED.len()),
        ("play", 1000, [0, 1], Status::Write, 0),
        ("play", 1000, [1, 1], Status::Write, 0),
        ("play", 1000, [0, 2], Status::Done, PLAYED.len()),
        ("play", 10, [0, 0], Status::Write, 10),
        ("check", 1000, [1, 0], Status::Read, 14),
        ("check", 1000, [0, 1], Status::Write, 0),
        ("check", 10, [0, 0], Status::Write, 10),
        ("race", 1000, [1, 0], Status::Usage, 65),
        ("race", 1000, [1, 1], Status::Write, 0),
    ];
    for (word, room, failing, status, taken) in rows {
        let (came_to, sink) = run(alloc, word, SILENT, room, failing)?;
        assert_eq!(rt; came_to, status);
        assert_eq!(rt; sink.taken().len(), taken);
    }
    let (_, sink) = run(alloc, "play", SILENT, 1000, [1, 0])?;
    assert_eq!(rt; sink.taken(), b"status 3 read\n".as_slice());
    Ok(())
}
