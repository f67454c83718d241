//! Prints three small logs with every kind of entry, the first as two renderers may see it, a record with every step, answer and
//! task, and the line of each status.
//!
//! Its `stdout` has the lines that were written by hand from the formats (`docs/FORMATS.md`), so each run compares
//! `trace_text` with them. Statuses have their number in front, since two of them print nothing.
#![tactic(auto)]

mod logs;
mod records;

use plain_data::Text;
use std::alloc::Global;
use std::io;
use std::io::ErrorKind;
use trace_text::{Status, log_text, record_text, status_text};
use tree_log::Log;

const STATUSES: [Status; 8] = [
    Status::Done,
    Status::Usage,
    Status::Session,
    Status::Read,
    Status::Write,
    Status::LogFull(39_997),
    Status::ActsFull(0),
    Status::Memory,
];

/// The text of a log, where there was memory to make it.
fn text_of(alloc: Global, log: Option<Log>) -> io::Result<Text> {
    let Some(log) = log else {
        return Err(io::Error::from(ErrorKind::OutOfMemory));
    };
    Ok(log_text(alloc, &log)?)
}

/// The first log, as a renderer may see it.
fn shown_run(alloc: Global, renderer: u16) -> Option<Log> {
    logs::shown_to(alloc, &logs::run(alloc)?, renderer)
}

fn main(rt: HostRuntime) -> io::Result<()> {
    let alloc = rt.alloc();
    for log in [
        logs::run(alloc),
        shown_run(alloc, 0),
        shown_run(alloc, 1),
        logs::other_kinds(alloc),
        logs::with_domains(alloc),
        Some(Log::new(alloc)),
    ] {
        print!(rt; "{}", text_of(alloc, log)?.as_str())?;
    }
    let acts = records::acts(alloc)?;
    print!(rt; "{}", record_text(alloc, 3, &acts)?.as_str())?;
    print!(rt; "{}", record_text(alloc, 7, &[])?.as_str())?;
    for status in &STATUSES {
        let line = status_text(alloc, status)?;
        println!(rt; "{} {}", status.number(), line.as_str().trim_end())?;
    }
    Ok(())
}
