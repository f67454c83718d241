//! The program `winproxy`: plays sessions of windows that live in several renderers.
//!
//! ```text
//! winproxy play < session.json
//! winproxy check < session.json
//! ```
//!
//! Its words are those of [`winproxy_cmd::command`], its input is standard input, and all that it prints goes to standard
//! output. Its exit status is the number of the status line; after the statuses 4 (the output couldn't be written) and 7
//! (there was no memory) there is no such line.
#![tactic(auto)]

use ports::{StdSink, StdSource};
use std::alloc::AllocError;
use std::process::ExitCode;
use std::{env, io};
use winproxy_cmd::{Status, command};

/// The words after the program's name. Where one isn't UTF-8 there are none: no word of the program is such.
fn words(rt: &HostRuntime) -> Result<Vec<String>, AllocError> {
    let mut words = Vec::new(rt.alloc());
    match env::args(rt) {
        Ok(args) => {
            for word in args.skip(1) {
                words.push(word)?;
            }
        }
        Err(e) if e.kind() == io::ErrorKind::OutOfMemory => return Err(AllocError),
        Err(_) => {}
    }
    Ok(words)
}

fn main(rt: HostRuntime) -> ExitCode {
    let mut source = StdSource::new(rt.reader());
    let mut sink = StdSink::new(io::writer(&rt));
    let status = match words(&rt) {
        Ok(words) => command(rt.alloc(), &words, &mut source, &mut sink),
        Err(AllocError) => Status::Memory,
    };
    ExitCode::from(status.number())
}
