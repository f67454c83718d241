//! Answers rows of questions on URLs, origins, sites, hosts and flags, a row of stdin at a time.
//!
//! A line that begins with `#` says where the rows after it come from, and is printed as it is. Every other line is a
//! question, with its parts between bars, and its stdout holds the answer that is expected: so each run compares
//! `origin_core` with another implementation of the URL Standard, and with what the HTML Standard says.
#![tactic(auto)]

mod answers;
mod parts;
mod urls;

use std::io;

fn main(rt: HostRuntime) -> io::Result<()> {
    for line in rt.lines(rt.alloc()) {
        let line = line?;
        let row = line.as_str();
        if row.starts_with('#') {
            println!(rt; "{row}")?;
            continue;
        }
        let answer = answers::answer(rt.alloc(), row)?;
        println!(rt; "{}", answer.as_str())?;
    }
    Ok(())
}
