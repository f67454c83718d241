//! Runs rows of calls on the properties of a Window or a Location, a row of stdin at a time, and prints the answers.
//!
//! A line that begins with `#` says where the rows after it come from, and is printed as it is. Every other line holds
//! calls, and its stdout the answers that are expected: first those that node gives (`tools/property-rows` makes these
//! rows), so that each run compares `window_props` with another implementation of ECMA-262's define, set, delete,
//! describe and keys; then those that the HTML Standard and Web IDL give.
#![tactic(auto)]

mod row;
mod words;

use std::io;

fn main(rt: HostRuntime) -> io::Result<()> {
    for line in rt.lines(rt.alloc()) {
        let line = line?;
        let row = line.as_str();
        if row.starts_with('#') {
            println!(rt; "{row}")?;
            continue;
        }
        let answers = row::answers(rt.alloc(), row)?;
        println!(rt; "{}", answers.as_str())?;
    }
    Ok(())
}
