//! Reads sessions and plain data, a row of stdin at a time, and prints what each is or why it is refused.
//!
//! Its stdin holds texts, its stdout what the rules of the format and those of JSON make of each, worked by hand: so each
//! run compares `session_text`, `session_reading` and `plain_data` with what was meant.
#![tactic(auto)]

mod row;

use std::io;

fn main(rt: HostRuntime) -> io::Result<()> {
    for line in rt.lines(rt.alloc()) {
        let said = row::said(rt.alloc(), line?.as_str())?;
        println!(rt; "{}", said.as_str())?;
    }
    Ok(())
}
