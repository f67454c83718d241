//! Runs rows of accesses to Windows and Locations, a row of stdin at a time, and prints what each asker is answered.
//!
//! A row names what it is about and what is done there. Steps stand behind one another with `;` between; each is an
//! operation, what is given and a key, with `|` between:
//!
//! - `window|get||0`: the window n0, asked by d1, whose window it is, and by d3 of another origin.
//! - `location|get||href`: the Location of d1, asked by d1 and by d3, and that of d2, which isn't active, asked by d1.
//! - `none|get||name`, `one|get||name` and `both|get||name`: the window n0 of d1 of x.a.test, asked by d3 of y.a.test, and the
//!   window n2 of x.a.test, asked by d1, where no document has set its domain, where d1 has, and where d1 and d3 have.
//! - `page|open||_blank`: steps that d1 takes on no object.
//! - `assign|/z` and `replace|/z`: the Locations again, sent to a text.
//! - `target|*`: a message's target, for a sender of a.test and for one with an opaque origin.
//! - `clone|window`: what a message takes of a value.
//! - `registers|1 x 7;1 x`: a register that is written, and one that is read.
//!
//! A line that begins with `#` says where the answers to the rows after it come from. It is printed as it is.
#![tactic(auto)]

mod messages;
mod objects;
mod registers;
mod steps;
mod texts;
mod tree;

use std::alloc::{AllocError, Global};
use std::io;

fn answers(alloc: Global, row: &str) -> Result<String, AllocError> {
    let (about, given) = row.split_once('|').unwrap_or((row, ""));
    match about {
        "assign" | "replace" => objects::sent(alloc, about, given),
        "none" => objects::related_answers(alloc, &[], given),
        "one" => objects::related_answers(alloc, &[1], given),
        "both" => objects::related_answers(alloc, &[1, 3], given),
        "target" => messages::targets(alloc, given),
        "clone" => messages::cloned(alloc, given),
        "registers" => registers::answers(alloc, given),
        _ => objects::answers(alloc, about, given),
    }
}

fn main(rt: HostRuntime) -> io::Result<()> {
    for line in rt.lines(rt.alloc()) {
        let line = line?;
        if line.starts_with('#') {
            println!(rt; "{}", line.as_str())?;
        } else {
            let answers = answers(rt.alloc(), line.as_str())?;
            println!(rt; "{}", answers.as_str())?;
        }
    }
    Ok(())
}
