//! Plays rows of stdin step by step on workers, and prints a line or more for each.
//!
//! Rows with an empty line between them and others are a play of their own. A play has pages, which its documents are
//! loaded from, and what is done:
//!
//! ```text
//! page https://a.test/              a page
//! script get of=window key=closed   a step of the script of the page above it
//! handler let value=$data           a step of its handler of messages
//! desk 2 https://a.test/            a new coordinator of two renderers with this start window, and new renderers
//! step 0                            renderer 0 makes a step over the coordinator: its turn
//! step 0 5                          it makes five: the turn of the last one
//! given 0 0246 0241                 it makes a step over a link that gives these replies, a call each, and then fails: its turn
//! acts 0                            its record
//! heard 0                           how many entries it has heard
//! log                               the coordinator's log
//! ```
//!
//! A turn is `acted`, `idle`, `stopped`, `full LEN`, `actsfull` or `badreply PLACE`. Records and logs are printed as those of
//! a play. Bytes of a reply are hexadecimal digits, with `+` between parts, and `x` and a number behind a part that is
//! repeated so often.
//!
//! Rows that make pages or a coordinator, and those that begin with `#`, are printed as they are. The latter say where the
//! answers to the rows after them come from. A row that is of no form prints `what` and does nothing. A play prints `what`
//! alone where a page has more steps, or a step a longer text or larger data, than a session may have.
#![tactic(auto)]

mod links;
mod opening;
mod pages;
mod play;
mod replies;
mod short;
mod steps;
mod turns;

use std::alloc::{AllocError, Global};
use std::io;

// What answers the rows of a play.
fn answers(alloc: Global, rows: &[String]) -> Result<String, AllocError> {
    let pages = pages::pages_of(alloc, rows)?;
    if short::are_pages_short(&pages) {
        play::answers(alloc, &pages, rows)
    } else {
        String::from_str(alloc, "what\n")
    }
}

fn main(rt: HostRuntime) -> io::Result<()> {
    let mut rows = Vec::new(rt.alloc());
    for line in rt.lines(rt.alloc()) {
        let line = line?;
        if line.is_empty() {
            println!(rt; "{}", answers(rt.alloc(), &rows)?.as_str())?;
            rows.clear();
        } else {
            rows.push(line)?;
        }
    }
    print!(rt; "{}", answers(rt.alloc(), &rows)?.as_str())
}
