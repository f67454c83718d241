//! Runs rows of reads of an indexed view, a row of stdin at a time, and prints the answers.
//!
//! A line that begins with `#` says which rule the rows after it come from, and is printed as it is. A line `tree` holds
//! commands that make a tree, with `;` between two, and prints how many navigables and documents the tree has, and how
//! many navigables were not discarded. A line `then` holds more commands for that tree. Every other line asks about the
//! newest tree; behind its bar stands the rule in plain words by which the expected answer was worked.
#![tactic(auto)]

mod asking;
mod building;
mod making;

use indexed_view::IndexedView;
use std::io;

fn main(rt: HostRuntime) -> io::Result<()> {
    let mut view = IndexedView::new(rt.alloc());
    for line in rt.lines(rt.alloc()) {
        let line = line?;
        let row = line.as_str();
        if row.starts_with('#') {
            println!(rt; "{row}")?;
            continue;
        }
        let (word, rest) = row.split_once(' ').unwrap_or((row, ""));
        if word == "tree" {
            view = IndexedView::new(rt.alloc());
        }
        if word == "tree" || word == "then" {
            let made = building::build(rt.alloc(), &mut view, rest)?;
            println!(rt; "{}", made.as_str())?;
        } else {
            let answer = asking::answer(rt.alloc(), &view, row)?;
            println!(rt; "{}", answer.as_str())?;
        }
    }
    Ok(())
}
