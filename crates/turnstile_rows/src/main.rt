//! Runs rows of races through a turnstile, a row of stdin at a time, and prints what is the same under every schedule.
//!
//! A row `SEATS ROUNDS EVERY` gives each of that many seats a thread, which goes in that many times, and each EVERY times adds
//! an item to the log that they share: how many it added before. The answer says how many items the log has, and which are
//! each seat's, in the order of the log. A line that begins with `#` is printed as it is.
#![tactic(auto)]

mod facts;
mod link;
mod log;
mod race;
mod racer;
mod row;

use facts::facts;
use log::Log;
use race::run_race;
use row::Row;
use std::io;

fn main(rt: HostRuntime) -> io::Result<()> {
    for line in rt.lines(rt.alloc()) {
        let line = line?;
        if line.as_str().starts_with('#') {
            println!(rt; "{line}")?;
            continue;
        }
        let Some(row) = Row::read(line.as_str()) else {
            println!(rt; "no such row")?;
            continue;
        };
        let log = Log {
            items: Vec::new(rt.alloc()),
        };
        let (log, _records) = run_race(&rt, rt.alloc(), log, row.seats, row.work)?;
        let text = facts(rt.alloc(), &log, row.seats)?;
        println!(rt; "{text}")?;
    }
    Ok(())
}
