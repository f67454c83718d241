//! Drives a coordinator as often as it is told: what the script `bench/desk` times.
//!
//! ```text
//! desk_rounds posts ENTRIES BUILDS
//! desk_rounds frames COUNT
//! desk_rounds admitted COUNT
//! ```
//!
//! `posts` builds a coordinator so often, whose log comes to so many entries: two renderers post to each other, and after
//! each message the other one takes its next task. It prints how many entries the last log has, and how many of its
//! exchanges were answered `Done` or with a task.
//!
//! `frames` serves so many random frames in one coordinator of four renderers: requests with random numbers, such
//! requests with a byte changed or cut short, and random bytes. They are the same in each run. It prints the number of
//! entries and how many replies there were of each kind. `admitted` then also tests of each entry in turn whether it can
//! follow, in a view of its own, and prints how many could.
#![tactic(auto)]

mod dice;
mod frames;
mod posts;
mod replay;
mod requests;

use crate::frames::serve_frames;
use crate::posts::post_to_each_other;
use crate::replay::admitted;
use std::alloc::{AllocError, Global};
use std::process::ExitCode;
use std::{env, io};

/// What is timed.
#[derive(Clone, Copy)]
enum Form {
    Posts { entries: u32, builds: u32 },
    Frames { count: u32 },
    Admitted { count: u32 },
}

fn form_of(word: &str, first: Option<u32>, second: Option<u32>) -> Option<Form> {
    match (word, first, second) {
        ("posts", Some(entries), Some(builds)) => Some(Form::Posts { entries, builds }),
        ("frames", Some(count), None) => Some(Form::Frames { count }),
        ("admitted", Some(count), None) => Some(Form::Admitted { count }),
        _ => None,
    }
}

fn number_of(word: Option<String>) -> Option<u32> {
    word.and_then(|word| word.parse::<u32>().ok())
}

fn run(alloc: Global, form: Form) -> Result<String, AllocError> {
    match form {
        Form::Posts { entries, builds } => {
            let posted = post_to_each_other(alloc, entries, builds)?;
            let (entries, answered, exchanges) = (
                posted.entries,
                posted.answered,
                posted.exchanges,
            );
            format!(in alloc; "{entries} entries, {answered} of {exchanges} exchanges")
        }
        Form::Frames { count } => {
            let (_desk, counts) = serve_frames(alloc, count)?;
            counts.text(alloc)
        }
        Form::Admitted { count } => {
            let (desk, counts) = serve_frames(alloc, count)?;
            let text = counts.text(alloc)?;
            let admitted = admitted(alloc, desk.log())?;
            format!(in alloc; "{text}\n{admitted} admitted")
        }
    }
}

fn main(rt: HostRuntime) -> io::Result<ExitCode> {
    let mut words = env::args(&rt)?.skip(1);
    let word = words.next();
    let first = number_of(words.next());
    let second = number_of(words.next());
    let Some(form) = word.and_then(|word| form_of(word.as_str(), first, second)) else {
        println!(rt; "desk_rounds posts ENTRIES BUILDS, or frames|admitted COUNT")?;
        return Ok(ExitCode::from(2));
    };
    let text = run(rt.alloc(), form)?;
    println!(rt; "{text}")?;
    Ok(ExitCode::from(0))
}
