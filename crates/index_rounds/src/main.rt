//! Feeds the index of what waits and the index of homes, and asks them, as often as it is told: what the script
//! `bench/indexes` times.
//!
//! ```text
//! index_rounds messages unfed|asked|taken ENTRIES BUILDS ANSWERS
//! index_rounds loads unfed|asked|taken ENTRIES BUILDS ANSWERS
//! index_rounds homes asked|taken ENTRIES BUILDS ANSWERS
//! ```
//!
//! It builds so many entries so often, and asks each build so often. `messages` are messages that wait at the document
//! of a window, and `loads` are sandboxed frames of it, whose loads wait at another renderer. They are appended to a
//! log, applied to a view, and fed to the index, but for `unfed`, where there is no index. `asked` asks for the next
//! task, and `taken` also appends the entry that takes it. `homes` are sandboxed frames, each with a site of its own:
//! `asked` asks for the homes of sites that were noted, and `taken` for those of sites that were not.
//!
//! It prints how many entries the last build has and how many of its answers were tasks, or homes at renderer 1.
#![tactic(auto)]

mod entries;
mod sites;
mod waits;

use crate::entries::Kind;
use crate::sites::run_sites;
use crate::waits::{run_unfed, run_waits};
use std::alloc::{AllocError, Global};
use std::process::ExitCode;
use std::{env, io};
use tree_view::PlainView;

/// What an index is fed.
#[derive(Clone, Copy)]
enum Form {
    Waits(Kind),
    Homes,
}

/// What is done with what was built.
#[derive(Clone, Copy, PartialEq, Eq)]
enum Use {
    /// There is no index.
    Unfed,
    Asked,
    Taken,
}

/// How much of it.
#[derive(Clone, Copy)]
struct Size {
    entries: u32,
    builds: u32,
    answers: u32,
}

/// What the last build came to.
#[derive(Clone, Copy)]
pub struct Counts {
    pub entries: usize,
    pub answered: usize,
}

fn form_of(word: &str) -> Option<Form> {
    match word {
        "messages" => Some(Form::Waits(Kind::Message)),
        "loads" => Some(Form::Waits(Kind::Load)),
        "homes" => Some(Form::Homes),
        _ => None,
    }
}

fn use_of(word: &str) -> Option<Use> {
    match word {
        "unfed" => Some(Use::Unfed),
        "asked" => Some(Use::Asked),
        "taken" => Some(Use::Taken),
        _ => None,
    }
}

fn number_of(word: Option<String>) -> Option<u32> {
    word.and_then(|word| word.parse::<u32>().ok())
}

fn size_of(entries: Option<u32>, builds: Option<u32>, answers: Option<u32>) -> Option<Size> {
    Some(Size {
        entries: entries?,
        builds: builds?,
        answers: answers?,
    })
}

fn run_once(alloc: Global, form: Form, asks: Use, size: Size) -> Result<Counts, AllocError> {
    let taken = asks == Use::Taken;
    match form {
        Form::Homes => run_sites(alloc, size.entries, size.answers, taken),
        Form::Waits(kind) => {
            let view = PlainView::new(alloc);
            if asks == Use::Unfed {
                return run_unfed(alloc, view, kind, size.entries);
            }
            run_waits(alloc, view, kind, size.entries, size.answers, taken)
        }
    }
}

fn run(alloc: Global, form: Form, asks: Use, size: Size) -> Result<Counts, AllocError> {
    let mut counts = Counts {
        entries: 0,
        answered: 0,
    };
    for _ in 0..size.builds {
        counts = run_once(alloc, form, asks, size)?;
    }
    Ok(counts)
}

fn main(rt: HostRuntime) -> io::Result<ExitCode> {
    let mut words = env::args(&rt)?.skip(1);
    let form = words.next().and_then(|word| form_of(word.as_str()));
    let asks = words.next().and_then(|word| use_of(word.as_str()));
    let entries = number_of(words.next());
    let builds = number_of(words.next());
    let answers = number_of(words.next());
    let (Some(form), Some(asks), Some(size)) = (form, asks, size_of(entries, builds, answers))
    else {
        println!(rt; "index_rounds messages|loads|homes unfed|asked|taken ENTRIES BUILDS ANSWERS")?;
        return Ok(ExitCode::from(2));
    };
    let counts = run(rt.alloc(), form, asks, size)?;
    println!(rt;
        "{} entries, {} of {} answers",
        counts.entries, counts.answered, size.answers
    )?;
    Ok(ExitCode::from(0))
}
