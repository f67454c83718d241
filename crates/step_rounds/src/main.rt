//! Lets a renderer run a script of local steps on one of many pages, as often as it is told: what the script `bench/steps` times.
//!
//! ```text
//! step_rounds counts|times dropped|kept PAGES ROUNDS
//! ```
//!
//! There are so many pages, and the last one has a script of 200 steps, each of which gets `closed` of its window: `dropped`
//! writes the answer nowhere, and `kept` to a register. In each round a new renderer over a new coordinator takes the load of
//! that page and runs its script; and the steps are answered once more by themselves, on the same view and with nothing around
//! them. `counts` prints how many steps acted and how many were answered, in the last round. `times` prints the nanoseconds
//! for all steps of a round, those of the best round and those of the one in the middle: first of the renderer, and then of the
//! answers by themselves.
#![tactic(auto)]

mod pages;
mod rounds;
mod times;

use crate::pages::{Kind, Pages, are_short};
use crate::rounds::{answer_alone, run_script};
use crate::times::Times;
use std::alloc::{AllocError, Global};
use std::process::ExitCode;
use std::time::Clock;
use std::{env, io};

/// What is printed.
#[derive(Clone, Copy)]
enum Form {
    Counts,
    Times,
}

/// What the rounds came to: how many steps acted, how many were answered by themselves, and the times of both.
#[derive(Drop)]
struct Sums {
    acted: u32,
    answered: u32,
    worker: Times,
    alone: Times,
}

fn form_of(word: &str) -> Option<Form> {
    match word {
        "counts" => Some(Form::Counts),
        "times" => Some(Form::Times),
        _ => None,
    }
}

fn kind_of(word: &str) -> Option<Kind> {
    match word {
        "dropped" => Some(Kind::Dropped),
        "kept" => Some(Kind::Kept),
        _ => None,
    }
}

fn number_of(word: Option<String>) -> Option<u32> {
    word.and_then(|word| word.parse::<u32>().ok())
}

fn run<C: Clock>(clock: &C, alloc: Global, pages: &Pages, rounds: u32) -> io::Result<Sums> {
    let mut sums = Sums {
        acted: 0,
        answered: 0,
        worker: Times::new(alloc),
        alone: Times::new(alloc),
    };
    if !are_short(pages.all.as_slice()) {
        return Ok(sums);
    }
    for _ in 0..rounds {
        let run = run_script(clock, alloc, pages)?;
        sums.acted = run.steps;
        sums.worker.add(run.nanoseconds)?;
        let answered = answer_alone(clock, alloc, pages)?;
        sums.answered = answered.steps;
        sums.alone.add(answered.nanoseconds)?;
    }
    Ok(sums)
}

fn text(alloc: Global, form: Form, sums: Sums) -> Result<String, AllocError> {
    match form {
        Form::Counts => {
            let (acted, answered) = (sums.acted, sums.answered);
            format!(in alloc; "{acted} acts, {answered} answers")
        }
        Form::Times => {
            let (worker, alone) = (sums.worker.sorted()?, sums.alone.sorted()?);
            let (best, middle) = (worker.best(), worker.middle());
            let (best_alone, middle_alone) = (alone.best(), alone.middle());
            format!(in alloc; "{best} {middle} {best_alone} {middle_alone}")
        }
    }
}

fn main(rt: HostRuntime) -> io::Result<ExitCode> {
    let mut words = env::args(&rt)?.skip(1);
    let form = words.next().and_then(|word| form_of(word.as_str()));
    let kind = words.next().and_then(|word| kind_of(word.as_str()));
    let count = number_of(words.next());
    let rounds = number_of(words.next());
    let (Some(form), Some(kind), Some(count), Some(rounds)) = (form, kind, count, rounds) else {
        println!(rt; "step_rounds counts|times dropped|kept PAGES ROUNDS")?;
        return Ok(ExitCode::from(2));
    };
    let Some(pages) = Pages::new(rt.alloc(), kind, count)? else {
        return Ok(ExitCode::from(1));
    };
    let sums = run(&rt, rt.alloc(), &pages, rounds)?;
    let text = text(rt.alloc(), form, sums)?;
    println!(rt; "{text}")?;
    Ok(ExitCode::from(0))
}
