ghost use Rattle.std.specs.Prelude.{◌≡◌, true};
ghost use Rattle.step_ranges.specs.Ranges.{are_pages_short};

use crate::links::{Replies, Untold};
use crate::opening::opened;
use crate::pages::Part;
use crate::replies::replies_of;
use crate::turns::turn_text;
use agent_terms::Page;
use desk::PlainDesk;
use link_port::DirectLink;
use renderer::{Turn, Worker};
use std::alloc::{AllocError, Global};
use trace_text::{log_text, record_text};
use tree_view::PlainView;

/// What answers the rows of a play over these pages.
pub fn answers(alloc: Global, pages: &[Page], rows: &[String]) -> Result<String, AllocError>
    requires { are_pages_short pages.now ≡ true }
{
    let mut play = Play {
        alloc,
        pages,
        desk: None,
        workers: Vec::new(alloc),
    };
    let mut out = String::new(alloc);
    for row in rows {
        match play.answer(row.as_str())? {
            Some(answer) => out.push_str(answer.as_str())?,
            None => out.push_str("what\n")?,
        }
    }
    Ok(out)
}

/// The coordinator that the newest row `desk` made, and its renderers by number.
#[derive(Drop)]
struct Play<'a> {
    alloc: Global,
    pages: &'a [Page],
    desk: Option<PlainDesk>,
    workers: Vec<Worker<'a, PlainView>>,
    ghost short: { are_pages_short pages.now ≡ true },
}

impl Play<'_> {
    // What answers a row, each line with a line feed; none where the row is of no form or out of range.
    fn answer(&mut self, row: &str) -> Result<Option<String>, AllocError> {
        let (word, rest) = row.split_once(' ').unwrap_or((row, ""));
        match word {
            "desk" => self.open(row, rest),
            "step" => self.step(rest),
            "given" => self.give(rest),
            "acts" => self.acts(rest),
            "heard" => self.heard(rest),
            "log" => self.log(),
            _ => self.note(row),
        }
    }

    // A row that is printed as it is.
    fn same(&self, row: &str) -> Result<Option<String>, AllocError> {
        Ok(Some(format!(in self.alloc; "{row}\n")?))
    }

    fn note(&self, row: &str) -> Result<Option<String>, AllocError> {
        if row.starts_with('#') {
            return self.same(row);
        }
        match Part::read(self.alloc, row)? {
            Some(_) => self.same(row),
            None => Ok(None),
        }
    }

    fn open(&mut self, row: &str, rest: &str) -> Result<Option<String>, AllocError> {
        let Some(desk) = opened(self.alloc, rest)? else {
            return Ok(None);
        };
        self.workers.clear();
        for renderer in 0..desk.renderers() {
            let worker = Worker::new(self.alloc, renderer, self.pages)?;
            self.workers.push(worker)?;
        }
        self.desk = Some(desk);
        self.same(row)
    }

    fn step(&mut self, rest: &str) -> Result<Option<String>, AllocError> {
        let (renderer, times) = rest.split_once(' ').unwrap_or((rest, "1"));
        let (Ok(renderer), Ok(times)) = (renderer.parse::<u16>(), times.parse::<u32>()) else {
            return Ok(None);
        };
        let worker = self.workers.get_mut(usize::from(renderer));
        let (Some(worker), Some(desk)) = (worker, self.desk.as_mut()) else {
            return Ok(None);
        };
        let mut newest = None;
        for _ in 0..times {
            newest = Some(step_over(desk, renderer, worker)?);
        }
        match newest.flatten() {
            Some(turn) => Ok(Some(turn_text(self.alloc, turn)?)),
            None => Ok(None),
        }
    }

    fn give(&mut self, rest: &str) -> Result<Option<String>, AllocError> {
        let (renderer, words) = rest.split_once(' ').unwrap_or((rest, ""));
        let (Ok(renderer), Some(replies)) = (
            renderer.parse::<usize>(),
            replies_of(self.alloc, words)?,
        ) else {
            return Ok(None);
        };
        match self.workers.get_mut(renderer) {
            Some(worker) => {
                let turn = worker.step(&mut Replies::new(&replies))?;
                Ok(Some(turn_text(self.alloc, turn)?))
            }
            None => Ok(None),
        }
    }

    fn acts(&self, rest: &str) -> Result<Option<String>, AllocError> {
        let Ok(renderer) = rest.parse::<u16>() else {
            return Ok(None);
        };
        match self.workers.get(usize::from(renderer)) {
            Some(worker) => {
                let text = record_text(self.alloc, renderer, worker.acts())?;
                Ok(Some(String::from_str(self.alloc, text.as_str())?))
            }
            None => Ok(None),
        }
    }

    fn heard(&self, rest: &str) -> Result<Option<String>, AllocError> {
        let Ok(renderer) = rest.parse::<usize>() else {
            return Ok(None);
        };
        match self.workers.get(renderer) {
            Some(worker) => {
                let count = worker.heard();
                Ok(Some(format!(in self.alloc; "{count}\n")?))
            }
            None => Ok(None),
        }
    }

    fn log(&self) -> Result<Option<String>, AllocError> {
        match &self.desk {
            Some(desk) => {
                let text = log_text(self.alloc, desk.log())?;
                Ok(Some(String::from_str(self.alloc, text.as_str())?))
            }
            None => Ok(None),
        }
    }
}

// A step of the coordinator's renderer, or none where it has no such renderer.
fn step_over(
    desk: &mut PlainDesk,
    renderer: u16,
    worker: &mut Worker<'_, PlainView>,
) -> Result<Option<Turn>, AllocError> {
    if renderer >= desk.renderers() {
        return Ok(None);
    }
    let turn = worker.step(&mut Untold::new(DirectLink::new(desk, renderer)))?;
    Ok(Some(turn))
}
