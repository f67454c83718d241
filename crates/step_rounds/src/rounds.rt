ghost use Rattle.std.specs.Prelude.{◌≡◌, ◌<◌, ℕ, true, IfOk};
ghost use Rattle.desk.specs.History.{told_of};
ghost use Rattle.renderer.specs.Fitting.{IsFor};
ghost use Rattle.renderer.specs.Worker.{held};
ghost use Rattle.step_ranges.specs.Ranges.{are_pages_short};

use crate::pages::Pages;
use agent_terms::{Performed, Request, Step};
use desk::{Desk, PlainDesk};
use link_exchange::{EmptyView, Replica, exchange};
use link_port::DirectLink;
use link_wire::Link;
use origin_core::PageUrl;
use renderer::{Turn, Worker};
use script_steps::{Registers, Stores, local};
use std::alloc::{AllocError, Global};
use std::io;
use std::time::{Clock, Instant};
use tree_view::{PlainView, View};

/// The document of the page in the start window.
const DOC: u32 = 1;

/// How many steps were made, and the time of all that were tried.
#[derive(Clone, Copy)]
pub struct Round {
    pub steps: u32,
    pub nanoseconds: u64,
}

fn since<C: Clock>(clock: &C, begun: Instant) -> io::Result<u64> {
    let nanoseconds = begun.elapsed(clock)?.as_nanos();
    Ok(u64::try_from(nanoseconds).unwrap_or(u64::MAX))
}

/// A coordinator of one renderer, with a window that loads the page. It has told nothing.
fn coordinator(alloc: Global, page: &PageUrl) -> Result<PlainDesk, AllocError>
    ensures { IfOk result (λ desk. (renderer : ℕ) → told_of desk.history renderer ≡ 0) }
{
    let mut desk = Desk::new(alloc, 1, Vec::new(alloc))?;
    desk.start(page.clone()?)?;
    Ok(desk)
}

fn step_on<C: Clock, V: EmptyView, L: Link>(
    clock: &C,
    worker: &mut Worker<V>,
    link: &mut L,
    count: usize,
) -> io::Result<Round>
    requires { IsFor L.Link (held worker.old) link.old }
{
    let begun = Instant::now(clock)?;
    let mut steps: u32 = 0;
    'steps: for _ in 0..count {
        if matches!(worker.step(link)?, Turn::Acted) {
            steps = steps.saturating_add(1);
        }
    }
    let nanoseconds = since(clock, begun)?;
    Ok(Round { steps, nanoseconds })
}

/// Has a new renderer take the load of the last page and run its script.
pub fn run_script<C: Clock>(clock: &C, alloc: Global, pages: &Pages) -> io::Result<Round>
    requires { are_pages_short pages.now.all.items ≡ true }
{
    let mut desk = coordinator(alloc, &pages.last)?;
    let mut link = DirectLink::new(&mut desk, 0);
    let mut worker: Worker<PlainView> = Worker::new(alloc, 0, pages.all.as_slice())?;
    worker.step(&mut link)?;
    step_on(clock, &mut worker, &mut link, pages.script().len())
}

fn answer_on<C: Clock, V: View>(
    clock: &C,
    alloc: Global,
    view: &V,
    script: &[Step],
    doc: u32,
) -> io::Result<Round>
    requires { doc < (V.tree view.now).docs }
{
    let registers = Registers::new(alloc);
    let mut stores = Stores::new(alloc);
    let begun = Instant::now(clock)?;
    let mut steps: u32 = 0;
    for step in script {
        let performed = local(alloc, step, view, &mut stores, &registers, doc)?;
        if matches!(performed, Performed::Answer(_)) {
            steps = steps.saturating_add(1);
        }
    }
    let nanoseconds = since(clock, begun)?;
    Ok(Round { steps, nanoseconds })
}

/// Answers the steps of the script by themselves, on what a renderer heard once it took the load of the last page.
pub fn answer_alone<C: Clock>(clock: &C, alloc: Global, pages: &Pages) -> io::Result<Round> {
    let mut desk = coordinator(alloc, &pages.last)?;
    let mut link = DirectLink::new(&mut desk, 0);
    let mut replica: Replica<PlainView> = Replica::new(alloc);
    exchange(alloc, &mut replica, 0, &mut link, &Request::Next)?;
    let view = replica.view();
    if DOC >= view.docs() {
        return Ok(Round {
            steps: 0,
            nanoseconds: 0,
        });
    }
    answer_on(clock, alloc, view, pages.script(), DOC)
}
