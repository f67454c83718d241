ghost use Rattle.std.specs.Prelude.{◌≡◌, true, IsTrue};
ghost use Rattle.std.specs.List.{list_all};
ghost use Rattle.step_ranges.specs.Ranges.{are_pages_short};
ghost use Rattle.step_rounds.specs.Reading as spec;

use agent_terms::{Page, Step};
use origin_core::{PageUrl, page_spelled};
use plain_data::{Items, Text};
use std::alloc::{AllocError, Global};
use window_props::Key;

/// How many steps the script has: as many as it may have.
const STEPS: usize = 200;

/// Where the steps of the script write what they get.
#[derive(Clone, Copy)]
pub enum Kind {
    /// Nowhere.
    Dropped,
    /// To a register.
    Kept,
}

/// Pages, the last of which has a script, and its URL.
#[derive(Drop)]
pub struct Pages {
    pub all: Vec<Page>,
    pub last: PageUrl,
}

impl Pages {
    /// So many pages: none where there are to be none.
    pub fn new(alloc: Global, kind: Kind, count: u32) -> Result<Option<Pages>, AllocError> {
        let mut all = Vec::new(alloc);
        for number in 1..count {
            let Some(url) = url_of(alloc, number)? else {
                return Ok(None);
            };
            all.push(page(url, Items::new(alloc), alloc))?;
        }
        let Some(url) = url_of(alloc, count)? else {
            return Ok(None);
        };
        let last = url.clone()?;
        all.push(page(url, script(alloc, kind)?, alloc))?;
        Ok(Some(Pages { all, last }))
    }

    /// The steps of the script.
    pub fn script(&self) -> &[Step] {
        match self.all.last() {
            Some(page) => page.script.as_slice(),
            None => &[],
        }
    }
}

fn url_of(alloc: Global, number: u32) -> Result<Option<PageUrl>, AllocError> {
    let text = format!(in alloc; "https://p{number}.test/")?;
    page_spelled(alloc, text.as_str())
}

fn page(url: PageUrl, script: Items<Step>, alloc: Global) -> Page {
    Page {
        url,
        script,
        handler: Items::new(alloc),
    }
}

fn script(alloc: Global, kind: Kind) -> Result<Items<Step>, AllocError> {
    let mut steps = Items::new(alloc);
    for _ in 0..STEPS {
        steps.push(step(alloc, kind)?)?;
    }
    Ok(steps)
}

fn step(alloc: Global, kind: Kind) -> Result<Step, AllocError> {
    let to = match kind {
        Kind::Dropped => None,
        Kind::Kept => Some(Text::copy_of(alloc, "r")?),
    };
    Ok(Step::Get {
        of: Text::copy_of(alloc, "window")?,
        key: Key::read(alloc, "closed")?,
        to,
    })
}

/// Whether a step gets a property.
fn gets(step: &Step) -> bool
    ensures { result ≡ spec.gets step.now }
{
    matches!(step, Step::Get { .. })
}

fn each_gets(steps: &[Step]) -> bool
    ensures { result ≡ list_all spec.gets steps.now }
{
    steps.iter().all(|step| gets(step))
}

/// Whether there are no more steps than may be, and each gets a property.
fn all_get(steps: &[Step]) -> bool
    ensures { result ≡ spec.all_get steps.now }
{
    steps.len() <= STEPS && each_gets(steps)
}

/// Whether the steps of a page all get a property.
fn only_gets(page: &Page) -> bool
    ensures { result ≡ spec.only_gets page.now }
{
    all_get(page.script.as_slice()) && all_get(page.handler.as_slice())
}

fn each_only_gets(pages: &[Page]) -> bool
    ensures { result ≡ list_all spec.only_gets pages.now }
{
    pages.iter().all(|page| only_gets(page))
}

/// Whether the steps of all pages get a property, so that nothing in them is too long for a frame.
#[tactic(auto, using(crate::proofs::Short::pages_short))]
pub fn are_short(pages: &[Page]) -> bool
    ensures { IsTrue result → are_pages_short pages.now ≡ true }
{
    each_only_gets(pages)
}
