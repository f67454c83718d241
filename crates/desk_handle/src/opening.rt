ghost use Rattle.std.specs.Prelude.{◌≡◌, ◌<◌, ◌+◌, [], true, false, length, is_some, is_none, IsTrue};
ghost use Rattle.agent_terms.specs.Limits.{most_starts, most_renderers};
ghost use Rattle.byte_answers.specs.Answers.{Gives, GivesBy};
ghost use Rattle.desk.specs.History.{log_of};
ghost use Rattle.desk_handle.specs.Calls as spec;

use crate::handle::{Boxed, Handle};
use byte_answers::{Answer, page_of, suffixes_of};
use desk::PlainDesk;
use origin_core::PageUrl;
use std::alloc::Global;

/// How many renderers a coordinator has at most.
const MOST_RENDERERS: u16 = 16;

/// In a log of so many entries no start window is opened any more.
const MOST_STARTS: u32 = 80;

// A coordinator over an empty log.
fn made(alloc: Global, renderers: u16, suffixes: &[u8]) -> Result<PlainDesk, Answer>
    ensures { Gives result (spec.made renderers suffixes.now) }
{
    if renderers < 1 || renderers > MOST_RENDERERS {
        return Err(Answer::OutOfRange);
    }
    match suffixes_of(alloc, suffixes) {
        Ok(suffixes) => match PlainDesk::new(alloc, renderers, suffixes) {
            Ok(desk) => Ok(desk),
            Err(_) => Err(Answer::NoMemory),
        },
        Err(why) => Err(why),
    }
}

/// Makes a coordinator of 1 to 16 renderers over an empty log, with a list of public suffixes, a comma between two of them.
pub fn open(alloc: Global, handle: &mut Handle, renderers: u16, suffixes: &[u8]) -> Answer
    requires none { IsTrue (is_none handle.old.desk) }
    ensures { spec.Opens (spec.made renderers suffixes.now) handle.new.desk result }
{
    match made(alloc, renderers, suffixes) {
        Ok(desk) => match Box::new(alloc, Boxed { desk }) {
            Ok(boxed) => {
                handle.put(boxed);
                Answer::Done
            }
            Err(_) => Answer::NoMemory,
        },
        Err(why) => why,
    }
}

// The http or https URL that bytes are.
fn web_page_of(alloc: Global, url: &[u8]) -> Result<PageUrl, Answer>
    ensures { Gives result (spec.web_told url.now) }
{
    match page_of(alloc, url) {
        Ok(page) => {
            if page.is_web() {
                Ok(page)
            } else {
                Err(Answer::SchemeOut)
            }
        }
        Err(why) => Err(why),
    }
}

// Opens a start window.
fn started(desk: &mut PlainDesk, page: PageUrl, nav: &mut u32) -> Answer
    ensures { spec.Starts page desk.old desk.new nav.old nav.new result }
{
    if desk.log().len() >= MOST_STARTS {
        return Answer::OutOfRange;
    }
    match desk.start(page) {
        Ok(opened) => {
            *nav = opened;
            Answer::Done
        }
        Err(_) => Answer::NoMemory,
    }
}

/// Opens a start window that loads an http or https URL, and says the number of its navigable.
pub fn start(alloc: Global, handle: &mut Handle, url: &[u8], nav: &mut u32) -> Answer
    requires there { IsTrue (is_some handle.old.desk) }
    ensures { spec.Changes handle.old.desk handle.new.desk (λ old new. spec.StartsOn (spec.web_told url.now) old new nav.old nav.new result) }
{
    match web_page_of(alloc, url) {
        Ok(page) => {
            let mut boxed = handle.take(alloc);
            let answer = started(&mut boxed.desk, page, nav);
            handle.put(boxed);
            answer
        }
        Err(why) => why,
    }
}

/// Frees the coordinator.
pub fn free(alloc: Global, handle: &mut Handle)
    requires there { IsTrue (is_some handle.old.desk) }
    ensures { IsTrue (is_none handle.new.desk) }
{
    let _boxed = handle.take(alloc);
}
