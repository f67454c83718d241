use desk::PlainDesk;
use origin_core::page_spelled;
use std::alloc::{AllocError, Global};

/// How many renderers a coordinator has at most.
const MOST_RENDERERS: u16 = 16;

/// How many start windows it opens at most.
const MOST_STARTS: u32 = 64;

/// The coordinator that words with one space between them ask for: the number of its renderers, and what each of its start
/// windows loads. None where they aren't of this form, or out of range.
pub fn opened(alloc: Global, text: &str) -> Result<Option<PlainDesk>, AllocError> {
    let (renderers, urls) = text.split_once(' ').unwrap_or((text, ""));
    let Ok(renderers) = renderers.parse::<u16>() else {
        return Ok(None);
    };
    if renderers < 1 || renderers > MOST_RENDERERS {
        return Ok(None);
    }
    let mut desk = PlainDesk::new(alloc, renderers, Vec::new(alloc))?;
    for word in urls.split(' ') {
        let Some(url) = page_spelled(alloc, word)? else {
            return Ok(None);
        };
        if !url.is_web() || desk.log().len() >= MOST_STARTS {
            return Ok(None);
        }
        desk.start(url)?;
    }
    Ok(Some(desk))
}
