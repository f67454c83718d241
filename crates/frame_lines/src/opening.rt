use crate::digits::number_of;
use desk::PlainDesk;
use origin_core::{HostText, PageUrl, UrlError, read_url};
use std::alloc::{AllocError, Global};

/// How many renderers a coordinator has at most.
const MOST_RENDERERS: u16 = 16;

/// How many start windows it opens at most.
const MOST_STARTS: u32 = 64;

/// How many bytes a public suffix has at most.
const MOST_SUFFIX: usize = 253;

/// The coordinator that words with one space between them ask for: the number of its renderers, the public suffixes, and
/// what each of its start windows loads. None where they aren't of this form, or out of range.
pub fn opened(alloc: Global, text: &str) -> Result<Option<PlainDesk>, AllocError> {
    let mut words = text.split(' ');
    let renderers = words.next().and_then(number_of);
    let suffixes = words.next();
    let (Some(renderers), Some(suffixes)) = (renderers, suffixes) else {
        return Ok(None);
    };
    if renderers < 1 || renderers > MOST_RENDERERS {
        return Ok(None);
    }
    let Some(suffixes) = suffixes_of(alloc, suffixes)? else {
        return Ok(None);
    };
    let mut desk = PlainDesk::new(alloc, renderers, suffixes)?;
    for word in words {
        let Some(url) = url_of(alloc, word)? else {
            return Ok(None);
        };
        if !url.is_web() || desk.log().len() >= MOST_STARTS {
            return Ok(None);
        }
        desk.start(url)?;
    }
    Ok(Some(desk))
}

// Suffixes with commas between them, or a dash where there are none.
fn suffixes_of(alloc: Global, text: &str) -> Result<Option<Vec<HostText>>, AllocError> {
    let mut suffixes = Vec::new(alloc);
    if text == "-" {
        return Ok(Some(suffixes));
    }
    for suffix in text.split(',') {
        if !is_suffix(suffix) {
            return Ok(None);
        }
        suffixes.push(HostText::copy_of(alloc, suffix)?)?;
    }
    Ok(Some(suffixes))
}

// Labels with dots between them, as a session's suffixes have them.
fn is_suffix(text: &str) -> bool {
    text.len() <= MOST_SUFFIX && text.split('.').all(is_label)
}

fn is_label(text: &str) -> bool {
    !text.is_empty()
        && text
            .bytes()
            .all(|byte| matches!(byte, b'a'..=b'z' | b'0'..=b'9' | b'-'))
}

// The URL of a page, as a session's start is read.
fn url_of(alloc: Global, text: &str) -> Result<Option<PageUrl>, AllocError> {
    match read_url(alloc, text, None) {
        Ok(url) => Ok(Some(url)),
        Err(UrlError::NoMemory) => Err(AllocError),
        Err(_) => Ok(None),
    }
}
