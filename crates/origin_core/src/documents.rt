//! The origins of new documents (HTML Standard, section 7.3.2.1, "determine the origin").

ghost use Rattle.std.specs.Prelude.{◌≡◌, IfOk};
ghost use Rattle.origin_core.specs.Origin as spec;

use crate::of_url::url_origin;
use crate::origin::Origin;
use crate::page::PageUrl;
use std::alloc::{AllocError, Global};

/// The origin of the loaded document `doc`: a new opaque one where its navigable is `sandboxed`
/// (has the origin flag), else for `about:blank` that of the document that asked, else the URL's.
pub fn loaded_origin(
    alloc: Global,
    sandboxed: bool,
    doc: u32,
    asker: &Origin,
    url: &PageUrl,
) -> Result<Origin, AllocError>
    ensures { IfOk result (λ origin. origin ≡ spec.loaded_origin sandboxed doc asker.now url.now) }
{
    if sandboxed {
        return Ok(Origin::Opaque(doc));
    }
    match url_origin(alloc, url)? {
        Some(origin) => Ok(origin),
        None => asker.clone(),
    }
}

/// The origin of a frame's initial document `doc`: a new opaque one where its navigable is
/// `sandboxed` (has the origin flag), else that of its embedder document.
pub fn frame_origin(sandboxed: bool, doc: u32, embedder: &Origin) -> Result<Origin, AllocError>
    ensures { IfOk result (λ origin. origin ≡ spec.frame_origin sandboxed doc embedder.now) }
{
    if sandboxed {
        return Ok(Origin::Opaque(doc));
    }
    embedder.clone()
}

/// The origin of the initial document `doc` of a window that a document made: a new opaque one
/// with noopener, else that of its creator.
pub fn window_origin(noopener: bool, doc: u32, creator: &Origin) -> Result<Origin, AllocError>
    ensures { IfOk result (λ origin. origin ≡ spec.window_origin noopener doc creator.now) }
{
    if noopener {
        return Ok(Origin::Opaque(doc));
    }
    creator.clone()
}
