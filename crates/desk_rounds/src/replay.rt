use std::alloc::{AllocError, Global};
use tree_log::Log;
use tree_view::{PlainView, View};

/// How many entries of a log, from the first on, can follow those before them.
pub fn admitted(alloc: Global, log: &Log) -> Result<usize, AllocError> {
    let mut view = PlainView::new(alloc);
    for (place, entry) in log.entries().iter().enumerate() {
        if !view.admits(entry) {
            return Ok(place);
        }
        view.apply(entry)?;
    }
    Ok(log.entries().len())
}
