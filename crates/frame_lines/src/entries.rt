use std::alloc::{AllocError, Global};
use trace_text::entry_text;
use tree_log::Log;

/// A line for each entry of a log, and a last one.
pub fn entries_text(alloc: Global, log: &Log) -> Result<String, AllocError> {
    let mut out = String::new(alloc);
    for place in 0..log.len() {
        if let Some(entry) = log.at(place) {
            out.push_str(entry_text(alloc, place, entry)?.as_str())?;
            out.push_str("\n")?;
        }
    }
    out.push_str("end")?;
    Ok(out)
}
