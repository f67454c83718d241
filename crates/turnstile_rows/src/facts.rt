use crate::log::{Item, Log};
use std::alloc::{AllocError, Global};

/// So many items of a seat are printed one by one.
const FEW: usize = 8;

/// How many items there are, and which each seat added, in the order of the log.
pub fn facts(alloc: Global, log: &Log, seats: u16) -> Result<String, AllocError> {
    let mut text = format!(in alloc; "{} items", log.items.len())?;
    for seat in 0..seats {
        let own = items_of(alloc, log.items.as_slice(), seat)?;
        let part = format!(in alloc; "; seat {seat}: ")?;
        text.push_str(part.as_str())?;
        let values = values_text(alloc, own.as_slice())?;
        text.push_str(values.as_str())?;
    }
    Ok(text)
}

// What this seat added.
fn items_of(alloc: Global, items: &[Item], seat: u16) -> Result<Vec<u64>, AllocError> {
    let mut own = Vec::new(alloc);
    for item in items {
        if item.by == seat {
            own.push(item.value)?;
        }
    }
    Ok(own)
}

// A few values as they are, and of more their number and whether they count up from 0.
fn values_text(alloc: Global, values: &[u64]) -> Result<String, AllocError> {
    if values.len() > FEW {
        let order = if counts_up(values) {
            "in order"
        } else {
            "out of order"
        };
        return format!(in alloc; "{} {order}", values.len());
    }
    if values.is_empty() {
        return String::from_str(alloc, "none");
    }
    let mut text = String::new(alloc);
    for value in values {
        let separator = if text.is_empty() { "" } else { " " };
        let word = format!(in alloc; "{separator}{value}")?;
        text.push_str(word.as_str())?;
    }
    Ok(text)
}

// Whether the values are 0, 1, 2 and so on.
fn counts_up(values: &[u64]) -> bool {
    values
        .iter()
        .enumerate()
        .all(|(place, &value)| value == place as u64)
}
