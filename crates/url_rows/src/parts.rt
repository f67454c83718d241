use std::alloc::{AllocError, Global};

/// The first part of a row, and the rest of it.
pub fn cut(row: &str) -> (&str, &str) {
    row.split_once('|').unwrap_or((row, ""))
}

/// The text that a part of a row stands for. `␠`, `␉` and `␊` stand for a space, a tab and a new line, and
/// `TEXT*MORE*7` for the text with seven times more after it.
pub fn text_of(alloc: Global, part: &str) -> Result<String, AllocError> {
    let (front, rest) = part.split_once('*').unwrap_or((part, ""));
    let (more, times) = rest.split_once('*').unwrap_or((rest, ""));
    let mut text = String::new(alloc);
    push_plain(&mut text, front)?;
    for _ in 0..times.parse::<u16>().unwrap_or(0) {
        push_plain(&mut text, more)?;
    }
    Ok(text)
}

fn push_plain(text: &mut String, part: &str) -> Result<(), AllocError> {
    for letter in part.chars() {
        text.push(match letter {
            '␠' => ' ',
            '␉' => '\t',
            '␊' => '\n',
            other => other,
        })?;
    }
    Ok(())
}

/// A copy of a text, or of one over 99 bytes the number of its bytes.
pub fn shown(alloc: Global, text: &str) -> Result<String, AllocError> {
    if text.len() > 99 {
        return format!(in alloc; "{} bytes", text.len());
    }
    String::from_str(alloc, text)
}

/// A truth value as a text.
pub fn truth(alloc: Global, truth: bool) -> Result<String, AllocError> {
    format!(in alloc; "{truth}")
}
