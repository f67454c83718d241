use plain_data::{Data, copy, quote, same, text_of};
use serde_json::Value;
use session_reading::read_data;
use session_text::{SessionError, read_session, refusal_text, summary_text};
use std::alloc::{AllocError, Global};

/// What is printed for a row, without the line feed. A row that begins with `#` is a heading, and is printed as it is;
/// one that begins with `repeat` stands for the longer row that it spells.
pub fn said(alloc: Global, row: &str) -> Result<String, AllocError> {
    if row.starts_with('#') {
        return String::from_str(alloc, row);
    }
    match row.strip_prefix("repeat ") {
        Some(rest) => {
            let spelled = repeated(alloc, rest)?;
            answer(alloc, spelled.as_str())
        }
        None => answer(alloc, row),
    }
}

// A row is a session's text, or a word and what it is about.
fn answer(alloc: Global, row: &str) -> Result<String, AllocError> {
    if row.starts_with('{') {
        return session(alloc, row.as_bytes());
    }
    let (word, given) = row.split_once(' ').unwrap_or((row, ""));
    match word {
        "session" => session(alloc, given.as_bytes()),
        "bytes" => session(alloc, &bytes(alloc, given)?),
        "pages" => within(alloc, given, "", ""),
        "step" => within(alloc, given, r#"{"url":"https://a.test/","script":["#, "]}"),
        "value" => {
            let before = r#"{"url":"https://a.test/","script":[{"op":"let","value":"#;
            within(alloc, given, before, "}]}")
        }
        "data" => text_of_data(alloc, given),
        "same" => sameness(alloc, given),
        "quote" => quoted(alloc, given),
        _ => String::from_str(alloc, "no such row"),
    }
}

// A count, what comes before, a piece, what stands between two, and what comes after, with a tab between each. A percent
// sign in the piece stands for its number, from 0.
fn repeated(alloc: Global, spelling: &str) -> Result<String, AllocError> {
    let (count, rest) = spelling.split_once('\t').unwrap_or((spelling, ""));
    let (before, rest) = rest.split_once('\t').unwrap_or((rest, ""));
    let (piece, rest) = rest.split_once('\t').unwrap_or((rest, ""));
    let (between, after) = rest.split_once('\t').unwrap_or((rest, ""));
    let mut row = String::from_str(alloc, before)?;
    for number in 0..count.parse::<u32>().unwrap_or(0) {
        if number > 0 {
            row.push_str(between)?;
        }
        match piece.split_once('%') {
            Some((front, back)) => write!(row, "{front}{number}{back}")?,
            None => row.push_str(piece)?,
        }
    }
    row.push_str(after)?;
    Ok(row)
}

// Bytes as two hexadecimal digits each, with a space between two.
fn bytes(alloc: Global, digits: &str) -> Result<Vec<u8>, AllocError> {
    let mut bytes = Vec::new(alloc);
    for pair in digits.split(' ') {
        bytes.push(u8::from_str_radix(pair, 16).unwrap_or(0))?;
    }
    Ok(bytes)
}

// The line on the session that has these pages, or on one page of which this is a part.
fn within(alloc: Global, given: &str, before: &str, after: &str) -> Result<String, AllocError> {
    let beginning = r#"{"renderers":1,"start":["https://a.test/"],"pages":["#;
    let text = format!(in alloc; "{beginning}{before}{given}{after}]}}")?;
    session(alloc, text.as_bytes())
}

// The line on a session, or the refusal.
fn session(alloc: Global, text: &[u8]) -> Result<String, AllocError> {
    match read_session(alloc, text) {
        Ok(session) => line(alloc, summary_text(alloc, &session)?),
        Err(refusal) => refused(alloc, &refusal),
    }
}

fn refused(alloc: Global, refusal: &SessionError) -> Result<String, AllocError> {
    match refusal {
        SessionError::NoMemory => Err(AllocError),
        _ => line(alloc, refusal_text(alloc, refusal)?),
    }
}

// The text without the line feed at its end.
fn line(alloc: Global, text: String) -> Result<String, AllocError> {
    String::from_str(
        alloc,
        text.as_str().strip_suffix('\n').unwrap_or(text.as_str()),
    )
}

// The data that a JSON text spells.
fn data(alloc: Global, text: &str) -> Result<Data, SessionError> {
    match Value::from_slice(alloc, text.as_bytes()) {
        Ok(value) => read_data(alloc, &value),
        Err(e) if e.is_memory() => Err(SessionError::NoMemory),
        Err(_) => Err(SessionError::NotJson),
    }
}

// The text of a copy of the data.
fn text_of_data(alloc: Global, text: &str) -> Result<String, AllocError> {
    match data(alloc, text) {
        Ok(value) => {
            let copied = copy(&value)?;
            let text = text_of(alloc, &copied)?;
            String::from_str(alloc, text.as_str())
        }
        Err(refusal) => refused(alloc, &refusal),
    }
}

// Whether two texts, with a tab between them, spell the same data.
fn sameness(alloc: Global, texts: &str) -> Result<String, AllocError> {
    let (left, right) = texts.split_once('\t').unwrap_or((texts, ""));
    let left = match data(alloc, left) {
        Ok(left) => left,
        Err(refusal) => return refused(alloc, &refusal),
    };
    let right = match data(alloc, right) {
        Ok(right) => right,
        Err(refusal) => return refused(alloc, &refusal),
    };
    let alike = same(&left, &right);
    format!(in alloc; "{alike}")
}

// The text that JSON spells, quoted anew.
fn quoted(alloc: Global, text: &str) -> Result<String, AllocError> {
    match data(alloc, text) {
        Ok(Data::Text(text)) => quote(alloc, text.as_str()),
        Ok(_) => String::from_str(alloc, "no text"),
        Err(refusal) => refused(alloc, &refusal),
    }
}
