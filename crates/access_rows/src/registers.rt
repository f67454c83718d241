use plain_data::Data;
use script_steps::Registers;
use std::alloc::{AllocError, Global};
use window_props::{Value, value_text};

/// What reads of registers answer, between writes to them: `3 x` reads the register x of d3, `3 x 7` writes it.
pub fn answers(alloc: Global, calls: &str) -> Result<String, AllocError> {
    let mut registers = Registers::new(alloc);
    let mut line = String::new(alloc);
    for call in calls.split(';') {
        let (doc, rest) = call.split_once(' ').unwrap_or((call, ""));
        let doc = doc.parse::<u32>().unwrap_or(0);
        match rest.split_once(' ') {
            Some((name, value)) => {
                let whole = value.parse::<i64>().unwrap_or(0);
                registers.set(doc, name, Value::Plain(Data::Whole(whole)))?;
            }
            None => {
                if !line.is_empty() {
                    line.push_str("; ")?;
                }
                line.push_str(value_text(alloc, &registers.get(doc, rest)?)?.as_str())?;
            }
        }
    }
    Ok(line)
}
