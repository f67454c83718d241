use crate::texts::target_text;
use origin_core::{Origin, read_origin};
use plain_data::{Data, Items, Text};
use std::alloc::{AllocError, Global};
use web_message::{CloneError, TargetError, clone_of, target_of};
use window_props::{Kind, Method, Object, Value, value_text};

fn meant(alloc: Global, text: &str, sender: &Origin) -> Result<String, AllocError> {
    match target_of(alloc, text, sender) {
        Ok(target) => target_text(alloc, &target),
        Err(TargetError::Syntax) => String::from_str(alloc, "SyntaxError"),
        Err(TargetError::NoMemory) => Err(AllocError),
    }
}

/// What a target's text means for a sender of a.test, and for one with an opaque origin.
pub fn targets(alloc: Global, text: &str) -> Result<String, AllocError> {
    let tuple = read_origin(alloc, "https://a.test/").map_err(|_| AllocError)?;
    let one = meant(alloc, text, &tuple.unwrap_or(Origin::Opaque(0)))?;
    let other = meant(alloc, text, &Origin::Opaque(3))?;
    format!(in alloc; "{}|{}", one.as_str(), other.as_str())
}

// A record with a field that is undefined.
fn record(alloc: Global) -> Result<Data, AllocError> {
    let mut fields = Items::new(alloc);
    fields.push((Text::copy_of(alloc, "a")?, Data::Undefined))?;
    Ok(Data::Record(fields))
}

/// What a message takes of a value.
pub fn cloned(alloc: Global, word: &str) -> Result<String, AllocError> {
    let value = match word {
        "window" => Value::Window(0),
        "location" => Value::Location(1),
        "function" => Value::Function(Method::Close, Object::Window(1)),
        "prototype" => Value::Prototype(Kind::Window),
        _ => Value::Plain(record(alloc)?),
    };
    match clone_of(&value) {
        Ok(copy) => String::from_str(alloc, value_text(alloc, &Value::Plain(copy))?.as_str()),
        Err(CloneError::DataClone) => String::from_str(alloc, "DataCloneError"),
        Err(CloneError::NoMemory) => Err(AllocError),
    }
}
