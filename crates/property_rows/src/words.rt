use plain_data::{Data, Text, quote};
use std::alloc::{AllocError, Global};
use window_props::{
    Change, Descriptor, Key, Kind, Method, Object, Platform, SetAnswer, Value, descriptor_text,
};

/// The value of a word: data, or `@window`, `@location`, `@close`, `@Window` and `@Location` for objects of the platform.
pub fn value(alloc: Global, word: &str) -> Result<Value, AllocError> {
    match word {
        "@window" => Ok(Value::Window(1)),
        "@location" => Ok(Value::Location(3)),
        "@close" => Ok(Value::Function(Method::Close, Object::Window(1))),
        "@Window" => Ok(Value::Prototype(Kind::Window)),
        "@Location" => Ok(Value::Prototype(Kind::Location)),
        _ => Ok(Value::Plain(plain(alloc, word)?)),
    }
}

fn plain(alloc: Global, word: &str) -> Result<Data, AllocError> {
    match word {
        "undefined" => Ok(Data::Undefined),
        "null" => Ok(Data::Null),
        "true" => Ok(Data::Truth(true)),
        "false" => Ok(Data::Truth(false)),
        _ => match word.parse::<i64>() {
            Ok(whole) => Ok(Data::Whole(whole)),
            Err(_) => Ok(Data::Text(Text::copy_of(alloc, word)?)),
        },
    }
}

/// The change of words such as `v=1` and `w=true`, each a part that is given.
pub fn change(alloc: Global, words: &str) -> Result<Change, AllocError> {
    let mut change = Change {
        value: None,
        writable: None,
        enumerable: None,
        configurable: None,
    };
    for word in words.split(' ') {
        match word.split_once('=') {
            Some(("v", given)) => change.value = Some(value(alloc, given)?),
            Some(("w", given)) => change.writable = Some(given == "true"),
            Some(("e", given)) => change.enumerable = Some(given == "true"),
            Some(("c", given)) => change.configurable = Some(given == "true"),
            _ => {}
        }
    }
    Ok(change)
}

/// A truth value as a text.
pub fn truth(alloc: Global, truth: bool) -> Result<String, AllocError> {
    format!(in alloc; "{truth}")
}

/// What a set answered.
pub fn set_answer(alloc: Global, answer: SetAnswer) -> Result<String, AllocError> {
    match answer {
        SetAnswer::Truth(done) => truth(alloc, done),
        SetAnswer::Setter => String::from_str(alloc, "setter"),
        SetAnswer::TypeFault => String::from_str(alloc, "TypeError"),
    }
}

/// A property as it is described; `undefined` where there is none.
pub fn described(alloc: Global, property: &Option<Descriptor>) -> Result<String, AllocError> {
    match property {
        None => String::from_str(alloc, "undefined"),
        Some(property) => {
            let text = descriptor_text(alloc, property)?;
            String::from_str(alloc, text.as_str())
        }
    }
}

/// The key that a quoted text is, and its array index.
pub fn key(alloc: Global, quoted: &str) -> Result<String, AllocError> {
    let key = Key::read(alloc, quoted.trim_matches('"'))?;
    let kind = match &key {
        Key::Text(_) => "text",
        _ => "symbol",
    };
    let text = quote(alloc, key.as_str())?;
    match key.array_index() {
        Some(index) => format!(in alloc; "{kind} {} index={index}", text.as_str()),
        None => format!(in alloc; "{kind} {}", text.as_str()),
    }
}

/// Names, with a space between two.
pub fn names(alloc: Global, names: &[Platform]) -> Result<String, AllocError> {
    let mut line = String::new(alloc);
    for name in names {
        if !line.is_empty() {
            line.push_str(" ")?;
        }
        line.push_str(name.text())?;
    }
    Ok(line)
}
