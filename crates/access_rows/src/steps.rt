use agent_terms::{Operand, Step};
use plain_data::{Data, Items, Text};
use std::alloc::{AllocError, Global};
use window_props::Key;

/// The register that holds the object of a row.
pub const HELD: &str = "object";

fn operand(alloc: Global, word: &str) -> Result<Operand, AllocError> {
    match word {
        "null" => Ok(Operand::Plain(Data::Null)),
        "7" => Ok(Operand::Plain(Data::Whole(7))),
        "window" => Ok(Operand::Register(Text::copy_of(alloc, word)?)),
        _ => Ok(Operand::Plain(Data::Text(Text::copy_of(alloc, word)?))),
    }
}

fn operands(alloc: Global, words: &str) -> Result<Items<Operand>, AllocError> {
    let mut operands = Items::new(alloc);
    for word in words.split_whitespace() {
        operands.push(operand(alloc, word)?)?;
    }
    Ok(operands)
}

// A value is given, or that the property isn't writable.
fn define(alloc: Global, of: Text, key: Key, given: &str) -> Result<Step, AllocError> {
    let is_attribute = given == "w=false";
    Ok(Step::Define {
        of,
        key,
        value: if is_attribute {
            None
        } else {
            Some(operand(alloc, given)?)
        },
        writable: if is_attribute { Some(false) } else { None },
        enumerable: None,
        configurable: None,
    })
}

// A step on the object. `click` is a call that a person causes.
fn on_object(alloc: Global, op: &str, given: &str, key: &str) -> Result<Step, AllocError> {
    let of = Text::copy_of(alloc, HELD)?;
    let key = Key::read(alloc, key)?;
    match op {
        "get" => Ok(Step::Get { of, key, to: None }),
        "has" => Ok(Step::Has { of, key }),
        "describe" => Ok(Step::Describe { of, key }),
        "keys" => Ok(Step::Keys { of }),
        "proto" => Ok(Step::Proto { of }),
        "setproto" => Ok(Step::SetProto { of }),
        "extensible" => Ok(Step::Extensible { of }),
        "prevent" => Ok(Step::Prevent { of }),
        "set" => Ok(Step::Set {
            of,
            key,
            value: operand(alloc, given)?,
            user: false,
        }),
        "define" => define(alloc, of, key, given),
        "delete" => Ok(Step::Delete { of, key }),
        _ => Ok(Step::Call {
            of,
            key,
            args: operands(alloc, given)?,
            to: None,
            user: op == "click",
        }),
    }
}

/// A step: an operation, what is given (a value, arguments or a URL), and a key or a target.
pub fn step(alloc: Global, op: &str, given: &str, key: &str) -> Result<Step, AllocError> {
    match op {
        "let" => Ok(Step::Let {
            to: None,
            value: operand(alloc, given)?,
        }),
        "sync" => Ok(Step::Sync),
        "drop" => Ok(Step::Drop {
            index: given.parse().unwrap_or(0),
        }),
        "frame" => Ok(Step::Frame {
            url: Some(Text::copy_of(alloc, given)?),
            name: None,
            sandbox: None,
            to: None,
        }),
        "open" => Ok(Step::Open {
            url: Some(Text::copy_of(alloc, given)?),
            target: Text::copy_of(alloc, key)?,
            noopener: false,
            user: false,
            to: None,
        }),
        "link" => Ok(Step::Link {
            url: Text::copy_of(alloc, given)?,
            target: Text::copy_of(alloc, key)?,
            rel: Text::copy_of(alloc, "")?,
            user: false,
        }),
        "domain" => Ok(Step::Domain {
            value: Text::copy_of(alloc, given)?,
        }),
        _ => on_object(alloc, op, given, key),
    }
}
