use agent_terms::{Operand, Step};
use plain_data::{Data, Items, Text};
use std::alloc::{AllocError, Global};
use window_props::Key;

/// The step that a name and fields `name=value` spell, with one space between them; none where no step has the name. A
/// value is a whole number, `null`, `undefined`, a register with `$` before its name, or else a text. The arguments of a
/// call are `first` and `second`.
pub fn step_of(alloc: Global, row: &str) -> Result<Option<Step>, AllocError> {
    let (op, words) = row.split_once(' ').unwrap_or((row, ""));
    let fields = Fields { alloc, words };
    match op {
        "let" => Ok(Some(Step::Let {
            to: fields.given("to")?,
            value: fields.operand("value")?,
        })),
        "get" => Ok(Some(Step::Get {
            of: fields.text("of")?,
            key: fields.key()?,
            to: fields.given("to")?,
        })),
        "set" => Ok(Some(Step::Set {
            of: fields.text("of")?,
            key: fields.key()?,
            value: fields.operand("value")?,
            user: false,
        })),
        "call" => Ok(Some(Step::Call {
            of: fields.text("of")?,
            key: fields.key()?,
            args: fields.arguments()?,
            to: fields.given("to")?,
            user: false,
        })),
        "sync" => Ok(Some(Step::Sync)),
        "frame" => Ok(Some(Step::Frame {
            url: fields.given("url")?,
            name: fields.given("name")?,
            sandbox: fields.given("sandbox")?,
            to: fields.given("to")?,
        })),
        "drop" => Ok(Some(Step::Drop {
            index: fields.index(),
        })),
        "open" => Ok(Some(Step::Open {
            url: fields.given("url")?,
            target: fields.text("target")?,
            noopener: false,
            user: false,
            to: fields.given("to")?,
        })),
        "link" => Ok(Some(Step::Link {
            url: fields.text("url")?,
            target: fields.text("target")?,
            rel: fields.text("rel")?,
            user: false,
        })),
        "domain" => Ok(Some(Step::Domain {
            value: fields.text("value")?,
        })),
        _ => Ok(None),
    }
}

/// Fields of a step, as words.
#[derive(Clone, Copy)]
struct Fields<'a> {
    alloc: Global,
    words: &'a str,
}

impl<'a> Fields<'a> {
    // What the field has as its value.
    fn find(&self, name: &str) -> Option<&'a str> {
        for word in self.words.split(' ') {
            if let Some((field, value)) = word.split_once('=') {
                if field == name {
                    return Some(value);
                }
            }
        }
        None
    }

    fn given(&self, name: &str) -> Result<Option<Text>, AllocError> {
        match self.find(name) {
            Some(value) => Ok(Some(Text::copy_of(self.alloc, value)?)),
            None => Ok(None),
        }
    }

    // An absent text is empty.
    fn text(&self, name: &str) -> Result<Text, AllocError> {
        Text::copy_of(self.alloc, self.find(name).unwrap_or(""))
    }

    fn key(&self) -> Result<Key, AllocError> {
        Key::read(self.alloc, self.find("key").unwrap_or(""))
    }

    // An absent index is the first one.
    fn index(&self) -> u32 {
        match self.find("index") {
            Some(value) => value.parse().unwrap_or(0),
            None => 0,
        }
    }

    fn operand(&self, name: &str) -> Result<Operand, AllocError> {
        operand_of(self.alloc, self.find(name).unwrap_or(""))
    }

    fn arguments(&self) -> Result<Items<Operand>, AllocError> {
        let mut arguments = Items::new(self.alloc);
        if let Some(value) = self.find("first") {
            arguments.push(operand_of(self.alloc, value)?)?;
        }
        if let Some(value) = self.find("second") {
            arguments.push(operand_of(self.alloc, value)?)?;
        }
        Ok(arguments)
    }
}

fn operand_of(alloc: Global, value: &str) -> Result<Operand, AllocError> {
    if let Some(name) = value.strip_prefix('$') {
        return Ok(Operand::Register(Text::copy_of(alloc, name)?));
    }
    if let Ok(whole) = value.parse::<i64>() {
        return Ok(Operand::Plain(Data::Whole(whole)));
    }
    match value {
        "null" => Ok(Operand::Plain(Data::Null)),
        "undefined" => Ok(Operand::Plain(Data::Undefined)),
        _ => Ok(Operand::Plain(Data::Text(Text::copy_of(alloc, value)?))),
    }
}
