use crate::words::{change, described, key, names, set_answer, truth, value};
use plain_data::quote;
use std::alloc::{AllocError, Global};
use window_props::{Key, Object, Props, cross_names, fallback, listed, named};

/// The object that calls are made on, with its properties.
#[derive(Drop)]
struct Subject {
    object: Object,
    props: Props,
}

impl Subject {
    fn new(alloc: Global, object: Object) -> Result<Subject, AllocError> {
        let props = Props::new(alloc, object)?;
        Ok(Subject { object, props })
    }
}

/// The answers to a row of calls, in order, with `; ` between two. They are made on a new Window, until a call `Location`
/// or `Window` makes a new object.
pub fn answers(alloc: Global, row: &str) -> Result<String, AllocError> {
    let mut subject = Subject::new(alloc, Object::Window(1))?;
    let mut answers = String::new(alloc);
    for call in row.split(';') {
        if !answers.is_empty() {
            answers.push_str("; ")?;
        }
        let answer = answer(alloc, &mut subject, call.trim())?;
        answers.push_str(answer.as_str())?;
    }
    Ok(answers)
}

// One call: its name, mostly a key, and what the call gives.
fn answer(alloc: Global, subject: &mut Subject, call: &str) -> Result<String, AllocError> {
    let (name, rest) = call.split_once(' ').unwrap_or((call, ""));
    match name {
        "Window" => *subject = Subject::new(alloc, Object::Window(1))?,
        "Location" => *subject = Subject::new(alloc, Object::Location(1))?,
        "key" => return key(alloc, rest),
        "keys" => return script_keys(alloc, subject),
        "all" => return all_keys(alloc, subject),
        "names" => return names(alloc, cross_names(subject.object)),
        _ => return at_key(alloc, subject, name, rest),
    }
    String::from_str(alloc, name)
}

// A call at a key.
fn at_key(
    alloc: Global,
    subject: &mut Subject,
    name: &str,
    rest: &str,
) -> Result<String, AllocError> {
    let (key, given) = rest.split_once(' ').unwrap_or((rest, ""));
    let key = Key::read(alloc, key)?;
    match name {
        "define" | "set" | "delete" => changed(alloc, &mut subject.props, name, &key, given),
        "describe" => described(alloc, &subject.props.own(&key)?),
        "shown" => described(alloc, &listed(subject.object, &key)),
        "fallback" => truth(alloc, fallback(&key)),
        _ => String::from_str(alloc, "no such call"),
    }
}

// A call that changes the property at a key, where the store can hold one.
fn changed(
    alloc: Global,
    props: &mut Props,
    name: &str,
    key: &Key,
    given: &str,
) -> Result<String, AllocError> {
    if !props.can_hold(key) {
        return String::from_str(alloc, "no such key");
    }
    match name {
        "define" => truth(alloc, props.define(key, change(alloc, given)?)?),
        "set" => set_answer(alloc, props.set(key, value(alloc, given)?)?),
        _ => truth(alloc, props.delete(key)),
    }
}

// The keys that the script made, as a list of JSON.
fn script_keys(alloc: Global, subject: &Subject) -> Result<String, AllocError> {
    let mut list = String::from_str(alloc, "[")?;
    for key in subject.props.keys()?.as_slice() {
        if named(subject.object, key).is_some() {
            continue;
        }
        if list.len() > 1 {
            list.push_str(",")?;
        }
        let quoted = quote(alloc, key.as_str())?;
        list.push_str(quoted.as_str())?;
    }
    list.push_str("]")?;
    Ok(list)
}

// All keys, with a space between two.
fn all_keys(alloc: Global, subject: &Subject) -> Result<String, AllocError> {
    let mut line = String::new(alloc);
    for key in subject.props.keys()?.as_slice() {
        if !line.is_empty() {
            line.push_str(" ")?;
        }
        line.push_str(key.as_str())?;
    }
    Ok(line)
}
