use agent_terms::{Act, Answer, OpName, Outcome, Point, Rule, TaskKind};
use plain_data::{Data, Items, Text};
use std::alloc::{AllocError, Global};
use window_props::{Body, Descriptor, Key, Kind, Method, Object, Value};

fn step(at: u32, doc: u32, point: Point, op: OpName, answer: Answer) -> Act {
    Act::Step {
        at,
        doc,
        point,
        op,
        answer,
    }
}

/// The outcome of a step of the script of document 1, after six entries.
fn answers(made: u32, op: OpName, outcome: Outcome) -> Act {
    step(6, 1, Point::Script(made), op, Answer::Outcome(outcome))
}

fn task(at: u32, kind: TaskKind, place: u32) -> Act {
    Act::Task { at, kind, place }
}

fn keys(alloc: Global, texts: &[&str]) -> Result<Outcome, AllocError> {
    let mut keys = Items::new(alloc);
    for text in texts {
        keys.push(Key::read(alloc, text)?)?;
    }
    Ok(Outcome::Keys(keys))
}

fn described(body: Body) -> Outcome {
    Outcome::Own(Some(Descriptor {
        body,
        enumerable: false,
        configurable: true,
    }))
}

type Acts = Vec<Act>;

/// Steps that came to a value or a truth.
fn values(alloc: Global) -> Result<Acts, AllocError> {
    let quote = Value::Plain(Data::Text(Text::copy_of(alloc, "a\"b")?));
    let (yes, no) = (Outcome::Truth(true), Outcome::Truth(false));
    let window = Outcome::Value(Value::Window(1));
    let location = Outcome::Value(Value::Location(3));
    let close = Outcome::Value(Value::Function(Method::Close, Object::Window(1)));
    let prototype = Outcome::Value(Value::Prototype(Kind::Window));
    let nothing = Outcome::Value(Value::Plain(Data::Undefined));
    let rows = vec![in alloc;
        answers(0, OpName::Let, Outcome::Value(quote)),
        answers(1, OpName::Get, window),
        answers(2, OpName::Get, location),
        answers(3, OpName::Get, close),
        answers(13, OpName::Proto, prototype),
        answers(14, OpName::SetProto, no),
        answers(15, OpName::Extensible, yes),
        answers(25, OpName::Domain, nothing),
    ]?;
    Ok(rows)
}

/// Steps that came to a property, to none, or to keys.
fn properties(alloc: Global) -> Result<Acts, AllocError> {
    let accessor = Body::Accessor {
        get: true,
        set: true,
    };
    let undefined = Body::Value {
        value: Value::Plain(Data::Undefined),
        writable: false,
    };
    let window_keys = keys(alloc, &["0", "window", "@@toStringTag"])?;
    let escaped = keys(alloc, &["then", "a\"b"])?;
    let nothing = keys(alloc, &[])?;
    let rows = vec![in alloc;
        answers(6, OpName::Describe, described(accessor)),
        answers(7, OpName::Describe, described(undefined)),
        answers(8, OpName::Describe, Outcome::Own(None)),
        answers(10, OpName::Keys, window_keys),
        answers(11, OpName::Keys, escaped),
        answers(12, OpName::Keys, nothing),
    ]?;
    Ok(rows)
}

/// Steps that came to an exception.
fn exceptions(alloc: Global) -> Result<Acts, AllocError> {
    let rows = vec![in alloc;
        answers(4, OpName::Get, Outcome::Security(Rule::S3)),
        answers(5, OpName::Has, Outcome::Security(Rule::S1)),
        answers(9, OpName::Describe, Outcome::Security(Rule::S2)),
        answers(16, OpName::Prevent, Outcome::TypeFault),
        answers(17, OpName::Set, Outcome::Security(Rule::S4)),
        answers(18, OpName::Define, Outcome::Security(Rule::S5)),
        answers(19, OpName::Delete, Outcome::Security(Rule::S6)),
        answers(20, OpName::Call, Outcome::DataClone),
        answers(21, OpName::Drop, Outcome::Security(Rule::S8)),
        answers(22, OpName::Open, Outcome::Syntax),
        answers(23, OpName::Link, Outcome::SchemeOut),
        answers(24, OpName::Link, Outcome::Security(Rule::S7)),
        answers(26, OpName::Domain, Outcome::Security(Rule::S9)),
        answers(27, OpName::Domain, Outcome::Security(Rule::S10)),
        answers(28, OpName::Domain, Outcome::Security(Rule::S11)),
    ]?;
    Ok(rows)
}

/// Steps of a handler, of a document that ended and of a renderer that is lost, and tasks.
fn others(alloc: Global) -> Result<Acts, AllocError> {
    let (script, handler) = (Point::Script(1), Point::Handler(9, 1));
    let returned = Answer::Outcome(Outcome::Value(Value::Plain(Data::Undefined)));
    let rows = vec![in alloc;
        step(7, 3, script, OpName::Sync, Answer::Unloaded),
        step(7, 3, script, OpName::Frame, Answer::Lost),
        step(12, 1, handler, OpName::Call, returned),
        task(8, TaskKind::Commit, 3),
        task(10, TaskKind::Fire, 9),
        task(13, TaskKind::Lapse, 12),
        step(7, 2, Point::Handler(6, 0), OpName::Get, Answer::Lost),
        task(14, TaskKind::Gone, 13),
        Act::LostTask { at: 14 },
    ]?;
    Ok(rows)
}

/// Each step, each kind of answer, and each task.
pub fn acts(alloc: Global) -> Result<Acts, AllocError> {
    let mut acts = values(alloc)?;
    acts.append(&mut properties(alloc)?)?;
    acts.append(&mut exceptions(alloc)?)?;
    acts.append(&mut others(alloc)?)?;
    Ok(acts)
}
