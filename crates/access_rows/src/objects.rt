ghost use Rattle.std.specs.Prelude.{◌<◌, IfOk};
ghost use Rattle.script_steps.specs.Kept.{kept};
ghost use Rattle.script_steps.specs.Reached.{Fits, IsValueThere};

use crate::steps::{HELD, step};
use crate::texts::performed_text;
use crate::tree::{framed, related};
use agent_terms::{Ask, Outcome, Performed, Request, Step};
use plain_data::Data;
use script_steps::{Registers, Stores, local};
use std::alloc::{AllocError, Global};
use tree_view::View;
use window_props::Value;

// The asker's registers, one of which holds the object.
fn holding<V: View>(
    alloc: Global,
    _view: &V,
    asker: u32,
    object: Value,
) -> Result<Registers, AllocError>
    requires there { asker < (V.tree _view.now).docs }
    requires held { IsValueThere (V.tree _view.now) object }
    ensures { IfOk result (λ registers. Fits (V.tree _view.now) (kept registers) asker) }
{
    let mut registers = Registers::new(alloc);
    registers.set(asker, HELD, object)?;
    Ok(registers)
}

fn read_step(alloc: Global, call: &str) -> Result<Step, AllocError> {
    let (op, rest) = call.split_once('|').unwrap_or((call, ""));
    let (given, key) = rest.split_once('|').unwrap_or((rest, ""));
    step(alloc, op, given, key)
}

// What the asker is answered as it does one step.
fn stepped<V: View>(
    alloc: Global,
    view: &V,
    stores: &mut Stores,
    registers: &Registers,
    asker: u32,
    call: &str,
) -> Result<String, AllocError>
    requires { Fits (V.tree view.now) (kept registers.now) asker }
{
    let step = read_step(alloc, call)?;
    performed_text(alloc, local(alloc, &step, view, stores, registers, asker)?)
}

// What the asker is answered as it does one step after the other.
fn asked<V: View>(
    alloc: Global,
    view: &V,
    asker: u32,
    object: Value,
    calls: &str,
) -> Result<String, AllocError>
    requires there { asker < (V.tree view.now).docs }
    requires held { IsValueThere (V.tree view.now) object }
{
    let registers = holding(alloc, view, asker, object)?;
    let mut stores = Stores::new(alloc);
    let mut line = String::new(alloc);
    for call in calls.split(';') {
        if !line.is_empty() {
            line.push_str("; ")?;
        }
        let answer = stepped(alloc, view, &mut stores, &registers, asker, call)?;
        line.push_str(answer.as_str())?;
    }
    Ok(line)
}

/// What each asker is answered on the object that a row is about.
pub fn answers(alloc: Global, about: &str, calls: &str) -> Result<String, AllocError> {
    let view = framed(alloc)?;
    if view.docs() < 4 || view.navs() == 0 {
        return String::from_str(alloc, "no such tree");
    }
    match about {
        "window" => {
            let own = asked(alloc, &view, 1, Value::Window(0), calls)?;
            let foreign = asked(alloc, &view, 3, Value::Window(0), calls)?;
            format!(in alloc; "{}|{}", own.as_str(), foreign.as_str())
        }
        "location" => {
            let own = asked(alloc, &view, 1, Value::Location(1), calls)?;
            let foreign = asked(alloc, &view, 3, Value::Location(1), calls)?;
            let inactive = asked(alloc, &view, 1, Value::Location(2), calls)?;
            format!(in alloc;
                "{}|{}|{}",
                own.as_str(),
                foreign.as_str(),
                inactive.as_str()
            )
        }
        _ => asked(alloc, &view, 1, Value::Plain(Data::Undefined), calls),
    }
}

/// What d3 is answered on the window n0, and then d1 on the window n2, as some documents have set their domain.
pub fn related_answers(alloc: Global, setters: &[u32], calls: &str) -> Result<String, AllocError> {
    let view = related(alloc, setters)?;
    if view.docs() < 4 || view.navs() < 3 {
        return String::from_str(alloc, "no such tree");
    }
    let sibling = asked(alloc, &view, 3, Value::Window(0), calls)?;
    let alike = asked(alloc, &view, 1, Value::Window(2), calls)?;
    format!(in alloc; "{}|{}", sibling.as_str(), alike.as_str())
}

fn went<V: View>(
    alloc: Global,
    view: &V,
    (asker, doc): (u32, u32),
    method: &str,
    text: &str,
) -> Result<String, AllocError> {
    if asker >= view.docs() || doc >= view.docs() {
        return String::from_str(alloc, "no such tree");
    }
    let outcome = match method {
        "assign" => location_object::assign(alloc, view, asker, doc, text)?,
        _ => location_object::replace(alloc, view, asker, doc, text)?,
    };
    match outcome {
        Outcome::Ask(Ask::Go { doc, url }) => {
            let request = Request::Go {
                asker,
                doc,
                url,
                user: false,
            };
            performed_text(alloc, Performed::Ask(request))
        }
        outcome => performed_text(alloc, Performed::Answer(outcome)),
    }
}

/// What each asker is answered as it sends the Locations of `location` rows to a text.
pub fn sent(alloc: Global, method: &str, text: &str) -> Result<String, AllocError> {
    let view = framed(alloc)?;
    let own = went(alloc, &view, (1, 1), method, text)?;
    let foreign = went(alloc, &view, (3, 1), method, text)?;
    let inactive = went(alloc, &view, (1, 2), method, text)?;
    format!(in alloc;
        "{}|{}|{}",
        own.as_str(),
        foreign.as_str(),
        inactive.as_str()
    )
}
