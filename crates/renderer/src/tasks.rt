ghost use Rattle.std.specs.Prelude.{◌≡◌, IfOk, OnOk, option_copied};
ghost use Rattle.object_access.specs.Registers.{message_written, task_written};
ghost use Rattle.object_access.specs.Values.{text};
ghost use Rattle.origin_core.specs.Origin as origins;
ghost use Rattle.single_agent.specs.NextAct.{kind_of};
ghost use Rattle.single_agent.specs.Running.{starts};
ghost use Rattle.script_steps.specs.Kept.{kept};

use agent_terms::{Point, Running, TaskKind};
use link_exchange::{EmptyView, Replica};
use origin_core::{Origin, origin_text};
use plain_data::{Data, Text};
use script_steps::Registers;
use std::alloc::{AllocError, Global};
use tree_log::What;
use window_props::Value;

/// The kind of a task.
pub fn kind_of(what: &What) -> TaskKind
    ensures { result ≡ kind_of what.now }
{
    match what {
        What::Fire { .. } => TaskKind::Fire,
        What::Lapse { .. } => TaskKind::Lapse,
        What::Gone { .. } => TaskKind::Gone,
        _ => TaskKind::Commit,
    }
}

/// What the task starts whose entry stands at the place.
pub fn started(place: u32, what: &What) -> Option<Running>
    ensures { result ≡ starts place what.now }
{
    match what {
        What::Commit { doc, .. } => Some(Running {
            doc: *doc,
            point: Point::Script(0),
        }),
        What::Fire { doc, .. } => Some(Running {
            doc: *doc,
            point: Point::Handler(place, 0),
        }),
        _ => None,
    }
}

/// The text of an origin, as a script reads it.
fn origin_value(alloc: Global, origin: &Origin) -> Result<Value, AllocError>
    ensures { IfOk result (λ v. v ≡ text (origins.origin_text origin.now)) }
{
    let spelled = origin_text(alloc, origin)?;
    Ok(Value::Plain(Data::Text(Text::copy_of(alloc, spelled.as_str())?)))
}

/// Writes what a message brings to the registers `data`, `origin` and `source` of the document.
fn write_message(
    alloc: Global,
    registers: &mut Registers,
    doc: u32,
    message: &What,
) -> Result<(), AllocError>
    ensures { OnOk result (kept registers.new ≡ message_written doc message.now (kept registers.old)) }
{
    match message {
        What::Post {
            from,
            origin,
            body,
            ..
        } => {
            registers.set(doc, "source", Value::Window(*from))?;
            registers.set(doc, "origin", origin_value(alloc, origin)?)?;
            registers.set(doc, "data", Value::Plain(body.clone()?))
        }
        _ => Ok(()),
    }
}

/// Writes what a task brings to registers: a message that is delivered, to those of its document.
pub fn write_task<V: EmptyView>(
    alloc: Global,
    registers: &mut Registers,
    replica: &Replica<V>,
    what: &What,
) -> Result<(), AllocError>
    ensures { OnOk result (kept registers.new ≡ task_written replica.now what.now (kept registers.old)) }
{
    match what {
        What::Fire { doc, post } => match replica.at(*post) {
            Some(entry) => write_message(alloc, registers, *doc, &entry.what),
            None => Ok(()),
        },
        _ => Ok(()),
    }
}
