ghost use Rattle.std.specs.Prelude.{◌≡◌, IfOk, OnErr, OnOk};
ghost use Rattle.std.specs.Option.{option_copied};
ghost use Rattle.object_access.specs.Registers as spec;
ghost use Rattle.script_steps.specs.Kept.{kept};

use agent_terms::{Answer, Outcome};
use plain_data::{Data, Text};
use script_steps::Registers;
use std::alloc::AllocError;
use window_props::Value;

/// What is written of an answer.
fn value_in(answer: &Answer) -> Result<Value, AllocError>
    ensures { IfOk result (λ v. v ≡ spec.value_in answer.now) }
{
    match answer {
        Answer::Outcome(Outcome::Value(value)) => value.clone(),
        _ => Ok(Value::Plain(Data::Undefined)),
    }
}

/// Writes an answer to the register that it goes to, if it goes to one.
pub fn write(
    registers: &mut Registers,
    doc: u32,
    to: Option<&Text>,
    answer: &Answer,
) -> Result<(), AllocError>
    ensures done { OnOk result (kept registers.new ≡ spec.written_to doc (option_copied to.entry) (spec.value_in answer.now) (kept registers.old)) }
    ensures refused { OnErr result (kept registers.new ≡ kept registers.old) }
{
    match to {
        Some(name) => {
            let value = value_in(answer)?;
            registers.set(doc, name.as_str(), value)
        }
        None => Ok(()),
    }
}
