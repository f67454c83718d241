//! What `postMessage` comes to (HTML Standard, 9.3.3).
ghost use Rattle.std.specs.Prelude.{◌≡◌, find, bytes_eq, codes, option_copied, IfOk};
ghost use Rattle.plain_data.specs.declared.data.Data.{out-Data};
ghost use Rattle.object_access.specs.Methods as spec;

use agent_terms::{Ask, Outcome};
use object_operations::values::data_text;
use origin_core::Origin;
use plain_data::{Data, Items, Text};
use std::alloc::{AllocError, Global};
use tree_log::Target;
use web_message::{CloneError, TargetError, clone_of, target_of};
use window_props::Value;

// The text that means the sender's origin.
fn own_target(alloc: Global) -> Result<Option<Text>, AllocError>
    ensures { IfOk result (λ t. t ≡ Some (codes "/")) }
{
    Ok(Some(Text::copy_of(alloc, "/")?))
}

// The field of the options that names the target.
fn target_field(fields: &Items<(Text, Data)>) -> Option<&(Text, Data)>
    ensures { option_copied result ≡ find (λ field. bytes_eq field.0 (codes "targetOrigin")) fields.now }
{
    fields
        .as_slice()
        .iter()
        .find(|field| field.0.as_str() == "targetOrigin")
}

fn text_of_field(alloc: Global, field: Option<&(Text, Data)>) -> Result<Option<Text>, AllocError>
    ensures { IfOk result (λ t. t ≡ spec.text_of_field (option_copied field.entry)) }
{
    match field {
        None => own_target(alloc),
        Some(field) => match &field.1 {
            Data::Undefined => own_target(alloc),
            Data::Null
            | Data::Truth(_)
            | Data::Whole(_)
            | Data::Text(_)
            | Data::List(_)
            | Data::Record(_) => data_text(alloc, &field.1),
        },
    }
}

fn text_of_options(alloc: Global, plain: &Data) -> Result<Option<Text>, AllocError>
    ensures { IfOk result (λ t. t ≡ spec.text_of_options plain.now (out-Data plain.now)) }
{
    match plain {
        Data::Undefined | Data::Null | Data::List(_) => own_target(alloc),
        Data::Record(fields) => text_of_field(alloc, target_field(fields)),
        Data::Truth(_) | Data::Whole(_) | Data::Text(_) => data_text(alloc, plain),
    }
}

// The text of the second argument, a target or options with one.
#[tactic(auto, unfolding(object_access::specs::Methods::target_text))]
fn target_text(alloc: Global, target: Option<&Value>) -> Result<Option<Text>, AllocError>
    ensures { IfOk result (λ t. t ≡ spec.target_text (option_copied target.entry)) }
{
    match target {
        None => own_target(alloc),
        Some(value) => match value {
            Value::Plain(plain) => text_of_options(alloc, plain),
            Value::Window(_) => Ok(None),
            Value::Location(_) => Ok(None),
            Value::Function(_, _) => Ok(None),
            Value::Prototype(_) => Ok(None),
        },
    }
}

#[tactic(auto, using(crate::proofs::MessageLaws::posted_some, crate::proofs::MessageLaws::posted_none))]
fn posted_clone(doc: u32, target: Target, value: &Value) -> Result<Outcome, AllocError>
    ensures { IfOk result (λ o. o ≡ spec.posted_clone doc target value.now) }
{
    match clone_of(value) {
        Ok(body) => Ok(Outcome::Ask(Ask::Post { doc, target, body })),
        Err(CloneError::DataClone) => Ok(Outcome::DataClone),
        Err(CloneError::NoMemory) => Err(AllocError),
    }
}

fn posted_to(
    alloc: Global,
    sender: &Origin,
    doc: u32,
    value: &Value,
    text: &str,
) -> Result<Outcome, AllocError>
    ensures { IfOk result (λ o. o ≡ spec.posted_to doc value.now (spec.target_of sender.now text.now)) }
{
    match target_of(alloc, text, sender) {
        Ok(target) => posted_clone(doc, target, value),
        Err(TargetError::Syntax) => Ok(Outcome::Syntax),
        Err(TargetError::NoMemory) => Err(AllocError),
    }
}

/// What `postMessage` to the Window of a document comes to.
#[tactic(auto, unfolding(object_access::specs::Methods::posted))]
pub(crate) fn post(
    alloc: Global,
    sender: &Origin,
    doc: u32,
    args: &[Value],
) -> Result<Outcome, AllocError>
    ensures { IfOk result (λ o. o ≡ spec.posted sender.now doc args.now) }
{
    match args {
        [] => Ok(Outcome::TypeFault),
        [value, more @ ..] => match target_text(alloc, more.get(0))? {
            None => Ok(Outcome::TypeFault),
            Some(text) => posted_to(alloc, sender, doc, value, text.as_str()),
        },
    }
}
