// Readers of steps, each of its fields in their order.
ghost use Rattle.std.specs.Prelude.{◌≡◌};
ghost use Rattle.serde_json.specs.View.{view};
ghost use Rattle.session_reading.specs.Forms.{fields};
ghost use Rattle.session_reading.specs.Refusing.{Gives};
ghost use Rattle.session_reading.specs.Reading as reading;
ghost use Rattle.session_text.specs.Session.{steps};
ghost use Rattle.session_text.specs.Steps as spec;

use crate::building::built;
use crate::limits::MAX_STEPS;
use crate::value::{AKey, AReceiver, ARegister, AText, ATruth, AnIndex, AnOperand, Args};
use agent_terms::{OpName, Step};
use plain_data::{Items, Text};
use serde_json::Value;
use session_reading::{Form, Name, Reads, ReadsItem, SessionError, list_of, text, unknown_step};
use std::alloc::Global;
use window_props::Key;

#[tactic(auto, unfolding(crate::specs::Steps::let_step))]
fn let_step(form: &mut Form<'_>) -> Result<Step, SessionError>
    ensures { Gives result (spec.let_step (fields form.old)) }
{
    let to = form.optional(Name::To, &AReceiver)?;
    let value = form.field(Name::Value, &AnOperand)?;
    form.ends()?;
    Ok(Step::Let { to, value })
}

#[tactic(auto, unfolding(crate::specs::Steps::get_step))]
fn get_step(form: &mut Form<'_>) -> Result<Step, SessionError>
    ensures { Gives result (spec.get_step (fields form.old)) }
{
    let of = form.field(Name::Of, &ARegister)?;
    let key = form.field(Name::Key, &AKey)?;
    let to = form.optional(Name::To, &AReceiver)?;
    form.ends()?;
    Ok(Step::Get { of, key, to })
}

#[tactic(auto, unfolding(crate::specs::Steps::set_step))]
fn set_step(form: &mut Form<'_>) -> Result<Step, SessionError>
    ensures { Gives result (spec.set_step (fields form.old)) }
{
    let of = form.field(Name::Of, &ARegister)?;
    let key = form.field(Name::Key, &AKey)?;
    let value = form.field(Name::Value, &AnOperand)?;
    let user = form.field_or(Name::User, false, &ATruth)?;
    form.ends()?;
    Ok(Step::Set {
        of,
        key,
        value,
        user,
    })
}

#[tactic(auto, unfolding(crate::specs::Steps::define_step))]
fn define_step(form: &mut Form<'_>) -> Result<Step, SessionError>
    ensures { Gives result (spec.define_step (fields form.old)) }
{
    let of = form.field(Name::Of, &ARegister)?;
    let key = form.field(Name::Key, &AKey)?;
    let value = form.optional(Name::Value, &AnOperand)?;
    let writable = form.optional(Name::Writable, &ATruth)?;
    let enumerable = form.optional(Name::Enumerable, &ATruth)?;
    let configurable = form.optional(Name::Configurable, &ATruth)?;
    form.ends()?;
    Ok(Step::Define {
        of,
        key,
        value,
        writable,
        enumerable,
        configurable,
    })
}

#[tactic(auto, unfolding(crate::specs::Steps::call_step))]
fn call_step(form: &mut Form<'_>) -> Result<Step, SessionError>
    ensures { Gives result (spec.call_step (fields form.old)) }
{
    let of = form.field(Name::Of, &ARegister)?;
    let key = form.field(Name::Key, &AKey)?;
    let args = form.field(Name::Args, &Args)?;
    let to = form.optional(Name::To, &AReceiver)?;
    let user = form.field_or(Name::User, false, &ATruth)?;
    form.ends()?;
    Ok(Step::Call {
        of,
        key,
        args,
        to,
        user,
    })
}

#[tactic(auto, unfolding(crate::specs::Steps::frame_step))]
fn frame_step(form: &mut Form<'_>) -> Result<Step, SessionError>
    ensures { Gives result (spec.frame_step (fields form.old)) }
{
    let url = form.optional(Name::Url, &AText)?;
    let name = form.optional(Name::Name, &AText)?;
    let sandbox = form.optional(Name::Sandbox, &AText)?;
    let to = form.optional(Name::To, &AReceiver)?;
    form.ends()?;
    Ok(Step::Frame {
        url,
        name,
        sandbox,
        to,
    })
}

#[tactic(auto, unfolding(crate::specs::Steps::open_step))]
fn open_step(form: &mut Form<'_>) -> Result<Step, SessionError>
    ensures { Gives result (spec.open_step (fields form.old)) }
{
    let url = form.optional(Name::Url, &AText)?;
    let absent = Text::copy_of(form.allocator(), "_blank")?;
    let target = form.field_or(Name::Target, absent, &AText)?;
    let noopener = form.field_or(Name::Noopener, false, &ATruth)?;
    let user = form.field_or(Name::User, false, &ATruth)?;
    let to = form.optional(Name::To, &AReceiver)?;
    form.ends()?;
    Ok(Step::Open {
        url,
        target,
        noopener,
        user,
        to,
    })
}

#[tactic(auto, unfolding(crate::specs::Steps::link_step))]
fn link_step(form: &mut Form<'_>) -> Result<Step, SessionError>
    ensures { Gives result (spec.link_step (fields form.old)) }
{
    let url = form.field(Name::Url, &AText)?;
    let absent = Text::copy_of(form.allocator(), "")?;
    let target = form.field_or(Name::Target, absent, &AText)?;
    let absent = Text::copy_of(form.allocator(), "")?;
    let rel = form.field_or(Name::Rel, absent, &AText)?;
    let user = form.field_or(Name::User, false, &ATruth)?;
    form.ends()?;
    Ok(Step::Link {
        url,
        target,
        rel,
        user,
    })
}

// The object of a step that has no other field.
#[tactic(auto, unfolding(crate::specs::Steps::of_alone))]
fn of_alone(form: &mut Form<'_>) -> Result<Text, SessionError>
    ensures { Gives result (spec.of_alone (fields form.old)) }
{
    let of = form.field(Name::Of, &ARegister)?;
    form.ends()?;
    Ok(of)
}

// The object and the key of a step that has no other field.
#[tactic(auto, unfolding(crate::specs::Steps::of_and_key))]
fn of_and_key(form: &mut Form<'_>) -> Result<(Text, Key), SessionError>
    ensures { Gives result (spec.of_and_key (fields form.old)) }
{
    let of = form.field(Name::Of, &ARegister)?;
    let key = form.field(Name::Key, &AKey)?;
    form.ends()?;
    Ok((of, key))
}

// The index of a step that has no other field.
#[tactic(auto, unfolding(crate::specs::Steps::index_alone))]
fn index_alone(form: &mut Form<'_>) -> Result<u32, SessionError>
    ensures { Gives result (spec.index_alone (fields form.old)) }
{
    let index = form.field(Name::Index, &AnIndex)?;
    form.ends()?;
    Ok(index)
}

/// Reads the name of a step.
struct AnOpName;

impl Reads for AnOpName {
    type Out = OpName;

    ghost reads = { λ _. spec.op_read };

    #[tactic(auto, unfolding(crate::specs::Steps::op_read))]
    fn read(&self, alloc: Global, value: &Value) -> Result<OpName, SessionError> {
        let name = text(alloc, value)?;
        match OpName::named(name) {
            Some(op) => Ok(op),
            None => Err(unknown_step(alloc)),
        }
    }
}

// The refusal of a step that sessions can't have, at its name.
fn refused_step(alloc: Global) -> Result<Step, SessionError>
    ensures { Gives result spec.refused_step }
{
    Err(unknown_step(alloc).in_field(alloc, Name::Op.text()))
}

#[tactic(auto, unfolding(crate::specs::Steps::step_by))]
fn step_by(op: OpName, form: &mut Form<'_>) -> Result<Step, SessionError>
    ensures { Gives result (spec.step_by op (fields form.old)) }
{
    match op {
        OpName::Let => let_step(form),
        OpName::Get => get_step(form),
        OpName::Has => {
            let (of, key) = of_and_key(form)?;
            Ok(Step::Has { of, key })
        }
        OpName::Describe => {
            let (of, key) = of_and_key(form)?;
            Ok(Step::Describe { of, key })
        }
        OpName::Keys => Ok(Step::Keys {
            of: of_alone(form)?,
        }),
        OpName::Proto => Ok(Step::Proto {
            of: of_alone(form)?,
        }),
        OpName::SetProto => Ok(Step::SetProto {
            of: of_alone(form)?,
        }),
        OpName::Extensible => Ok(Step::Extensible {
            of: of_alone(form)?,
        }),
        OpName::Prevent => Ok(Step::Prevent {
            of: of_alone(form)?,
        }),
        OpName::Set => set_step(form),
        OpName::Define => define_step(form),
        OpName::Delete => {
            let (of, key) = of_and_key(form)?;
            Ok(Step::Delete { of, key })
        }
        OpName::Call => call_step(form),
        OpName::Sync => {
            form.ends()?;
            Ok(Step::Sync)
        }
        OpName::Frame => frame_step(form),
        OpName::Drop => Ok(Step::Drop {
            index: index_alone(form)?,
        }),
        OpName::Open => open_step(form),
        OpName::Link => link_step(form),
        OpName::Domain => refused_step(form.allocator()),
    }
}

#[tactic(auto, unfolding(crate::specs::Steps::built_step))]
fn built_step(alloc: Global, step: Step) -> Result<Step, SessionError>
    ensures { Gives result (spec.built_step step) }
{
    if !built(&step) {
        return refused_step(alloc);
    }
    Ok(step)
}

#[tactic(auto, unfolding(crate::specs::Steps::step_read))]
fn step_of(alloc: Global, value: &Value) -> Result<Step, SessionError>
    ensures { Gives result (spec.step_read (view value.now)) }
{
    let mut form = Form::of(alloc, value)?;
    let op = form.field(Name::Op, &AnOpName)?;
    let step = step_by(op, &mut form)?;
    built_step(alloc, step)
}

/// Reads a step.
struct AStep;

impl ReadsItem for AStep {
    type Out = Step;

    ghost reads_item = { λ _ _. spec.step_read };

    fn read_item(
        &self,
        alloc: Global,
        _before: &[Step],
        value: &Value,
    ) -> Result<Step, SessionError> {
        step_of(alloc, value)
    }
}

/// Reads the steps of a script or a handler.
pub(crate) struct Steps;

impl Reads for Steps {
    type Out = Items<Step>;

    ghost reads = { λ _. steps };

    fn read(&self, alloc: Global, value: &Value) -> Result<Items<Step>, SessionError> {
        list_of(alloc, 0, MAX_STEPS, &AStep, value)
    }
}
