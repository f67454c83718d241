ghost use Rattle.std.specs.Prelude.{◌≡◌, None, IsOk, IfOk, OnErr, OnOk};
ghost use Rattle.std.specs.Option.{option_copied};
ghost use Rattle.object_access.specs.Registers as spec;
ghost use Rattle.script_steps.specs.Kept.{kept};
ghost use Rattle.single_agent.specs.NextAct.{answer_of, rule_of};
ghost use Rattle.single_agent.specs.NextMove.{op_of};

use agent_terms::{Answer, OpName, Outcome, ReplyOutcome, Rule, Step};
use plain_data::{Data, Text};
use script_steps::Registers;
use std::alloc::AllocError;
use window_props::Value;

/// The name of a step.
pub fn name_of(step: &Step) -> OpName
    ensures { result ≡ op_of step.now }
{
    match step {
        Step::Let { .. } => OpName::Let,
        Step::Get { .. } => OpName::Get,
        Step::Has { .. } => OpName::Has,
        Step::Describe { .. } => OpName::Describe,
        Step::Keys { .. } => OpName::Keys,
        Step::Proto { .. } => OpName::Proto,
        Step::SetProto { .. } => OpName::SetProto,
        Step::Extensible { .. } => OpName::Extensible,
        Step::Prevent { .. } => OpName::Prevent,
        Step::Set { .. } => OpName::Set,
        Step::Define { .. } => OpName::Define,
        Step::Delete { .. } => OpName::Delete,
        Step::Call { .. } => OpName::Call,
        Step::Sync => OpName::Sync,
        Step::Frame { .. } => OpName::Frame,
        Step::Drop { .. } => OpName::Drop,
        Step::Open { .. } => OpName::Open,
        Step::Link { .. } => OpName::Link,
        Step::Domain { .. } => OpName::Domain,
    }
}

/// The register that a step's answer goes to.
pub fn target_of(step: &Step) -> Option<&Text>
    ensures { option_copied result ≡ spec.to_of step.now }
{
    match step {
        Step::Let { to, .. }
        | Step::Get { to, .. }
        | Step::Call { to, .. }
        | Step::Frame { to, .. }
        | Step::Open { to, .. } => to.as_ref(),
        _ => None,
    }
}

/// The rule with a number.
#[tactic(auto, unfolding(single_agent::specs::NextAct::rule_of))]
fn rule_of(number: u8) -> Rule
    ensures { result ≡ rule_of number }
{
    if number == 1 {
        Rule::S1
    } else if number == 2 {
        Rule::S2
    } else if number == 3 {
        Rule::S3
    } else if number == 4 {
        Rule::S4
    } else if number == 5 {
        Rule::S5
    } else if number == 6 {
        Rule::S6
    } else if number == 7 {
        Rule::S7
    } else if number == 8 {
        Rule::S8
    } else if number == 9 {
        Rule::S9
    } else if number == 10 {
        Rule::S10
    } else {
        Rule::S11
    }
}

/// What a step answers where the coordinator has decided, if the outcome is one of a step.
pub fn answer_of(op: OpName, outcome: &ReplyOutcome) -> Option<Answer>
    ensures { result ≡ answer_of op outcome.now }
{
    match outcome {
        ReplyOutcome::Done => Some(match op {
            OpName::Set => Answer::Outcome(Outcome::Truth(true)),
            _ => Answer::Outcome(Outcome::Value(Value::Plain(Data::Undefined))),
        }),
        ReplyOutcome::Security { rule } => Some(Answer::Outcome(Outcome::Security(rule_of(*rule)))),
        ReplyOutcome::Null => Some(Answer::Outcome(Outcome::Value(Value::Plain(Data::Null)))),
        ReplyOutcome::Made { nav } => Some(Answer::Outcome(Outcome::Value(Value::Window(*nav)))),
        ReplyOutcome::Unloaded { .. } => Some(Answer::Unloaded),
        _ => None,
    }
}

/// What is written of an answer.
fn value_in(answer: &Answer) -> Result<Value, AllocError>
    ensures { IfOk result (λ v. v ≡ spec.value_in answer.now) }
{
    match answer {
        Answer::Outcome(Outcome::Value(value)) => value.clone(),
        _ => Ok(Value::Plain(Data::Undefined)),
    }
}

/// Writes an answer to the register that it goes to, if it goes to one. After an `Err` the registers are as before.
pub fn write_answer(
    registers: &mut Registers,
    doc: u32,
    to: Option<&Text>,
    answer: &Answer,
) -> Result<(), AllocError>
    ensures ok { OnOk result (kept registers.new ≡ spec.written_to doc (option_copied to.entry) (spec.value_in answer.now) (kept registers.old)) }
    ensures err { OnErr result (kept registers.new ≡ kept registers.old) }
    ensures none { option_copied to.entry ≡ None → IsOk result }
{
    match to {
        Some(name) => {
            let value = value_in(answer)?;
            registers.set(doc, name.as_str(), value)
        }
        None => Ok(()),
    }
}
