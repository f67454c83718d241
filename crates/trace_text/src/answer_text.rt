ghost use Rattle.std.specs.Prelude.{◌≡◌, ◌++◌, OnOk, IfOk, string_bytes};
ghost use Rattle.plain_data.specs.Commas.{comma_after};
ghost use Rattle.trace_text.specs.RecordText.{keys_words, own_words, outcome_words, answer_words};
ghost use Rattle.window_props.specs.ValueText as spec;

use agent_terms::{Answer, Outcome};
use plain_data::{Text, quote};
use std::alloc::{AllocError, Global};
use window_props::{Descriptor, Key, descriptor_text, value_text};

/// What a step answered, as its line shows it: the outcome, `unloaded` or `lost`.
pub fn answer_text(alloc: Global, answer: &Answer) -> Result<Text, AllocError>
    ensures { IfOk result (λ text. text ≡ answer_words answer.now) }
{
    match answer {
        Answer::Outcome(outcome) => outcome_text(alloc, outcome),
        Answer::Unloaded => Text::copy_of(alloc, "unloaded"),
        Answer::Lost => Text::copy_of(alloc, "lost"),
    }
}

// A value, a truth, the keys, the property or `undefined`, or the name of the exception.
#[tactic(auto, unfolding(crate::specs::RecordText::outcome_words))]
fn outcome_text(alloc: Global, outcome: &Outcome) -> Result<Text, AllocError>
    ensures { IfOk result (λ text. text ≡ outcome_words outcome.now) }
{
    match outcome {
        Outcome::Value(value) => value_text(alloc, value),
        Outcome::Truth(truth) => Text::copy_of(alloc, truth_text(*truth)),
        Outcome::Keys(keys) => keys_text(alloc, keys.as_slice()),
        Outcome::Own(property) => own_text(alloc, property),
        Outcome::Security(rule) => {
            let rule = rule.text();
            Ok(Text::from_string(format!(in alloc; "SecurityError {rule}")?))
        }
        Outcome::Syntax => Text::copy_of(alloc, "SyntaxError"),
        Outcome::SchemeOut => Text::copy_of(alloc, "SchemeOut"),
        Outcome::DataClone => Text::copy_of(alloc, "DataCloneError"),
        Outcome::TypeFault => Text::copy_of(alloc, "TypeError"),
        Outcome::Ask(_) => Text::copy_of(alloc, "ask"),
    }
}

#[tactic(auto, unfolding(window_props::specs::ValueText::truth_text))]
fn truth_text(truth: bool) -> &'static str
    ensures { result.now ≡ spec.truth_text truth }
{
    if truth { "true" } else { "false" }
}

#[tactic(auto, unfolding(crate::specs::RecordText::own_words))]
fn own_text(alloc: Global, property: &Option<Descriptor>) -> Result<Text, AllocError>
    ensures { IfOk result (λ text. text ≡ own_words property.now) }
{
    match property {
        None => Text::copy_of(alloc, "undefined"),
        Some(property) => descriptor_text(alloc, property),
    }
}

// The keys' texts as a JSON list of strings, without spaces.
#[tactic(auto, unfolding(crate::specs::RecordText::keys_words))]
fn keys_text(alloc: Global, keys: &[Key]) -> Result<Text, AllocError>
    ensures { IfOk result (λ text. text ≡ keys_words keys.now) }
{
    let mut out = String::from_str(alloc, "[")?;
    for (i, key) in keys.iter().enumerate() {
        separate(i, &mut out)?;
        out.push_str(quote(alloc, key.as_str())?.as_str())?;
    }
    out.push_str("]")?;
    Ok(Text::from_string(out))
}

// A comma, unless nothing stands before.
fn separate(before: usize, out: &mut String) -> Result<(), AllocError>
    ensures { OnOk result (string_bytes out.new ≡ string_bytes out.old ++ comma_after before) }
{
    if before > 0 {
        out.push_str(",")
    } else {
        Ok(())
    }
}
