// Readers of the values that the fields of steps hold.
ghost use Rattle.std.specs.Prelude.{◌≡◌, ◌≤◌, option_map, codes, IfOk};
ghost use Rattle.std.specs.List.{list_all};
ghost use Rattle.serde_json.specs.View.{view};
ghost use Rattle.session_reading.specs.Refusing.{Gives};
ghost use Rattle.session_reading.specs.Reading as reading;
ghost use Rattle.session_text.specs.Steps as spec;

use crate::limits::{MAX_ARGS, MAX_INDEX, MAX_LETTERS};
use agent_terms::Operand;
use plain_data::{Items, Text};
use serde_json::Value;
use session_reading::{
    Name, Reads, ReadsItem, SessionError, list_of, out_of_range, read_data, text, truth, whole,
};
use std::alloc::Global;
use window_props::Key;

/// Reads a text.
pub(crate) struct AText;

impl Reads for AText {
    type Out = Text;

    ghost reads = { λ _. reading.text };

    fn read(&self, alloc: Global, value: &Value) -> Result<Text, SessionError> {
        let text = text(alloc, value)?;
        Ok(Text::copy_of(alloc, text)?)
    }
}

/// Reads a truth value.
pub(crate) struct ATruth;

impl Reads for ATruth {
    type Out = bool;

    ghost reads = { λ _. reading.truth };

    fn read(&self, alloc: Global, value: &Value) -> Result<bool, SessionError> {
        truth(alloc, value)
    }
}

/// Reads the key of a property.
pub(crate) struct AKey;

impl Reads for AKey {
    type Out = Key;

    ghost reads = { λ _. spec.key };

    #[tactic(auto, unfolding(crate::specs::Steps::key))]
    fn read(&self, alloc: Global, value: &Value) -> Result<Key, SessionError> {
        let text = text(alloc, value)?;
        Ok(Key::read(alloc, text)?)
    }
}

/// Reads the index of a frame.
pub(crate) struct AnIndex;

impl Reads for AnIndex {
    type Out = u32;

    ghost reads = { λ _. spec.index_read };

    fn read(&self, alloc: Global, value: &Value) -> Result<u32, SessionError> {
        match whole(alloc, 0, MAX_INDEX, value) {
            Ok(n) => Ok(n as u32),
            Err(e) => Err(e),
        }
    }
}

/// Reads the name of a register.
pub(crate) struct ARegister;

impl Reads for ARegister {
    type Out = Text;

    ghost reads = { λ _. spec.register };

    fn read(&self, alloc: Global, value: &Value) -> Result<Text, SessionError> {
        register(alloc, value)
    }
}

/// Reads the name of a register that takes an answer: none but `window` and `undefined`.
pub(crate) struct AReceiver;

impl Reads for AReceiver {
    type Out = Text;

    ghost reads = { λ _. spec.receiver };

    #[tactic(auto, unfolding(crate::specs::Steps::receiver))]
    fn read(&self, alloc: Global, value: &Value) -> Result<Text, SessionError> {
        let name = register(alloc, value)?;
        if is_kept(name.as_str()) {
            return Err(out_of_range(alloc));
        }
        Ok(name)
    }
}

#[tactic(auto, unfolding(crate::specs::Steps::register))]
fn register(alloc: Global, value: &Value) -> Result<Text, SessionError>
    ensures { Gives result (spec.register (view value.now)) }
{
    let name = text(alloc, value)?;
    if !is_register(name) {
        return Err(out_of_range(alloc));
    }
    Ok(Text::copy_of(alloc, name)?)
}

#[tactic(auto, unfolding(crate::specs::Steps::is_register))]
fn is_register(text: &str) -> bool
    ensures { result ≡ spec.is_register text.now }
{
    1 <= text.len() && text.len() <= MAX_LETTERS && are_letters(text.as_bytes())
}

fn are_letters(bytes: &[u8]) -> bool
    ensures { result ≡ list_all spec.is_letter bytes.now }
{
    bytes.iter().all(|b| b'a' <= *b && *b <= b'z')
}

#[tactic(auto, unfolding(crate::specs::Steps::is_kept))]
fn is_kept(name: &str) -> bool
    ensures { result ≡ spec.is_kept name.now }
{
    name == "window" || name == "undefined"
}

/// Reads what a step works with.
pub(crate) struct AnOperand;

impl Reads for AnOperand {
    type Out = Operand;

    ghost reads = { λ _. spec.operand_read };

    fn read(&self, alloc: Global, value: &Value) -> Result<Operand, SessionError> {
        operand(alloc, value)
    }
}

impl ReadsItem for AnOperand {
    type Out = Operand;

    ghost reads_item = { λ _ _. spec.operand_read };

    fn read_item(
        &self,
        alloc: Global,
        _before: &[Operand],
        value: &Value,
    ) -> Result<Operand, SessionError> {
        operand(alloc, value)
    }
}

/// Reads the arguments of a call.
pub(crate) struct Args;

impl Reads for Args {
    type Out = Items<Operand>;

    ghost reads = { λ _. spec.args_read };

    fn read(&self, alloc: Global, value: &Value) -> Result<Items<Operand>, SessionError> {
        list_of(alloc, 0, MAX_ARGS, &AnOperand, value)
    }
}

#[tactic(auto, unfolding(crate::specs::Steps::operand_read))]
fn operand(alloc: Global, value: &Value) -> Result<Operand, SessionError>
    ensures { Gives result (spec.operand_read (view value.now)) }
{
    match named_in(value) {
        Some(name) => {
            if !is_register(name) {
                return Err(out_of_range(alloc));
            }
            Ok(Operand::Register(Text::copy_of(alloc, name)?))
        }
        None => Ok(Operand::Plain(read_data(alloc, value)?)),
    }
}

// The text in an object that has the one field `$`.
#[tactic(auto, unfolding(crate::specs::Steps::named_in))]
fn named_in(value: &Value) -> Option<&str>
    ensures { option_map (λ s. s.now) result ≡ spec.named_in (view value.now) }
{
    if !has_one_member(value) {
        return None;
    }
    match value.get(Name::Dollar.text()) {
        Some(name) => name.as_str(),
        None => None,
    }
}

#[tactic(auto, using(session_reading::proofs::Lists::length_of_members))]
fn has_one_member(value: &Value) -> bool
    ensures { result ≡ spec.one_member (view value.now) }
{
    match value.as_object() {
        Some(members) => members.len() == 1,
        None => false,
    }
}
