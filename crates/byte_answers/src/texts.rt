ghost use Rattle.std.specs.Prelude.{◌≡◌, false, true, MatchResult, IfOk};
ghost use Rattle.std.specs.Str.{is_utf8};
ghost use Rattle.byte_answers.specs.Answers.{GivesBy};
ghost use Rattle.byte_answers.specs.Rules as spec;
ghost use Rattle.byte_answers.specs.declared.answer.Answer.TheVariants as answers;

use crate::answer::Answer;
use origin_core::HostText;
use std::alloc::{AllocError, Global};
use std::str;

/// The text that bytes are.
pub fn text_of(bytes: &[u8]) -> Result<&str, Answer>
    ensures { MatchResult result (λ s. (s.now ≡ bytes.now) × (is_utf8 bytes.now ≡ true)) (λ why. (why ≡ answers.NotText) × (is_utf8 bytes.now ≡ false)) }
{
    match str::from_utf8(bytes) {
        Ok(text) => Ok(text),
        Err(_) => Err(Answer::NotText),
    }
}

// The texts between commas.
fn listed(alloc: Global, text: &str) -> Result<Vec<HostText>, AllocError>
    ensures { IfOk result (λ v. v.items ≡ spec.pieces text.now) }
{
    let mut suffixes = Vec::new(alloc);
    for piece in text.split(',') {
        suffixes.push(HostText::copy_of(alloc, piece)?)?;
    }
    Ok(suffixes)
}

/// The public suffixes that bytes list, with a comma between two of them; none where there are no bytes.
pub fn suffixes_of(alloc: Global, bytes: &[u8]) -> Result<Vec<HostText>, Answer>
    ensures { GivesBy (λ v texts. v.items ≡ texts) result (spec.suffixes_told bytes.now) }
{
    match text_of(bytes) {
        Ok("") => Ok(Vec::new(alloc)),
        Ok(text) => match listed(alloc, text) {
            Ok(suffixes) => Ok(suffixes),
            Err(_) => Err(Answer::NoMemory),
        },
        Err(why) => Err(why),
    }
}
