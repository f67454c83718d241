ghost use Rattle.std.specs.Prelude.{◌≡◌};
ghost use Rattle.byte_answers.specs.Answers.{Gives, Sets, Tells};
ghost use Rattle.byte_answers.specs.Rules as spec;

use crate::answer::Answer;
use crate::buffer::tell;
use crate::texts::text_of;
use crate::urls::{origin_of, text_of_origin};
use origin_core::{HostText, Origin, flags_of};
use std::alloc::Global;
use tree_log::Target;
use web_message::{TargetError, target_of};

// The sandboxing flags of an attribute.
fn sandbox_flags(attribute: &[u8]) -> Result<u16, Answer>
    ensures { Gives result (spec.flags_told attribute.now) }
{
    match text_of(attribute) {
        Ok(text) => Ok(flags_of(text).bits()),
        Err(why) => Err(why),
    }
}

/// The sandboxing flags of the attribute `sandbox` (HTML Standard, 7.1.5), as the sum of their bits.
pub fn tell_sandbox_flags(attribute: &[u8], flags: &mut u16) -> Answer
    ensures { Sets (spec.flags_told attribute.now) flags.old flags.new result }
{
    match sandbox_flags(attribute) {
        Ok(told) => {
            *flags = told;
            Answer::Done
        }
        Err(why) => why,
    }
}

// A target's text: `*` for any origin, `never` for none, else the origin's serialization.
fn text_of_target(alloc: Global, target: &Target) -> Result<HostText, Answer>
    ensures { Gives result (spec.target_said target.now) }
{
    match target {
        Target::Any => copied(alloc, "*"),
        Target::Never => copied(alloc, "never"),
        Target::Origin(origin) => text_of_origin(alloc, origin),
    }
}

fn copied(alloc: Global, text: &str) -> Result<HostText, Answer>
    ensures { Gives result (spec.copied text.now) }
{
    match HostText::copy_of(alloc, text) {
        Ok(text) => Ok(text),
        Err(_) => Err(Answer::NoMemory),
    }
}

// The target that a text means for a sender.
fn target_read(alloc: Global, text: &[u8], sender: &Origin) -> Result<Target, Answer>
    ensures { Gives result (spec.target_read sender.now text.now) }
{
    match text_of(text) {
        Ok(text) => match target_of(alloc, text, sender) {
            Ok(target) => Ok(target),
            Err(TargetError::Syntax) => Err(Answer::NotAUrl),
            Err(TargetError::NoMemory) => Err(Answer::NoMemory),
        },
        Err(why) => Err(why),
    }
}

fn target_told(alloc: Global, text: &[u8], sender: &[u8]) -> Result<HostText, Answer>
    ensures { Gives result (spec.target_told text.now sender.now) }
{
    match origin_of(alloc, sender, 0) {
        Ok(sender) => match target_read(alloc, text, &sender) {
            Ok(target) => text_of_target(alloc, &target),
            Err(why) => Err(why),
        },
        Err(why) => Err(why),
    }
}

/// The origins that a message's target text means, where a document with the URL `sender` sends it (HTML Standard, 9.3.3,
/// window post message steps): `*` for any, `never` for one that no document has, else the origin's serialization.
pub fn target_text(
    alloc: Global,
    text: &[u8],
    sender: &[u8],
    out: &mut [u8],
    len: &mut usize,
) -> Answer
    ensures { Tells (spec.target_told text.now sender.now) out.old out.new len.new result }
{
    tell(out, len, target_told(alloc, text, sender))
}
