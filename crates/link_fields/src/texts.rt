ghost use Rattle.std.specs.Prelude.{◌≡◌, ◌<◌, true, false, IfOk, MatchOption};
ghost use Rattle.std.specs.Str.{is_utf8};
ghost use Rattle.link_fields.specs.Field.{Gives};
ghost use Rattle.link_fields.specs.Basic as spec;

use crate::fault::{Flaw, ReadError, fault_here};
use crate::numbers::{read_small, read_u16};
use origin_core::{PageUrl, page_spelled};
use plain_data::Text;
use std::alloc::Global;
use std::str;

#[tactic(auto, unfolding(crate::specs::Basic::string_at))]
fn read_string(bytes: &[u8]) -> Result<(&[u8], &[u8]), ReadError>
    ensures { Gives (λ x. (x.0.now, x.1.now)) result (spec.string.read bytes.now) }
{
    let (len, rest) = read_u16(bytes)?;
    let len = len as usize;
    if rest.len() < len {
        return Err(fault_here(Flaw::Short, bytes));
    }
    Ok(rest.split_at(len))
}

fn utf8_text(bytes: &[u8]) -> Option<&str>
    ensures { MatchOption result (is_utf8 bytes.now ≡ false) (λ s. (s.now ≡ bytes.now) × (is_utf8 bytes.now ≡ true)) }
{
    match str::from_utf8(bytes) {
        Ok(text) => Some(text),
        Err(_) => None,
    }
}

/// A text of at most 1,024 bytes, where it stands.
#[tactic(auto, unfolding(crate::specs::Basic::is_text))]
pub(crate) fn read_str(bytes: &[u8]) -> Result<(&str, &[u8]), ReadError>
    ensures { Gives (λ x. (x.0.now, x.1.now)) result (spec.text.read bytes.now) }
{
    let (string, rest) = read_string(bytes)?;
    let Some(text) = utf8_text(string) else {
        return Err(fault_here(Flaw::Text, bytes));
    };
    if text.len() > 1024 {
        return Err(fault_here(Flaw::Text, bytes));
    }
    Ok((text, rest))
}

/// A text of at most 1,024 bytes.
pub fn read_text(alloc: Global, bytes: &[u8]) -> Result<(Text, &[u8]), ReadError>
    ensures { Gives (λ x. (x.0, x.1.now)) result (spec.text.read bytes.now) }
{
    let (text, rest) = read_str(bytes)?;
    Ok((Text::copy_of(alloc, text)?, rest))
}

/// A page's URL, in the URL Standard's serialization.
pub fn read_url(alloc: Global, bytes: &[u8]) -> Result<(PageUrl, &[u8]), ReadError>
    ensures { Gives (λ x. (x.0, x.1.now)) result (spec.url.read bytes.now) }
{
    let (text, rest) = read_str(bytes)?;
    match page_spelled(alloc, text)? {
        Some(url) => Ok((url, rest)),
        None => Err(fault_here(Flaw::Url, bytes)),
    }
}

/// 0, or 1 and a page's URL.
pub fn read_optional_url(alloc: Global, bytes: &[u8]) -> Result<(Option<PageUrl>, &[u8]), ReadError>
    ensures { Gives (λ x. (x.0, x.1.now)) result ((spec.optional spec.url).read bytes.now) }
{
    let (tag, rest) = read_small(1, bytes)?;
    if tag == 0 {
        return Ok((None, rest));
    }
    let (url, rest) = read_url(alloc, rest)?;
    Ok((Some(url), rest))
}

/// The sum of the bits of sandbox flags, in two bytes.
pub fn read_flag_bits(bytes: &[u8]) -> Result<(u16, &[u8]), ReadError>
    ensures value { Gives (λ x. (x.0, x.1.now)) result (spec.flags.read bytes.now) }
    ensures range { IfOk result (λ x. x.0 < 256) }
{
    let (bits, rest) = read_u16(bytes)?;
    if bits >= 256 {
        return Err(fault_here(Flaw::Range, bytes));
    }
    Ok((bits, rest))
}
