ghost use Rattle.std.specs.Prelude.{◌≡◌};
ghost use Rattle.std.specs.Option.{option_copied};
ghost use Rattle.byte_answers.specs.Answers.{Gives};
ghost use Rattle.byte_frames.specs.Parts as spec;

use agent_terms::Request;
use byte_answers::Answer;
use origin_core::{PageUrl, origin_text};
use plain_data::{Data, Text, text_of};
use std::alloc::Global;
use tree_log::Target;

// The URL of a request.
fn url_of(request: &Request) -> Option<&PageUrl>
    ensures { option_copied result ≡ spec.url_of request.now }
{
    match request {
        Request::Frame { url, .. } => url.as_ref(),
        Request::Open { url, .. } => url.as_ref(),
        Request::Link { url, .. } => Some(url),
        Request::Go { url, .. } => Some(url),
        _ => None,
    }
}

// Its name, the name of a window that it targets, or a domain.
fn name_of(request: &Request) -> Option<&Text>
    ensures { option_copied result ≡ spec.name_of request.now }
{
    match request {
        Request::Frame { name, .. } => Some(name),
        Request::Open { target, .. } => Some(target),
        Request::Link { target, .. } => Some(target),
        Request::Name { name, .. } => Some(name),
        Request::Domain { value, .. } => Some(value),
        _ => None,
    }
}

fn copied(alloc: Global, text: &str) -> Result<Text, Answer>
    ensures { Gives result (spec.copied text.now) }
{
    match Text::copy_of(alloc, text) {
        Ok(text) => Ok(text),
        Err(_) => Err(Answer::NoMemory),
    }
}

fn url_told(alloc: Global, request: &Request) -> Result<Text, Answer>
    ensures { Gives result (spec.told (spec.url_of request.now)) }
{
    match url_of(request) {
        Some(url) => copied(alloc, url.as_str()),
        None => Err(Answer::OutOfRange),
    }
}

fn name_told(alloc: Global, request: &Request) -> Result<Text, Answer>
    ensures { Gives result (spec.told (spec.name_of request.now)) }
{
    match name_of(request) {
        Some(name) => copied(alloc, name.as_str()),
        None => Err(Answer::OutOfRange),
    }
}

fn target_text(alloc: Global, target: &Target) -> Result<Text, Answer>
    ensures { Gives result (spec.target_told target.now) }
{
    match target {
        Target::Any => copied(alloc, "*"),
        Target::Never => copied(alloc, "never"),
        Target::Origin(origin) => match origin_text(alloc, origin) {
            Ok(text) => copied(alloc, text.as_str()),
            Err(_) => Err(Answer::NoMemory),
        },
    }
}

fn data_text(alloc: Global, body: &Data) -> Result<Text, Answer>
    ensures { Gives result (spec.data_told body.now) }
{
    match text_of(alloc, body) {
        Ok(text) => Ok(text),
        Err(_) => Err(Answer::NoMemory),
    }
}

fn message_target(alloc: Global, request: &Request) -> Result<Text, Answer>
    ensures { Gives result (spec.message_target request.now) }
{
    match request {
        Request::Post { target, .. } => target_text(alloc, target),
        _ => Err(Answer::OutOfRange),
    }
}

fn message_data(alloc: Global, request: &Request) -> Result<Text, Answer>
    ensures { Gives result (spec.message_data request.now) }
{
    match request {
        Request::Post { body, .. } => data_text(alloc, body),
        _ => Err(Answer::OutOfRange),
    }
}

/// A text of a request: 0 its URL, 1 its name or domain, 2 the target of its message, 3 the message's data.
pub(crate) fn part_of(alloc: Global, request: &Request, part: u8) -> Result<Text, Answer>
    ensures { Gives result (spec.part_told part request.now) }
{
    if part == 0 {
        return url_told(alloc, request);
    }
    if part == 1 {
        return name_told(alloc, request);
    }
    if part == 2 {
        return message_target(alloc, request);
    }
    if part == 3 {
        return message_data(alloc, request);
    }
    Err(Answer::OutOfRange)
}
