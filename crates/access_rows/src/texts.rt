use agent_terms::{Outcome, Performed, Request};
use origin_core::{Origin, PageUrl, origin_text};
use plain_data::Items;
use std::alloc::{AllocError, Global};
use tree_log::Target;
use window_props::{Key, Value, descriptor_text, value_text};

fn keys_text(alloc: Global, keys: &Items<Key>) -> Result<String, AllocError> {
    let mut line = String::new(alloc);
    for key in keys.as_slice() {
        if !line.is_empty() {
            line.push_str(" ")?;
        }
        line.push_str(key.as_str())?;
    }
    Ok(line)
}

/// The origins that a target means.
pub fn target_text(alloc: Global, target: &Target) -> Result<String, AllocError> {
    match target {
        Target::Any => String::from_str(alloc, "*"),
        Target::Never => String::from_str(alloc, "never"),
        Target::Origin(Origin::Opaque(number)) => format!(in alloc; "opaque {}", *number),
        Target::Origin(origin) => String::from_str(alloc, origin_text(alloc, origin)?.as_str()),
    }
}

fn url_text(url: &Option<PageUrl>) -> &str {
    match url {
        None => "none",
        Some(url) => url.as_str(),
    }
}

fn opener_text(noopener: bool) -> &'static str {
    if noopener { " without opener" } else { "" }
}

fn request_text(alloc: Global, request: Request) -> Result<String, AllocError> {
    match request {
        Request::Next => String::from_str(alloc, "next"),
        Request::Sync { .. } => String::from_str(alloc, "sync"),
        Request::Frame { url, .. } => format!(in alloc; "frame {}", url_text(&url)),
        Request::Drop { nav, .. } => format!(in alloc; "drop n{nav}"),
        Request::Open { url, noopener, .. } => {
            format!(in alloc; "open {}{}", url_text(&url), opener_text(noopener))
        }
        Request::Link { url, noopener, .. } => {
            format!(in alloc; "link {}{}", url.as_str(), opener_text(noopener))
        }
        Request::Go { doc, url, .. } => format!(in alloc; "go d{doc} {}", url.as_str()),
        Request::Name { doc, name, .. } => format!(in alloc; "name d{doc} {}", name.as_str()),
        Request::Disown { doc, .. } => format!(in alloc; "disown d{doc}"),
        Request::Close { doc, user, .. } => {
            let by = if user { " by a person" } else { "" };
            format!(in alloc; "close d{doc}{by}")
        }
        Request::Post {
            doc,
            target,
            body,
            ..
        } => {
            let target = target_text(alloc, &target)?;
            let body = value_text(alloc, &Value::Plain(body))?;
            format!(in alloc; "post d{doc} {} {}", target.as_str(), body.as_str())
        }
        Request::Domain { value, .. } => format!(in alloc; "domain {}", value.as_str()),
        Request::More => String::from_str(alloc, "more"),
    }
}

fn outcome_text(alloc: Global, outcome: Outcome) -> Result<String, AllocError> {
    match outcome {
        Outcome::Value(value) => String::from_str(alloc, value_text(alloc, &value)?.as_str()),
        Outcome::Truth(truth) => format!(in alloc; "{truth}"),
        Outcome::Keys(keys) => keys_text(alloc, &keys),
        Outcome::Own(None) => String::from_str(alloc, "undefined"),
        Outcome::Own(Some(property)) => {
            String::from_str(alloc, descriptor_text(alloc, &property)?.as_str())
        }
        Outcome::Security(rule) => String::from_str(alloc, rule.text()),
        Outcome::Syntax => String::from_str(alloc, "SyntaxError"),
        Outcome::SchemeOut => String::from_str(alloc, "SchemeOut"),
        Outcome::DataClone => String::from_str(alloc, "DataCloneError"),
        Outcome::TypeFault => String::from_str(alloc, "TypeError"),
        Outcome::Ask(_) => String::from_str(alloc, "a request"),
    }
}

/// What a step came to: its outcome, or what it asks of the coordinator.
pub fn performed_text(alloc: Global, performed: Performed) -> Result<String, AllocError> {
    match performed {
        Performed::Answer(outcome) => outcome_text(alloc, outcome),
        Performed::Ask(request) => request_text(alloc, request),
    }
}
