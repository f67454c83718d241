ghost use Rattle.std.specs.Prelude.{◌≡◌, IsTrue, true};
ghost use Rattle.std.specs.Str.{is_utf8};
ghost use Rattle.plain_data.specs.DataLimits.{is_short, within_limits};
ghost use Rattle.link_fields.specs.Basic.{flags, optional, text, u32, url};
ghost use Rattle.link_fields.specs.Limits.{texts_are_utf8};
ghost use Rattle.link_fields.specs.Origins as origins;
ghost use Rattle.link_fields.specs.Skipping.{data_field};
ghost use Rattle.frame_grammar.specs.Parts as parts;
ghost use Rattle.link_wire.specs.Requests.{IsRequest};
ghost use Rattle.step_ranges.specs.Parts.{HasFitParts, are_utf8, members_are_utf8};
ghost use Rattle.step_ranges.specs.Ranges.{is_request_short};

use agent_terms::Request;
use link_fields::laws::data_fits_within_limits;
use origin_core::{Flags, Origin, PageUrl};
use plain_data::{Data, Text};
use tree_log::Target;

/// Shows that a request whose texts are short and whose data is within the limits is one that a frame spells: its numbers,
/// texts, URLs and origins are in range by their types. It changes nothing and takes no memory.
#[tactic(auto, using(crate::proofs::Fitting::is_request))]
pub fn know_request(request: &Request)
    requires { is_request_short request.now ≡ true }
    ensures { IsRequest request.now }
{
    know_parts(request);
}

// Shows that each part of the request is in range.
#[tactic(auto, unfolding(crate::specs::Ranges::is_request_short))]
fn know_parts(request: &Request)
    requires { is_request_short request.now ≡ true }
    ensures { HasFitParts request.now }
{
    match request {
        Request::Next | Request::More => {}
        Request::Sync { asker } => know_number(asker),
        Request::Frame {
            asker,
            name,
            flags,
            url,
        } => {
            know_number(asker);
            know_text(name);
            know_flags(*flags);
            know_url_if_any(url);
        }
        Request::Drop { asker, nav } => {
            know_number(asker);
            know_number(nav);
        }
        Request::Open {
            asker,
            url,
            target,
            ..
        } => {
            know_number(asker);
            know_url_if_any(url);
            know_text(target);
        }
        Request::Link {
            asker,
            url,
            target,
            ..
        } => {
            know_number(asker);
            know_url(url);
            know_text(target);
        }
        Request::Go {
            asker,
            doc,
            url,
            ..
        } => {
            know_number(asker);
            know_number(doc);
            know_url(url);
        }
        Request::Name { asker, doc, name } => {
            know_number(asker);
            know_number(doc);
            know_text(name);
        }
        Request::Disown { asker, doc } => {
            know_number(asker);
            know_number(doc);
        }
        Request::Close { asker, doc, .. } => {
            know_number(asker);
            know_number(doc);
        }
        Request::Post {
            asker,
            doc,
            target,
            body,
        } => {
            know_number(asker);
            know_number(doc);
            know_target(target);
            know_data(body);
        }
        Request::Domain { asker, value } => {
            know_number(asker);
            know_text(value);
        }
    }
}

fn know_number(number: &u32)
    ensures { u32.Fits number.now }
{
    let _value = *number;
}

fn know_flags(set: Flags)
    ensures { flags.Fits set }
{}

fn know_utf8(given: &Text)
    ensures { is_utf8 given.now ≡ true }
{
    let _text = given.as_str();
}

#[tactic(auto, using(crate::proofs::Fitting::short_text_fits))]
fn know_text(given: &Text)
    requires { is_short given.now ≡ true }
    ensures { text.Fits given.now }
{
    know_utf8(given);
}

#[tactic(auto, using(crate::proofs::Fitting::page_fits))]
fn know_url(page: &PageUrl)
    ensures { url.Fits page.now }
{
    let _text = page.as_str();
}

#[tactic(auto, using(crate::proofs::Fitting::pages))]
fn know_url_if_any(page: &Option<PageUrl>)
    ensures { (optional url).Fits page.now }
{
    match page {
        Some(page) => know_url(page),
        None => {}
    }
}

#[tactic(auto, using(crate::proofs::Fitting::origins))]
fn know_origin(origin: &Origin)
    ensures { origins.origin.Fits origin.now }
{
    match origin {
        Origin::Tuple(tuple) => {
            let _host = tuple.host();
        }
        Origin::Opaque(document) => know_number(document),
    }
}

#[tactic(auto, using(crate::proofs::Fitting::targets_fit))]
fn know_target(target: &Target)
    ensures { parts.target.Fits target.now }
{
    match target {
        Target::Origin(origin) => know_origin(origin),
        Target::Any | Target::Never => {}
    }
}

fn know_data(given: &Data)
    requires { within_limits given.now ≡ true }
    ensures { data_field.Fits given.now }
{
    know_texts(given);
    data_fits_within_limits();
}

// Shows that each text and each key is UTF-8, at each level.
#[cycle(texts)]
#[tactic(auto, using(crate::proofs::Fitting::levels))]
fn know_texts(given: &Data)
    ensures { IsTrue (texts_are_utf8 given.now) }
{
    match given {
        Data::Text(text) => know_utf8(text),
        Data::List(items) => know_items(items.as_slice()),
        Data::Record(members) => know_members(members.as_slice()),
        _ => {}
    }
}

#[cycle(texts)]
fn know_items(items: &[Data])
    ensures { IsTrue (are_utf8 items.now) }
{
    for item in items {
        know_texts(item);
    }
}

#[cycle(texts)]
fn know_members(members: &[(Text, Data)])
    ensures { IsTrue (members_are_utf8 members.now) }
{
    for member in members {
        know_utf8(&member.0);
        know_texts(&member.1);
    }
}
