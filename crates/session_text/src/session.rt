// Reader of sessions.
ghost use Rattle.std.specs.Prelude.{◌≡◌, IfOk, All, true};
ghost use Rattle.origin_core.specs.Page.{IsPageText};
ghost use Rattle.serde_json.specs.View.{view};
ghost use Rattle.agent_terms.specs.Limits.{most_renderers, most_starts, most_turns, most_pages};
ghost use Rattle.session_reading.specs.Forms.{Leaves, fields};
ghost use Rattle.session_reading.specs.Refusing.{Gives};
ghost use Rattle.session_reading.specs.Reading as reading;
ghost use Rattle.session_text.specs.Range.{IsInRange};
ghost use Rattle.session_text.specs.Session as spec;

use crate::limits::{MAX_PAGES, MAX_RENDERERS, MAX_STARTS, MAX_SUFFIX, MAX_TURNS};
use crate::page::{APage, tell_text, web_url};
use agent_terms::{Page, Session};
use origin_core::{HostText, PageUrl};
use plain_data::Items;
use serde_json::Value;
use session_reading::{
    Form, Name, Reads, ReadsItem, SessionError, any_list, list_of, out_of_range, text, whole,
};
use std::alloc::Global;

/// Reads the number of renderers, at least one.
struct Renderers;

impl Reads for Renderers {
    type Out = u16;

    ghost reads = { λ _. reading.whole 1 most_renderers };

    fn read(&self, alloc: Global, value: &Value) -> Result<u16, SessionError> {
        match whole(alloc, 1, MAX_RENDERERS, value) {
            Ok(n) => Ok(n as u16),
            Err(e) => Err(e),
        }
    }
}

/// Reads a public suffix.
struct ASuffix;

impl ReadsItem for ASuffix {
    type Out = HostText;

    ghost reads_item = { λ _ _. spec.suffix };

    #[tactic(auto, unfolding(crate::specs::Session::suffix))]
    fn read_item(
        &self,
        alloc: Global,
        _before: &[HostText],
        value: &Value,
    ) -> Result<HostText, SessionError> {
        let text = text(alloc, value)?;
        if !is_suffix(text) {
            return Err(out_of_range(alloc));
        }
        Ok(HostText::copy_of(alloc, text)?)
    }
}

#[tactic(auto, unfolding(crate::specs::Session::is_suffix))]
fn is_suffix(text: &str) -> bool
    ensures { result ≡ spec.is_suffix text.now }
{
    text.len() <= MAX_SUFFIX && has_labels(text.as_bytes())
}

// Whether the text is labels with single dots between them.
#[tactic(auto, unfolding(crate::specs::Session::has_labels))]
fn has_labels(bytes: &[u8]) -> bool
    ensures { result ≡ spec.has_labels true bytes.now }
{
    let mut begins = true;
    for byte in bytes {
        if *byte == b'.' {
            if begins {
                return false;
            }
            begins = true;
        } else {
            if !is_label_byte(*byte) {
                return false;
            }
            begins = false;
        }
    }
    !begins
}

fn is_label_byte(byte: u8) -> bool
    ensures { result ≡ spec.is_label_byte byte }
{
    (b'a' <= byte && byte <= b'z') || (b'0' <= byte && byte <= b'9') || byte == b'-'
}

/// Reads the public suffixes.
struct Suffixes;

impl Reads for Suffixes {
    type Out = Items<HostText>;

    ghost reads = { λ _. reading.any_list (λ _. spec.suffix) };

    fn read(&self, alloc: Global, value: &Value) -> Result<Items<HostText>, SessionError> {
        any_list(alloc, &ASuffix, value)
    }
}

/// Reads the URL that a start window loads.
struct StartUrl;

impl ReadsItem for StartUrl {
    type Out = PageUrl;

    ghost reads_item = { λ _ _. spec.web_url };

    ghost holds_item = { IsPageText };

    fn read_item(
        &self,
        alloc: Global,
        _before: &[PageUrl],
        value: &Value,
    ) -> Result<PageUrl, SessionError> {
        let url = web_url(alloc, value)?;
        tell_text(&url);
        Ok(url)
    }
}

/// Reads the URLs that the start windows load, at least one.
struct Start;

impl Reads for Start {
    type Out = Items<PageUrl>;

    ghost reads = { λ _. reading.list_of 1 most_starts (λ _. spec.web_url) };

    ghost holds = { All IsPageText };

    fn read(&self, alloc: Global, value: &Value) -> Result<Items<PageUrl>, SessionError> {
        list_of(alloc, 1, MAX_STARTS, &StartUrl, value)
    }
}

/// Reads the number of a renderer, below that of all.
#[derive(Drop)]
struct ARenderer {
    renderers: u16,
}

impl ReadsItem for ARenderer {
    type Out = u16;

    ghost reads_item = { λ r _. spec.renderer_of r.renderers };

    fn read_item(
        &self,
        alloc: Global,
        _before: &[u16],
        value: &Value,
    ) -> Result<u16, SessionError> {
        match whole(alloc, 0, u64::from(self.renderers).saturating_sub(1), value) {
            Ok(n) => Ok(n as u16),
            Err(e) => Err(e),
        }
    }
}

/// Reads whose turns come first.
#[derive(Drop)]
struct Order {
    renderers: u16,
}

impl Reads for Order {
    type Out = Items<u16>;

    ghost reads = { λ o. reading.list_of 0 most_turns (λ _. spec.renderer_of o.renderers) };

    fn read(&self, alloc: Global, value: &Value) -> Result<Items<u16>, SessionError> {
        let item = ARenderer {
            renderers: self.renderers,
        };
        list_of(alloc, 0, MAX_TURNS, &item, value)
    }
}

/// Reads the pages.
struct Pages;

impl Reads for Pages {
    type Out = Items<Page>;

    ghost reads = { λ _. reading.list_of 0 most_pages spec.page_read };

    ghost holds = { All (λ page. IsPageText page.url) };

    fn read(&self, alloc: Global, value: &Value) -> Result<Items<Page>, SessionError> {
        list_of(alloc, 0, MAX_PAGES, &APage, value)
    }
}

#[tactic(auto, unfolding(crate::specs::Session::suffixes_read))]
fn suffixes_of(form: &mut Form<'_>) -> Result<Items<HostText>, SessionError>
    ensures { Leaves result (fields form.new) (spec.suffixes_read (fields form.old)) }
{
    form.field_or(Name::Suffixes, Items::new(form.allocator()), &Suffixes)
}

#[tactic(auto, unfolding(crate::specs::Session::order_read))]
fn order_of(form: &mut Form<'_>, renderers: u16) -> Result<Items<u16>, SessionError>
    ensures { Leaves result (fields form.new) (spec.order_read renderers (fields form.old)) }
{
    form.field_or(
        Name::Order,
        Items::new(form.allocator()),
        &Order { renderers },
    )
}

#[tactic(auto, unfolding(crate::specs::Session::session_read))]
fn session_of(alloc: Global, value: &Value) -> Result<Session, SessionError>
    ensures given { Gives result (spec.session_read (view value.now)) }
    ensures start { IfOk result (λ s. All IsPageText s.start) }
    ensures pages { IfOk result (λ s. All (λ page. IsPageText page.url) s.pages) }
{
    let mut form = Form::of(alloc, value)?;
    let renderers = form.field(Name::Renderers, &Renderers)?;
    let suffixes = suffixes_of(&mut form)?;
    let start = form.field(Name::Start, &Start)?;
    let order = order_of(&mut form, renderers)?;
    let pages = form.field(Name::Pages, &Pages)?;
    form.ends()?;
    Ok(Session {
        renderers,
        suffixes,
        start,
        order,
        lose: Items::new(alloc),
        pages,
    })
}

/// Reads the session that a JSON text is.
///
/// A session is an object with the fields `renderers`, a whole from 1 to 16; `suffixes`, a list of public suffixes;
/// `start`, a list of 1 to 64 http or https URLs; `order`, a list of at most 20,000 numbers of renderers, from 0; and
/// `pages`, a list of at most 1,000 pages. A page is an object with `url`, an http or https URL without fragment that
/// differs from those of all earlier pages as it is serialized, and with `script` and `handler`, lists of at most 200
/// steps. `suffixes`, `order`, `script` and `handler` may be absent, and are then empty. A step is an object with the
/// name `op` and the fields of that step. Texts have at most 1,024 bytes. A URL is read without a base (URL
/// Standard, section 4.4).
///
/// # Errors
///
/// `NotJson` comes exactly where the bytes are no JSON text: not UTF-8, not of JSON's grammar, nested more than 127
/// deep, or with a number or an escape that `serde_json` refuses. Every other refusal has the path of the place that
/// it is about, and comes exactly where that is the first place that doesn't fit: an object's fields are read in
/// the order above, those of a step in the order of its table, each to its end, items in order, and then an unknown
/// field is looked for, the first by bytes. A step that sessions may not have yet is `UnknownStep` at its `op`, once
/// all of it was read; a `domain` is at once, as a name is that no step has.
/// At one place a missing field comes before a wrong kind, and that before a value out of its range. `NoMemory`
/// comes where there was no memory.
pub fn read_session(alloc: Global, bytes: &[u8]) -> Result<Session, SessionError>
    ensures session { Gives result (spec.session_of bytes.now) }
    ensures range { IfOk result IsInRange }
{
    match Value::from_slice(alloc, bytes) {
        Ok(value) => session_of(alloc, &value),
        Err(e) if e.is_memory() => Err(SessionError::NoMemory),
        Err(_) => Err(SessionError::NotJson),
    }
}
