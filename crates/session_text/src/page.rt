// Readers of pages and their URLs.
ghost use Rattle.std.specs.Prelude.{◌≡◌, is_some, None, IfOk};
ghost use Rattle.origin_core.specs.Page.{fragment_of, read_page, IsPageText};
ghost use Rattle.serde_json.specs.View.{view};
ghost use Rattle.session_reading.specs.Forms.{Leaves, fields};
ghost use Rattle.session_reading.specs.Refusing.{Gives};
ghost use Rattle.session_text.specs.Session as spec;

use crate::step::Steps;
use agent_terms::{Page, Step};
use origin_core::{PageUrl, UrlError, read_url};
use plain_data::Items;
use serde_json::Value;
use session_reading::{Form, Name, Reads, ReadsItem, SessionError, out_of_range, text};
use std::alloc::Global;

/// The http or https URL that the value is (URL Standard, section 4.4, without a base).
#[tactic(auto, unfolding(crate::specs::Session::web_url))]
pub(crate) fn web_url(alloc: Global, value: &Value) -> Result<PageUrl, SessionError>
    ensures { Gives result (spec.web_url (view value.now)) }
{
    let text = text(alloc, value)?;
    let url = url_of(alloc, text)?;
    if !url.is_web() {
        return Err(out_of_range(alloc));
    }
    Ok(url)
}

fn url_of(alloc: Global, text: &str) -> Result<PageUrl, SessionError>
    ensures { Gives result (spec.url_from (read_page None text.now)) }
{
    match read_url(alloc, text, None) {
        Ok(url) => Ok(url),
        Err(UrlError::NoMemory) => Err(SessionError::NoMemory),
        Err(_) => Err(out_of_range(alloc)),
    }
}

/// Reads a page's URL: without fragment, and none of an earlier page.
#[derive(Drop)]
struct NewUrl<'a> {
    before: &'a [Page],
}

impl<'a> Reads for NewUrl<'a> {
    type Out = PageUrl;

    ghost reads = { λ r. spec.page_url r.before.now };

    #[tactic(auto, unfolding(crate::specs::Session::page_url))]
    fn read(&self, alloc: Global, value: &Value) -> Result<PageUrl, SessionError> {
        let url = web_url(alloc, value)?;
        if has_fragment(&url) {
            return Err(out_of_range(alloc));
        }
        if has_url(self.before, url.as_str()) {
            return Err(out_of_range(alloc));
        }
        Ok(url)
    }
}

// An empty fragment is one.
fn has_fragment(url: &PageUrl) -> bool
    ensures { result ≡ is_some (fragment_of url.now) }
{
    url.fragment().is_some()
}

#[tactic(auto, unfolding(crate::specs::Session::has_url))]
fn has_url(pages: &[Page], url: &str) -> bool
    ensures { result ≡ spec.has_url pages.now url.now }
{
    pages.iter().any(|page| url == page.url.as_str())
}

// The steps of the field, which may be absent.
#[tactic(auto, unfolding(crate::specs::Session::steps_at))]
fn steps_at(form: &mut Form<'_>, name: Name) -> Result<Items<Step>, SessionError>
    ensures { Leaves result (fields form.new) (spec.steps_at name (fields form.old)) }
{
    form.field_or(name, Items::new(form.allocator()), &Steps)
}

#[tactic(auto, unfolding(crate::specs::Session::page_read))]
fn page_of(alloc: Global, before: &[Page], value: &Value) -> Result<Page, SessionError>
    ensures { Gives result (spec.page_read before.now (view value.now)) }
{
    let mut form = Form::of(alloc, value)?;
    let url = form.field(Name::Url, &NewUrl { before })?;
    let script = steps_at(&mut form, Name::Script)?;
    let handler = steps_at(&mut form, Name::Handler)?;
    form.ends()?;
    Ok(Page {
        url,
        script,
        handler,
    })
}

// Tells what the type of a page's URL promises: reading its text gives just that text.
pub(crate) fn tell_text(url: &PageUrl)
    ensures { IsPageText url.now }
{
    let _text = url.as_str();
}

/// Reads a page of a session.
pub(crate) struct APage;

impl ReadsItem for APage {
    type Out = Page;

    ghost reads_item = { λ _. spec.page_read };

    ghost holds_item = { λ page. IsPageText page.url };

    fn read_item(
        &self,
        alloc: Global,
        before: &[Page],
        value: &Value,
    ) -> Result<Page, SessionError> {
        let page = page_of(alloc, before, value)?;
        tell_text(&page.url);
        Ok(page)
    }
}
