//! The URLs that pages have.

ghost use Rattle.std.specs.Prelude.{◌≡◌, IsAscii, ◌≤◌, length, option_copied, IfOk, IfSome, is_some, None, Ok};
ghost use Rattle.url.specs.Parts.{Parts, serialize, IsValid};
ghost use Rattle.url.specs.Parser.{Gives, parse_url};
ghost use Rattle.origin_core.specs.Page as spec;
ghost use Rattle.origin_core.specs.Page.{parse_against, page_text, read_page, Reads, IsPageText, IsPageRecord, IsAsParsed, is_same_but_fragment, unfragmented, fragment_of, is_web_text};
ghost use Rattle.origin_core.specs.Origin.{page_origin};

use std::alloc::{AllocError, Global};
use std::marker::Model;
use thiserror::Error;
use url::{ParseError, ParseResult, Position, Url};

/// Why a text is no page's URL.
#[derive(Clone, Copy, Debug, PartialEq, Eq, Error)]
pub enum UrlError {
    /// The text is no URL, or is over 1,024 bytes, as it stands or serialized.
    #[error("not a URL")]
    NotAUrl,
    /// The URL is neither http nor https nor `about:blank`.
    #[error("a URL with a scheme that no page has")]
    SchemeOut,
    /// There was no memory, or a URL came to 4 GB.
    #[error("out of memory")]
    NoMemory,
}

/// An http or https URL, or `about:blank` with an optional fragment, seen as its text: the URL
/// Standard's serialization, of at most 1,024 bytes.
#[derive(Drop)]
pub struct PageUrl {
    url: Url,
}

impl Model for PageUrl {
    ghost use Rattle.std.specs.Prelude.{ℕ, List};
    ghost use Rattle.std.specs.Coded.{coded_ℕ, coded_list};

    ghost Value = { List ℕ };

    ghost coded = { coded_list coded_ℕ };

    ghost use Rattle.url.specs.Parts.{serialize};
    ghost use Rattle.origin_core.specs.Page.{IsPageRecord};

    ghost view = { λ p. serialize p.url };

    ghost invariant = { λ p. IsPageRecord p.url };
}

impl PageUrl {
    /// The URL's text. It takes no memory.
    pub fn as_str(&self) -> &str
        ensures value { result.now ≡ self.now }
        ensures page { IsPageText self.now }
        ensures ascii { IsAscii self.now }
        ensures spelled { (url : Parts) × IsPageRecord url × (serialize url ≡ self.now) }
    {
        self.url.as_str()
    }

    /// The fragment, if there is one; it may be empty, as in `https://a.test/#`.
    pub fn fragment(&self) -> Option<&str>
        ensures { option_copied result ≡ fragment_of self.now }
    {
        self.record().fragment()
    }

    /// The text without the fragment.
    pub fn without_fragment(&self) -> &str
        ensures { result.now ≡ spec.without_fragment self.now }
    {
        text_without_fragment(self.record())
    }

    /// Whether it is an http or https URL, and not `about:blank`.
    pub fn is_web(&self) -> bool
        ensures value { result ≡ is_web_text self.now }
        ensures origin { result ≡ is_some (page_origin self.now) }
    {
        is_web(self.record())
    }

    // The record that the text spells.
    pub(crate) fn record(&self) -> &Url
        ensures value { parse_url None self.now ≡ Ok result.now }
        ensures valid { IsValid result.now }
        ensures small { length (serialize result.now) ≤ 1024 }
    {
        &self.url
    }
}

impl Clone for PageUrl {
    ghost is_clone = { λ url copy. copy ≡ url };

    fn clone(&self) -> Result<PageUrl, AllocError> {
        Ok(PageUrl {
            url: self.url.clone()?,
        })
    }
}

fn text_without_fragment(url: &Url) -> &str
    ensures { result.now ≡ unfragmented (Ok url.now) }
{
    url.slice(Position::BeforeScheme, Position::AfterQuery)
}

/// Whether two URLs differ in their fragments at most (URL Standard, section 4.6, "exclude
/// fragments"). It takes no memory.
pub fn same_but_fragment(a: &PageUrl, b: &PageUrl) -> bool
    ensures { result ≡ is_same_but_fragment a.now b.now }
{
    a.without_fragment() == b.without_fragment()
}

/// The page's URL that a text is, if reading it gives just that text: `https://a.test/`, and
/// `None` for `https://a.test`.
pub fn page_spelled(alloc: Global, text: &str) -> Result<Option<PageUrl>, AllocError>
    ensures { IfOk result (λ page. page ≡ spec.page_spelled text.now) }
{
    match read_url(alloc, text, None) {
        Ok(page) if page.as_str() == text => Ok(Some(page)),
        Err(UrlError::NoMemory) => Err(AllocError),
        _ => Ok(None),
    }
}

/// Reads a text as a page's URL, against a base if there is one (URL Standard, section 4.4).
///
/// `NotAUrl` comes exactly where the text is over 1,024 bytes, the parse fails, or a page could
/// have the URL but for a serialization over 1,024 bytes; `SchemeOut` exactly where the parse of
/// a text of at most 1,024 bytes gives a URL that is neither http nor https nor `about:blank`
/// without a query.
pub fn read_url(alloc: Global, text: &str, base: Option<&PageUrl>) -> Result<PageUrl, UrlError>
    ensures { Reads result (read_page (option_copied base.entry) text.now) }
{
    if text.len() > 1024 {
        return Err(UrlError::NotAUrl);
    }
    match parse(alloc, text, base) {
        Ok(url) => page_of(url),
        Err(ParseError::OutOfMemory | ParseError::Overflow) => Err(UrlError::NoMemory),
        Err(_) => Err(UrlError::NotAUrl),
    }
}

fn parse(alloc: Global, text: &str, base: Option<&PageUrl>) -> ParseResult<Url>
    ensures gives { Gives result (parse_against (option_copied base.entry) text.now) }
    ensures as_parsed { IfOk result IsAsParsed }
{
    match base {
        Some(page) => page.url.join(text),
        None => Url::parse(alloc, text),
    }
}

fn page_of(url: Url) -> Result<PageUrl, UrlError>
    requires { IsAsParsed url }
    ensures { Reads result (page_text url) }
{
    if !is_web(&url) && !is_blank(&url) {
        return Err(UrlError::SchemeOut);
    }
    if url.as_str().len() > 1024 {
        return Err(UrlError::NotAUrl);
    }
    Ok(PageUrl { url })
}

pub(crate) fn is_web(url: &Url) -> bool
    ensures { result ≡ spec.is_web url.now }
{
    url.scheme() == "http" || url.scheme() == "https"
}

fn is_blank(url: &Url) -> bool
    ensures { result ≡ spec.is_blank url.now }
{
    url.scheme() == "about"
        && url.path() == "blank"
        && !url.has_authority()
        && url.query().is_none()
}
