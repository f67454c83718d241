//! Between origins and URLs (URL Standard, section 4.7).

ghost use Rattle.std.specs.Prelude.{◌≡◌, ◌≤◌, length, ◌++◌, codes, Some, IfOk, IfSome};
ghost use Rattle.origin_core.specs.Origin as spec;
ghost use Rattle.origin_core.specs.Origin.{page_origin, record_origin, web_scheme, root_text, blank_text, standard_origin_text, ReadsOrigin, origin_read, bounded};
ghost use Rattle.origin_core.specs.Tuple as parts;
ghost use Rattle.origin_core.specs.Host.{is_address};
ghost use Rattle.url.specs.Host.{host_text};
ghost use Rattle.url.specs.Parts.{host_or_empty, serialize, IsValid};

use crate::host::HostText;
use crate::origin::{Origin, Scheme, TupleOrigin, text_of_parts, tuple_text};
use crate::page::{PageUrl, UrlError, page_spelled, read_url};
use std::alloc::{AllocError, Global};
use url::{Host, ParseError, Position, Url};

/// The origin of a page's URL; `None` exactly for `about:blank`.
pub fn url_origin(alloc: Global, url: &PageUrl) -> Result<Option<Origin>, AllocError>
    ensures value { IfOk result (λ origin. origin ≡ page_origin url.now) }
    // It is the URL Standard's origin, told by its serialization.
    ensures standard { IfOk result (λ origin. IfSome origin (λ o. spec.origin_text o ≡ standard_origin_text url.now)) }
{
    record_origin_of(alloc, url.record())
}

fn record_origin_of(alloc: Global, url: &Url) -> Result<Option<Origin>, AllocError>
    requires { length (serialize url.now) ≤ 1024 }
    ensures { IfOk result (λ origin. origin ≡ record_origin url.now) }
{
    let Some(scheme) = scheme_of(url) else {
        return Ok(None);
    };
    let host = HostText::copy_of(alloc, host_of(url))?;
    Ok(Some(Origin::Tuple(TupleOrigin {
        scheme,
        host,
        ip: has_address(url),
        port: url.port(),
    })))
}

fn scheme_of(url: &Url) -> Option<Scheme>
    ensures { result ≡ web_scheme url.now.scheme }
{
    match url.scheme() {
        "http" => Some(Scheme::Http),
        "https" => Some(Scheme::Https),
        _ => None,
    }
}

pub(crate) fn host_of(url: &Url) -> &str
    ensures value { result.now ≡ host_text (host_or_empty url.now) }
    ensures valid { IsValid url.now }
{
    url.slice(Position::BeforeHost, Position::AfterHost)
}

pub(crate) fn has_address(url: &Url) -> bool
    ensures { result ≡ is_address (host_or_empty url.now) }
{
    match url.host() {
        Some(Host::Ipv4(_) | Host::Ipv6(_)) => true,
        _ => false,
    }
}

/// The URL that stands for an origin where the real one is not shown: its serialization with
/// `/`, or `about:blank` for an opaque one and where that text is over 1,024 bytes.
pub fn blank_url(alloc: Global, origin: &Origin) -> Result<PageUrl, AllocError>
    ensures { IfOk result (λ url. url ≡ blank_text origin.now) }
{
    match origin {
        Origin::Opaque(_) => about_blank(alloc),
        Origin::Tuple(tuple) => root_url(alloc, tuple),
    }
}

fn root_url(alloc: Global, tuple: &TupleOrigin) -> Result<PageUrl, AllocError>
    ensures { IfOk result (λ url. url ≡ root_text (parts.tuple_text tuple.now ++ codes "/")) }
{
    let origin = tuple_text(alloc, tuple)?;
    let origin = origin.as_str();
    let text = format!(in alloc; "{origin}/")?;
    match page_spelled(alloc, text.as_str())? {
        Some(page) => Ok(page),
        None => about_blank(alloc),
    }
}

fn about_blank(alloc: Global) -> Result<PageUrl, AllocError>
    ensures { IfOk result (λ url. url ≡ codes "about:blank") }
{
    match read_url(alloc, "about:blank", None) {
        Ok(url) => Ok(url),
        Err(_) => Err(AllocError),
    }
}

/// The http or https origin of the URL that a text is, or `None` where its origin is another. A
/// `blob:` URL has the origin of the URL in its path.
///
/// `NotAUrl` comes where the text is no URL, or the origin's serialization is over 1,024 bytes;
/// the text itself may be longer.
pub fn read_origin(alloc: Global, text: &str) -> Result<Option<Origin>, UrlError>
    ensures { ReadsOrigin result (origin_read text.now) }
{
    match Url::parse(alloc, text) {
        Ok(url) => web_origin(alloc, &url),
        Err(ParseError::OutOfMemory | ParseError::Overflow) => Err(UrlError::NoMemory),
        Err(_) => Err(UrlError::NotAUrl),
    }
}

fn web_origin(alloc: Global, url: &Url) -> Result<Option<Origin>, UrlError>
    ensures { ReadsOrigin result (bounded (spec.web_origin url.now)) }
{
    if url.scheme() != "blob" {
        return bounded_origin(alloc, url);
    }
    match Url::parse(alloc, url.path()) {
        Ok(inner) => bounded_origin(alloc, &inner),
        Err(ParseError::OutOfMemory | ParseError::Overflow) => Err(UrlError::NoMemory),
        Err(_) => Ok(None),
    }
}

fn bounded_origin(alloc: Global, url: &Url) -> Result<Option<Origin>, UrlError>
    ensures { ReadsOrigin result (bounded (record_origin url.now)) }
{
    let Some(scheme) = scheme_of(url) else {
        return Ok(None);
    };
    match text_of_parts(alloc, scheme, host_of(url), url.port()) {
        Ok(text) if text.as_str().len() > 1024 => Err(UrlError::NotAUrl),
        Ok(_) => match tuple_of(alloc, url, scheme) {
            Ok(tuple) => Ok(Some(Origin::Tuple(tuple))),
            Err(AllocError) => Err(UrlError::NoMemory),
        },
        Err(AllocError) => Err(UrlError::NoMemory),
    }
}

fn tuple_of(alloc: Global, url: &Url, scheme: Scheme) -> Result<TupleOrigin, AllocError>
    requires web { web_scheme url.now.scheme ≡ Some scheme }
    requires small { length (parts.tuple_text (spec.tuple_of url.now scheme)) ≤ 1024 }
    ensures { IfOk result (λ tuple. tuple ≡ spec.tuple_of url.now scheme) }
{
    Ok(TupleOrigin {
        scheme,
        host: HostText::copy_of(alloc, host_of(url))?,
        ip: has_address(url),
        port: url.port(),
    })
}
