ghost use Rattle.std.specs.Prelude.{◌≡◌};
ghost use Rattle.byte_answers.specs.Answers.{Gives, GivesBy, Sets, SetsBy, Tells};
ghost use Rattle.byte_answers.specs.Rules as spec;

use crate::answer::Answer;
use crate::buffer::tell;
use crate::texts::{suffixes_of, text_of};
use origin_core::{
    HostText, Origin, PageUrl, Site, UrlError, origin_text, read_url, same_origin, same_site,
    site_of, url_origin,
};
use std::alloc::Global;

/// The URL of a page that bytes are, read alone (URL Standard, section 4.4).
pub fn page_of(alloc: Global, bytes: &[u8]) -> Result<PageUrl, Answer>
    ensures { Gives result (spec.page_told bytes.now) }
{
    match text_of(bytes) {
        Ok(text) => match read_url(alloc, text, None) {
            Ok(page) => Ok(page),
            Err(UrlError::NotAUrl) => Err(Answer::NotAUrl),
            Err(UrlError::SchemeOut) => Err(Answer::SchemeOut),
            Err(UrlError::NoMemory) => Err(Answer::NoMemory),
        },
        Err(why) => Err(why),
    }
}

// The origin of a URL; an opaque one for `about:blank`.
fn origin_of_page(alloc: Global, page: &PageUrl, opaque: u32) -> Result<Origin, Answer>
    ensures { Gives result (spec.origin_told opaque page.now) }
{
    match url_origin(alloc, page) {
        Ok(Some(origin)) => Ok(origin),
        Ok(None) => Ok(Origin::Opaque(opaque)),
        Err(_) => Err(Answer::NoMemory),
    }
}

// The origin of the URL that bytes are; where that is opaque, it has a number.
pub(crate) fn origin_of(alloc: Global, bytes: &[u8], opaque: u32) -> Result<Origin, Answer>
    ensures { Gives result (spec.origin_of opaque bytes.now) }
{
    match page_of(alloc, bytes) {
        Ok(page) => origin_of_page(alloc, &page, opaque),
        Err(why) => Err(why),
    }
}

// The serialization of an origin.
pub(crate) fn text_of_origin(alloc: Global, origin: &Origin) -> Result<HostText, Answer>
    ensures { Gives result (spec.serialized origin.now) }
{
    match origin_text(alloc, origin) {
        Ok(text) => Ok(text),
        Err(_) => Err(Answer::NoMemory),
    }
}

fn origin_said(alloc: Global, url: &[u8]) -> Result<HostText, Answer>
    ensures { Gives result (spec.origin_text_told url.now) }
{
    match origin_of(alloc, url, 0) {
        Ok(origin) => text_of_origin(alloc, &origin),
        Err(why) => Err(why),
    }
}

/// The serialization of the origin of a URL (HTML Standard, 7.1.1): `https://a.test:8443`, and `null` for `about:blank`.
pub fn origin_text_of(alloc: Global, url: &[u8], out: &mut [u8], len: &mut usize) -> Answer
    ensures { Tells (spec.origin_text_told url.now) out.old out.new len.new result }
{
    tell(out, len, origin_said(alloc, url))
}

// The site of the URL that bytes are.
fn site_said(alloc: Global, url: &[u8], suffixes: &[HostText], opaque: u32) -> Result<Site, Answer>
    ensures { Gives result (spec.site_told opaque url.now suffixes.now) }
{
    match origin_of(alloc, url, opaque) {
        Ok(origin) => match site_of(alloc, &origin, suffixes) {
            Ok(site) => Ok(site),
            Err(_) => Err(Answer::NoMemory),
        },
        Err(why) => Err(why),
    }
}

// The serialization of a site.
fn text_of_site(alloc: Global, site: &Site) -> Result<HostText, Answer>
    ensures { Gives result (spec.serialized_site site.now) }
{
    match site {
        Site::Named(scheme, host) => {
            let (scheme, host) = (scheme.as_str(), host.as_str());
            match format!(in alloc; "{scheme}://{host}") {
                Ok(text) => match HostText::copy_of(alloc, text.as_str()) {
                    Ok(text) => Ok(text),
                    Err(_) => Err(Answer::NoMemory),
                },
                Err(_) => Err(Answer::NoMemory),
            }
        }
        Site::Opaque(_) => match HostText::copy_of(alloc, "null") {
            Ok(text) => Ok(text),
            Err(_) => Err(Answer::NoMemory),
        },
    }
}

fn site_text_said(alloc: Global, url: &[u8], suffixes: &[u8]) -> Result<HostText, Answer>
    ensures { Gives result (spec.site_text_told url.now suffixes.now) }
{
    match suffixes_of(alloc, suffixes) {
        Ok(suffixes) => match site_said(alloc, url, &suffixes, 0) {
            Ok(site) => text_of_site(alloc, &site),
            Err(why) => Err(why),
        },
        Err(why) => Err(why),
    }
}

/// The serialization of the site of a URL's origin, by a list of public suffixes (HTML Standard, 7.1.1.1).
pub fn site_text_of(
    alloc: Global,
    url: &[u8],
    suffixes: &[u8],
    out: &mut [u8],
    len: &mut usize,
) -> Answer
    ensures { Tells (spec.site_text_told url.now suffixes.now) out.old out.new len.new result }
{
    tell(out, len, site_text_said(alloc, url, suffixes))
}

// Whether the origins of two URLs are the same.
fn are_same_origin(alloc: Global, a: &[u8], b: &[u8]) -> Result<bool, Answer>
    ensures { Gives result (spec.same_origin_told a.now b.now) }
{
    match origin_of(alloc, a, 0) {
        Ok(a) => match origin_of(alloc, b, 1) {
            Ok(b) => Ok(same_origin(&a, &b)),
            Err(why) => Err(why),
        },
        Err(why) => Err(why),
    }
}

// The same of two URLs, by the public suffixes.
fn have_same_site(alloc: Global, a: &[u8], b: &[u8], suffixes: &[HostText]) -> Result<bool, Answer>
    ensures { GivesBy spec.TellsSame result (spec.sites_by suffixes.now a.now b.now) }
{
    match site_said(alloc, a, suffixes, 0) {
        Ok(a) => match site_said(alloc, b, suffixes, 1) {
            Ok(b) => Ok(same_site(&a, &b)),
            Err(why) => Err(why),
        },
        Err(why) => Err(why),
    }
}

// Whether the sites of two URLs' origins are the same.
fn are_same_site(alloc: Global, a: &[u8], b: &[u8], suffixes: &[u8]) -> Result<bool, Answer>
    ensures { GivesBy spec.TellsSame result (spec.sites_told a.now b.now suffixes.now) }
{
    match suffixes_of(alloc, suffixes) {
        Ok(suffixes) => have_same_site(alloc, a, b, &suffixes),
        Err(why) => Err(why),
    }
}

/// Whether the origins of two URLs are the same (HTML Standard, 7.1.1). Those of `about:blank` are opaque: each is the same
/// as no other.
pub fn tell_same_origin(alloc: Global, a: &[u8], b: &[u8], same: &mut bool) -> Answer
    ensures { Sets (spec.same_origin_told a.now b.now) same.old same.new result }
{
    match are_same_origin(alloc, a, b) {
        Ok(told) => {
            *same = told;
            Answer::Done
        }
        Err(why) => why,
    }
}

/// Whether the sites of two URLs' origins are the same, by a list of public suffixes (HTML Standard, 7.1.1.1).
pub fn tell_same_site(alloc: Global, a: &[u8], b: &[u8], suffixes: &[u8], same: &mut bool) -> Answer
    ensures { SetsBy spec.TellsSame (spec.sites_told a.now b.now suffixes.now) same.old same.new result }
{
    match are_same_site(alloc, a, b, suffixes) {
        Ok(told) => {
            *same = told;
            Answer::Done
        }
        Err(why) => why,
    }
}
