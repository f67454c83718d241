use crate::parts::{cut, shown, text_of, truth};
use origin_core::{
    Origin, PageUrl, UrlError, blank_url, origin_text, page_spelled, read_origin, read_url,
    same_but_fragment, url_origin,
};
use std::alloc::{AllocError, Global};

/// A base, or nothing, and a text.
pub fn read(alloc: Global, given: &str) -> Result<String, AllocError> {
    let (base, text) = cut(given);
    let text = text_of(alloc, text)?;
    if base.is_empty() {
        return page_or_error(alloc, read_url(alloc, text.as_str(), None));
    }
    match read_url(alloc, base, None) {
        Ok(page) => page_or_error(alloc, read_url(alloc, text.as_str(), Some(&page))),
        Err(error) => format!(in alloc; "base: {error}"),
    }
}

fn page_or_error(alloc: Global, page: Result<PageUrl, UrlError>) -> Result<String, AllocError> {
    match page {
        Ok(url) => shown(alloc, url.as_str()),
        Err(error) => format!(in alloc; "{error}"),
    }
}

/// A page's URL: without its fragment, its fragment, and whether it is a web page's.
pub fn take_apart(alloc: Global, text: &str) -> Result<String, AllocError> {
    match read_url(alloc, text, None) {
        Ok(url) => format!(in alloc;
            "{}|{}|{}",
            url.without_fragment(),
            url.fragment().unwrap_or("none"),
            url.is_web()
        ),
        Err(error) => format!(in alloc; "{error}"),
    }
}

/// Two pages' URLs: whether they differ in their fragments at most.
pub fn compare(alloc: Global, given: &str) -> Result<String, AllocError> {
    let (first, second) = cut(given);
    match (read_url(alloc, first, None), read_url(alloc, second, None)) {
        (Ok(a), Ok(b)) => truth(alloc, same_but_fragment(&a, &b)),
        _ => String::from_str(alloc, "not a URL"),
    }
}

/// Whether a text is a page's URL just as it is spelled.
pub fn spelled(alloc: Global, text: &str) -> Result<String, AllocError> {
    truth(alloc, page_spelled(alloc, text)?.is_some())
}

/// The origin of a URL, or of any text that is one, as `blob:` URLs are.
pub fn target(alloc: Global, text: &str) -> Result<String, AllocError> {
    let text = text_of(alloc, text)?;
    match read_origin(alloc, text.as_str()) {
        Ok(Some(origin)) => shown(alloc, origin_text(alloc, &origin)?.as_str()),
        Ok(None) => String::from_str(alloc, "no web origin"),
        Err(error) => format!(in alloc; "{error}"),
    }
}

/// The origin that a row names: `opaque:3`, or that of a page's URL; `None` for `about:blank` and for no URL.
pub fn origin_named(alloc: Global, name: &str) -> Result<Option<Origin>, AllocError> {
    if let Some(doc) = name.strip_prefix("opaque:") {
        return Ok(Some(Origin::Opaque(doc.parse().unwrap_or(0))));
    }
    match read_url(alloc, name, None) {
        Ok(url) => url_origin(alloc, &url),
        Err(_) => Ok(None),
    }
}

/// An origin: its serialization, its text in records, and the URL that stands for it.
pub fn origin(alloc: Global, name: &str) -> Result<String, AllocError> {
    let Some(origin) = origin_named(alloc, name)? else {
        return String::from_str(alloc, "none");
    };
    let serialized = origin_text(alloc, &origin)?;
    let blank = blank_url(alloc, &origin)?;
    format!(in alloc; "{}|{origin}|{}", serialized.as_str(), blank.as_str())
}
