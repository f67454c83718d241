use crate::parts::{cut, shown, text_of, truth};
use crate::urls;
use crate::urls::origin_named;
use origin_core::{
    Flags, HostText, Origin, Scheme, Site, TupleOrigin, blank_url, fits, flags_of, frame_origin,
    host_kind, loaded_origin, read_url, registrable_domain, same_origin, same_origin_domain,
    same_site, site_of, window_origin,
};
use std::alloc::{AllocError, Global};

/// The answer to a row: a word, and what it asks about.
pub fn answer(alloc: Global, row: &str) -> Result<String, AllocError> {
    let (word, given) = cut(row);
    match word {
        "read" => urls::read(alloc, given),
        "parts" => urls::take_apart(alloc, given),
        "same but fragment" => urls::compare(alloc, given),
        "spelled" => urls::spelled(alloc, given),
        "target" => urls::target(alloc, given),
        "origin" => urls::origin(alloc, given),
        "same origin" => same(alloc, given),
        "loaded" | "frame" | "window" => new_document(alloc, word, given),
        "site" => site(alloc, given),
        "same site" => sites(alloc, given),
        "domain" => domain(alloc, given),
        "flags" => flags(alloc, given),
        "host" => host(alloc, given),
        "own port" => own_port(alloc, given),
        "tuple" => tuple(alloc, given),
        _ => String::from_str(alloc, "no such question"),
    }
}

// Two origins, and the domain of each, or nothing: whether they are the same, and whether they are same origin-domain.
fn same(alloc: Global, given: &str) -> Result<String, AllocError> {
    let (first, rest) = cut(given);
    let (second, domains) = cut(rest);
    let (a_domain, b_domain) = cut(domains);
    let a_domain = domain_named(alloc, a_domain)?;
    let b_domain = domain_named(alloc, b_domain)?;
    match (origin_named(alloc, first)?, origin_named(alloc, second)?) {
        (Some(a), Some(b)) => format!(in alloc;
            "{}|{}",
            same_origin(&a, &b),
            same_origin_domain(&a, a_domain.as_ref(), &b, b_domain.as_ref())
        ),
        _ => String::from_str(alloc, "none"),
    }
}

// The domain that a document has set; where a row has nothing, it has set none.
fn domain_named(alloc: Global, part: &str) -> Result<Option<HostText>, AllocError> {
    if part.is_empty() {
        return Ok(None);
    }
    Ok(Some(HostText::copy_of(alloc, part)?))
}

// Whether a new document 7 is sandboxed, the origin of the one that made it, and the URL that was loaded.
fn new_document(alloc: Global, word: &str, given: &str) -> Result<String, AllocError> {
    let (sandboxed, rest) = cut(given);
    let (maker, url) = cut(rest);
    let sandboxed = sandboxed == "sandboxed";
    let Some(maker) = origin_named(alloc, maker)? else {
        return String::from_str(alloc, "none");
    };
    let origin = match (word, read_url(alloc, url, None)) {
        ("frame", _) => frame_origin(sandboxed, 7, &maker)?,
        ("window", _) => window_origin(sandboxed, 7, &maker)?,
        (_, Ok(url)) => loaded_origin(alloc, sandboxed, 7, &maker, &url)?,
        (_, Err(_)) => return String::from_str(alloc, "not a URL"),
    };
    format!(in alloc; "{origin}")
}

// The public suffixes that a row lists, with a space between two.
fn suffixes(alloc: Global, listed: &str) -> Result<Vec<HostText>, AllocError> {
    let mut suffixes = Vec::new(alloc);
    for suffix in listed.split(' ') {
        if !suffix.is_empty() {
            suffixes.push(HostText::copy_of(alloc, suffix)?)?;
        }
    }
    Ok(suffixes)
}

// An origin, and the suffixes: its site, and its registrable domain.
fn site(alloc: Global, given: &str) -> Result<String, AllocError> {
    let (name, listed) = cut(given);
    let suffixes = suffixes(alloc, listed)?;
    let Some(origin) = origin_named(alloc, name)? else {
        return String::from_str(alloc, "none");
    };
    let site = site_of(alloc, &origin, &suffixes)?;
    match (&site.clone()?, &origin) {
        (Site::Named(scheme, host), Origin::Tuple(tuple)) => format!(in alloc;
            "{scheme}://{}|{}",
            host.as_str(),
            registrable_domain(tuple.host(), tuple.ip, &suffixes).unwrap_or("none")
        ),
        (Site::Opaque(doc), _) => format!(in alloc; "opaque:{}", *doc),
        _ => String::from_str(alloc, "none"),
    }
}

// Two origins, and the suffixes: whether they are of one site.
fn sites(alloc: Global, given: &str) -> Result<String, AllocError> {
    let (first, rest) = cut(given);
    let (second, listed) = cut(rest);
    let suffixes = suffixes(alloc, listed)?;
    match (origin_named(alloc, first)?, origin_named(alloc, second)?) {
        (Some(a), Some(b)) => truth(
            alloc,
            same_site(
                &site_of(alloc, &a, &suffixes)?,
                &site_of(alloc, &b, &suffixes)?,
            ),
        ),
        _ => String::from_str(alloc, "none"),
    }
}

// A domain for a document, its effective domain, `address` or `name`, and the suffixes: whether it may have it.
fn domain(alloc: Global, given: &str) -> Result<String, AllocError> {
    let (value, rest) = cut(given);
    let (effective, rest) = cut(rest);
    let (kind, listed) = cut(rest);
    let effective = HostText::copy_of(alloc, effective)?;
    let suffixes = suffixes(alloc, listed)?;
    truth(alloc, fits(value, &effective, kind == "address", &suffixes))
}

// A sandbox attribute, and bits or nothing: the flags of both, and their bits.
fn flags(alloc: Global, given: &str) -> Result<String, AllocError> {
    let (text, bits) = cut(given);
    let text = text_of(alloc, text)?;
    let more = match bits.parse::<u8>() {
        Ok(bits) => Flags::from_bits(u16::from(bits)),
        Err(_) => Flags::NONE,
    };
    let flags = if text.as_str() == "none" {
        more
    } else {
        flags_of(text.as_str()).union(more)
    };
    format!(in alloc; "{flags}|{}", flags.bits())
}

// A text: whether it is the host of a web URL, and then which.
fn host(alloc: Global, text: &str) -> Result<String, AllocError> {
    String::from_str(
        alloc,
        match host_kind(alloc, text)? {
            Some(true) => "address",
            Some(false) => "name",
            None => "none",
        },
    )
}

fn scheme_named(name: &str) -> Scheme {
    if name == "http" {
        Scheme::Http
    } else {
        Scheme::Https
    }
}

// A scheme, and a port or nothing: whether an origin writes it so.
fn own_port(alloc: Global, given: &str) -> Result<String, AllocError> {
    let (scheme, port) = cut(given);
    truth(alloc, scheme_named(scheme).is_own_port(port.parse().ok()))
}

// The https origin of a host and a port or nothing, and the URL that stands for it.
fn tuple(alloc: Global, given: &str) -> Result<String, AllocError> {
    let (host, port) = cut(given);
    let host = HostText::copy_of(alloc, text_of(alloc, host)?.as_str())?;
    let port = port.parse::<u16>().ok();
    let tuple = match host_kind(alloc, host.as_str())? {
        Some(ip) if Scheme::Https.is_own_port(port) => {
            TupleOrigin::of_parts(alloc, Scheme::Https, host, ip, port)?
        }
        _ => None,
    };
    let Some(tuple) = tuple else {
        return String::from_str(alloc, "none");
    };
    let text = format!(in alloc; "{tuple}")?;
    let blank = blank_url(alloc, &Origin::Tuple(tuple))?;
    let text = shown(alloc, text.as_str())?;
    format!(in alloc; "{}|{}", text.as_str(), blank.as_str())
}
