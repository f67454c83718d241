//! Sites of origins, by a list of public suffixes (HTML Standard, section 7.1.1.1).

ghost use Rattle.std.specs.Prelude.{◌≡◌, ◌↔◌, ◌<◌, length, IsTrue, IfOk, IfSome, option_copied};
ghost use Rattle.origin_core.specs.Site as spec;
ghost use Rattle.origin_core.specs.Site.{StartsLabel};

use crate::host::HostText;
use crate::origin::{Origin, Scheme, TupleOrigin};
use std::alloc::{AllocError, Global};

/// The site of an origin: documents of one site and group share a home.
#[derive(Debug, PartialEq, Eq, Drop)]
pub enum Site {
    /// A scheme, and a registrable domain or a host.
    Named(Scheme, HostText),
    Opaque(u32),
}

impl Clone for Site {
    ghost is_clone = { λ site copy. copy ≡ site };

    fn clone(&self) -> Result<Site, AllocError> {
        match self {
            Site::Named(scheme, host) => Ok(Site::Named(*scheme, host.clone()?)),
            Site::Opaque(doc) => Ok(Site::Opaque(*doc)),
        }
    }
}

/// Whether two sites are the same.
pub fn same_site(a: &Site, b: &Site) -> bool
    ensures { IsTrue result ↔ (a.now ≡ b.now) }
{
    a == b
}

/// The site of an origin, by a list of public suffixes: its scheme with the registrable domain of
/// its host, or with the host where there is none.
pub fn site_of(alloc: Global, origin: &Origin, suffixes: &[HostText]) -> Result<Site, AllocError>
    ensures { IfOk result (λ site. site ≡ spec.site_of origin.now suffixes.now) }
{
    match origin {
        Origin::Opaque(doc) => Ok(Site::Opaque(*doc)),
        Origin::Tuple(tuple) => {
            let host = HostText::copy_of(alloc, site_host(tuple, suffixes))?;
            Ok(Site::Named(tuple.scheme, host))
        }
    }
}

fn site_host<'a>(tuple: &'a TupleOrigin, suffixes: &[HostText]) -> &'a str
    ensures { result.now ≡ spec.site_host tuple.now.host tuple.now.ip suffixes.now }
{
    let host = tuple.host.as_str();
    match registrable_domain(host, tuple.ip, suffixes) {
        Some(domain) => domain,
        None => host,
    }
}

/// The registrable domain of a host: the longest listed suffix that it has, or its last label,
/// with one label before it. An IP address (`ip`), a host that ends in a dot and a host that is a
/// suffix itself have none. It takes no memory.
pub fn registrable_domain<'a>(host: &'a str, ip: bool, suffixes: &[HostText]) -> Option<&'a str>
    ensures { option_copied result ≡ spec.registrable_domain host.now ip suffixes.now }
{
    match registrable_start(host.as_bytes(), ip, suffixes) {
        Some(start) => Some(&host[start..]),
        None => None,
    }
}

fn registrable_start(host: &[u8], ip: bool, suffixes: &[HostText]) -> Option<usize>
    ensures value { result ≡ spec.registrable_start host.now ip suffixes.now }
    ensures cut { IfSome result (StartsLabel host.now) }
{
    let suffix = public_suffix_len(host, suffixes);
    if ip || matches!(host, [.., b'.']) || suffix >= host.len() {
        return None;
    }
    Some(label_start(host, suffix))
}

fn label_start(host: &[u8], suffix: usize) -> usize
    requires { suffix < length host.now }
    ensures value { result ≡ spec.label_start host.now suffix }
    ensures cut { StartsLabel host.now result }
{
    let front = &host[..host.len() - suffix - 1];
    front.len() - last_label_len(front)
}

/// Whether a document whose effective domain is `effective` may have `value` as its domain (HTML
/// Standard, section 7.1.1.2): the value is that domain, or stands below a dot in it and has its
/// registrable domain. `ip` tells of the document's host. It takes no memory.
pub fn fits(value: &str, effective: &HostText, ip: bool, suffixes: &[HostText]) -> bool
    ensures { result ≡ spec.fits value.now effective.now ip suffixes.now }
{
    let effective = effective.as_str();
    value == effective
        || (has_suffix(effective.as_bytes(), value.as_bytes())
            && is_value_below(value, registrable_domain(effective, ip, suffixes)))
}

fn is_value_below(value: &str, domain: Option<&str>) -> bool
    ensures { result ≡ spec.is_value_below value.now (option_copied domain.entry) }
{
    match domain {
        Some(domain) => has_suffix(value.as_bytes(), domain.as_bytes()),
        None => false,
    }
}

fn public_suffix_len(host: &[u8], suffixes: &[HostText]) -> usize
    ensures { result ≡ spec.public_suffix_len host.now suffixes.now }
{
    let listed = suffixes.iter().fold(
        0,
        |len, suffix| longer(host, len, suffix.as_str().as_bytes()),
    );
    if listed == 0 {
        last_label_len(host)
    } else {
        listed
    }
}

fn longer(host: &[u8], len: usize, suffix: &[u8]) -> usize
    ensures { result ≡ spec.longer host.now len suffix.now }
{
    if has_suffix(host, suffix) && len < suffix.len() {
        suffix.len()
    } else {
        len
    }
}

fn has_suffix(host: &[u8], suffix: &[u8]) -> bool
    ensures { result ≡ spec.has_suffix host.now suffix.now }
{
    host.ends_with(suffix)
        && (host.len() == suffix.len() || host[host.len() - suffix.len() - 1] == b'.')
}

fn last_label_len(host: &[u8]) -> usize
    ensures { result ≡ spec.last_label_len host.now }
{
    host.iter().rev().take_while(|&&b| b != b'.').count()
}
