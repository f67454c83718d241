//! Origins, and when two of them are the same (HTML Standard, section 7.1.1).

ghost use Rattle.std.specs.Prelude.{◌≡◌, ◌↔◌, ◌++◌, codes, IsTrue, Some, IfOk, option_copied};
ghost use Rattle.origin_core.specs.Origin as spec;
ghost use Rattle.origin_core.specs.Origin.{is_same_origin, is_same_tuple, is_same_origin_domain, origin_words, IsOrigin};
ghost use Rattle.origin_core.specs.Tuple as parts;
ghost use Rattle.origin_core.specs.Tuple.{IsTuple, scheme_text, is_own_port, tuple_text, within_limit};
ghost use Rattle.origin_core.specs.Host.{IsHost};
ghost use Rattle.url.specs.Parts.{IsPortOf};

use crate::host::HostText;
use std::alloc::{AllocError, Global};
use std::fmt;
use std::marker::Model;

/// The scheme of a web page.
#[derive(Clone, Copy, Debug, PartialEq, Eq)]
pub enum Scheme {
    Http,
    Https,
}

impl Scheme {
    /// `http` or `https`.
    pub fn as_str(self) -> &'static str
        ensures { result.now ≡ scheme_text self }
    {
        match self {
            Scheme::Http => "http",
            Scheme::Https => "https",
        }
    }

    /// 80 or 443 (URL Standard, section 4.2).
    pub fn default_port(self) -> u16
        ensures { result ≡ parts.default_port self }
    {
        match self {
            Scheme::Http => 80,
            Scheme::Https => 443,
        }
    }

    /// Whether a URL of this scheme can have the port: none, or another than the default one.
    pub fn is_own_port(self, port: Option<u16>) -> bool
        ensures value { result ≡ is_own_port self port }
        ensures standard { IsTrue result ↔ IsPortOf (scheme_text self) port }
    {
        match port {
            Some(port) => is_not_default(self, port),
            None => true,
        }
    }
}

fn is_not_default(scheme: Scheme, port: u16) -> bool
    ensures value { result ≡ is_own_port scheme (Some port) }
    ensures standard { IsTrue result ↔ IsPortOf (scheme_text scheme) (Some port) }
{
    port != scheme.default_port()
}

impl fmt::Display for Scheme {
    ghost output = { λ scheme. Some (scheme_text scheme) };

    fn fmt<W: fmt::Write>(&self, f: &mut fmt::Formatter<W>) -> fmt::Result {
        f.write_str(self.as_str())
    }
}

/// The origin of an http or https URL: a host that such a URL has, with no default port, whose
/// serialization has at most 1,024 bytes. Its domain is no part of it.
#[derive(Debug, Drop)]
pub struct TupleOrigin {
    pub scheme: Scheme,
    /// The host as a URL writes it; an IPv6 address has its brackets.
    pub host: HostText,
    /// Whether the host is an IP address.
    pub ip: bool,
    /// The port, absent where it is the scheme's default one.
    pub port: Option<u16>,
}

impl Model for TupleOrigin {
    ghost use Rattle.origin_core.specs.Tuple.{TupleParts};

    ghost Value = { TupleParts };

    ghost use Rattle.origin_core.specs.Tuple.{tuple_view, IsTupleInside};

    ghost view = { tuple_view };

    ghost invariant = { IsTupleInside };
}

impl TupleOrigin {
    /// The origin of these parts, or `None` where its serialization is over 1,024 bytes.
    pub fn of_parts(
        alloc: Global,
        scheme: Scheme,
        host: HostText,
        ip: bool,
        port: Option<u16>,
    ) -> Result<Option<TupleOrigin>, AllocError>
        requires host { IsHost host ip }
        requires port { IsPortOf (scheme_text scheme) port }
        ensures { IfOk result (λ tuple. tuple ≡ within_limit (record { scheme = scheme; host = host; ip = ip; port = port })) }
    {
        if text_of_parts(alloc, scheme, host.as_str(), port)?
            .as_str()
            .len()
            > 1024
        {
            return Ok(None);
        }
        Ok(Some(TupleOrigin {
            scheme,
            host,
            ip,
            port,
        }))
    }

    /// The host's text.
    pub fn host(&self) -> &str
        ensures value { result.now ≡ self.now.host }
        ensures tuple { IsTuple self.now }
    {
        self.host.as_str()
    }
}

impl Clone for TupleOrigin {
    ghost is_clone = { λ origin copy. copy ≡ origin };

    fn clone(&self) -> Result<TupleOrigin, AllocError> {
        Ok(TupleOrigin {
            scheme: self.scheme,
            host: self.host.clone()?,
            ip: self.ip,
            port: self.port,
        })
    }
}

impl fmt::Display for TupleOrigin {
    ghost output = { λ tuple. Some (tuple_text tuple) };

    fn fmt<W: fmt::Write>(&self, f: &mut fmt::Formatter<W>) -> fmt::Result {
        let scheme = self.scheme.as_str();
        let host = self.host.as_str();
        match self.port {
            None => write!(f, "{scheme}://{host}"),
            Some(port) => write!(f, "{scheme}://{host}:{port}"),
        }
    }
}

/// The origin of a document.
#[derive(Debug, Drop)]
pub enum Origin {
    Tuple(TupleOrigin),
    /// The number of the document for which the origin was made.
    Opaque(u32),
}

impl Origin {
    /// Tells a caller's proof that the origin is in range.
    pub fn know(&self)
        ensures { IsOrigin self.now }
    {
        match self {
            Origin::Tuple(tuple) => {
                let _host = tuple.host();
            }
            Origin::Opaque(_) => {}
        }
    }
}

impl Clone for Origin {
    ghost is_clone = { λ origin copy. copy ≡ origin };

    fn clone(&self) -> Result<Origin, AllocError> {
        match self {
            Origin::Tuple(tuple) => Ok(Origin::Tuple(tuple.clone()?)),
            Origin::Opaque(doc) => Ok(Origin::Opaque(*doc)),
        }
    }
}

/// The origin as logs print it: its serialization, and `opaque:3` for the opaque origin of
/// document 3.
impl fmt::Display for Origin {
    ghost output = { λ origin. Some (origin_words origin) };

    fn fmt<W: fmt::Write>(&self, f: &mut fmt::Formatter<W>) -> fmt::Result {
        match self {
            Origin::Tuple(tuple) => write!(f, "{tuple}"),
            Origin::Opaque(doc) => write!(f, "opaque:{doc}"),
        }
    }
}

/// Whether two origins are the same ("same origin"). It takes no memory.
pub fn same_origin(a: &Origin, b: &Origin) -> bool
    ensures value { result ≡ is_same_origin a.now b.now }
    ensures same { IsTrue result ↔ (a.now ≡ b.now) }
{
    has_same_parts(a, b)
}

fn has_same_parts(a: &Origin, b: &Origin) -> bool
    ensures { result ≡ is_same_origin a.now b.now }
{
    match (a, b) {
        (Origin::Tuple(a), Origin::Tuple(b)) => is_same_tuple(a, b),
        _ => is_same_opaque(a, b),
    }
}

fn is_same_tuple(a: &TupleOrigin, b: &TupleOrigin) -> bool
    ensures { result ≡ is_same_tuple a.now b.now }
{
    a.scheme == b.scheme && a.host == b.host && a.ip == b.ip && a.port == b.port
}

/// Whether two documents with these origins, and the domains that they have set, may reach each other ("same
/// origin-domain"). It takes no memory.
pub fn same_origin_domain(
    a: &Origin,
    a_domain: Option<&HostText>,
    b: &Origin,
    b_domain: Option<&HostText>,
) -> bool
    ensures { result ≡ is_same_origin_domain a.now (option_copied a_domain.entry) b.now (option_copied b_domain.entry) }
{
    match (a_domain, b_domain) {
        (None, None) => same_origin(a, b),
        (Some(c), Some(d)) => has_same_domain(a, c, b, d),
        _ => is_same_opaque(a, b),
    }
}

fn has_same_domain(a: &Origin, c: &HostText, b: &Origin, d: &HostText) -> bool
    ensures { result ≡ spec.has_same_domain a.now c.now b.now d.now }
{
    match (a, b) {
        (Origin::Tuple(a), Origin::Tuple(b)) => a.scheme == b.scheme && c == d,
        _ => is_same_opaque(a, b),
    }
}

fn is_same_opaque(a: &Origin, b: &Origin) -> bool
    ensures { result ≡ spec.is_same_opaque a.now b.now }
{
    match (a, b) {
        (Origin::Opaque(a), Origin::Opaque(b)) => a == b,
        _ => false,
    }
}

/// The serialization of an origin (HTML Standard, section 7.1.1): `https://a.test:8443`, and
/// `null` for an opaque one.
pub fn origin_text(alloc: Global, origin: &Origin) -> Result<HostText, AllocError>
    ensures { IfOk result (λ text. text ≡ spec.origin_text origin.now) }
{
    match origin {
        Origin::Opaque(_) => HostText::copy_of(alloc, "null"),
        Origin::Tuple(tuple) => tuple_text(alloc, tuple),
    }
}

pub(crate) fn tuple_text(alloc: Global, tuple: &TupleOrigin) -> Result<HostText, AllocError>
    ensures { IfOk result (λ text. text ≡ tuple_text tuple.now) }
{
    text_of_parts(alloc, tuple.scheme, tuple.host.as_str(), tuple.port)
}

pub(crate) fn text_of_parts(
    alloc: Global,
    scheme: Scheme,
    host: &str,
    port: Option<u16>,
) -> Result<HostText, AllocError>
    ensures { IfOk result (λ text. text ≡ scheme_text scheme ++ codes "://" ++ host.now ++ parts.port_text port) }
{
    let scheme = scheme.as_str();
    match port {
        None => Ok(HostText::of(format!(in alloc; "{scheme}://{host}")?)),
        Some(port) => Ok(HostText::of(format!(in alloc; "{scheme}://{host}:{port}")?)),
    }
}
