//! Hosts, as origins and sites write them (URL Standard, section 3).

ghost use Rattle.std.specs.Prelude.{◌≡◌, Bool, Some, IfOk, IfSome, string_bytes, bytes_eq};
ghost use Rattle.std.specs.Cmp.{partial_equiv_from_equiv};
ghost use Rattle.std.specs.Cmp.Lexicographic.{nat_list_eq_equiv};
ghost use Rattle.origin_core.specs.Host as spec;
ghost use Rattle.origin_core.specs.Host.{IsHost};

use crate::of_url::{has_address, host_of};
use crate::page::is_web;
use std::alloc::{AllocError, Global};
use std::marker::Model;
use url::{ParseError, Url};

/// A host, a domain, or another text of an origin.
#[derive(Debug, Drop)]
pub struct HostText {
    text: String,
}

impl Model for HostText {
    ghost use Rattle.std.specs.Prelude.{ℕ, List, string_bytes};
    ghost use Rattle.std.specs.Coded.{coded_ℕ, coded_list};

    ghost Value = { List ℕ };

    ghost coded = { coded_list coded_ℕ };

    ghost view = { λ h. string_bytes h.text };
}

impl HostText {
    pub(crate) fn of(text: String) -> HostText
        ensures { result ≡ string_bytes text }
    {
        HostText { text }
    }

    /// A copy of the text.
    pub fn copy_of(alloc: Global, text: &str) -> Result<HostText, AllocError>
        ensures { IfOk result (λ copy. copy ≡ text.now) }
    {
        Ok(HostText {
            text: String::from_str(alloc, text)?,
        })
    }

    /// The text. It takes no memory.
    pub fn as_str(&self) -> &str
        ensures { result.now ≡ self.now }
    {
        self.text.as_str()
    }
}

impl Clone for HostText {
    ghost is_clone = { λ host copy. copy ≡ host };

    fn clone(&self) -> Result<HostText, AllocError> {
        Ok(HostText {
            text: self.text.clone()?,
        })
    }
}

impl PartialEq for HostText {
    ghost eq = { λ a b. bytes_eq a b };

    ghost laws = { partial_equiv_from_equiv nat_list_eq_equiv };

    fn eq(&self, other: &HostText) -> bool {
        self.as_str() == other.as_str()
    }
}

impl Eq for HostText {
    ghost laws = { nat_list_eq_equiv };
}

/// Whether a text is the host of some http or https URL, and then whether it is an IP address.
/// `None` where no such URL has the text as its host, as `A.test`, `127.1` and `a:80`.
pub fn host_kind(alloc: Global, text: &str) -> Result<Option<bool>, AllocError>
    ensures value { IfOk result (λ kind. kind ≡ spec.host_kind text.now) }
    ensures host { IfOk result (λ kind. IfSome kind (IsHost text.now)) }
    ensures every_host { IfOk result (λ kind. (ip : Bool) → IsHost text.now ip → kind ≡ Some ip) }
{
    root_host(alloc, text)
}

fn root_host(alloc: Global, text: &str) -> Result<Option<bool>, AllocError>
    ensures value { IfOk result (λ kind. kind ≡ spec.host_kind text.now) }
    ensures host { IfOk result (λ kind. IfSome kind (IsHost text.now)) }
{
    let url_text = format!(in alloc; "https://{text}/")?;
    match Url::parse(alloc, url_text.as_str()) {
        Ok(url) => Ok(spelled_host(&url, text)),
        Err(ParseError::OutOfMemory | ParseError::Overflow) => Err(AllocError),
        Err(_) => Ok(None),
    }
}

fn spelled_host(url: &Url, text: &str) -> Option<bool>
    ensures value { result ≡ spec.spelled_host text.now url.now }
    ensures host { IfSome result (IsHost text.now) }
{
    if is_web(url) && host_of(url) == text {
        Some(has_address(url))
    } else {
        None
    }
}
