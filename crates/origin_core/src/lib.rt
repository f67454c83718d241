//! Origins, sites, page URLs and sandbox flags of the HTML Standard.
//!
//! A page has a URL ([`PageUrl`]), a document has an [`Origin`], and documents are kept apart by
//! the [`Site`] of their origins, by a list of public suffixes. What a sandboxed frame may not do
//! is a set of [`Flags`]. URLs are read with the crate `url` and by nothing else.
//!
//! Every call equals a definition of `specs/`, in the Standard's terms, over plain texts, numbers
//! and tuples. What takes no memory can't answer want of it.
#![tactic(auto)]

mod documents;
mod flags;
mod host;
pub mod laws;
mod of_url;
mod origin;
mod page;
mod site;

pub use crate::documents::{frame_origin, loaded_origin, window_origin};
pub use crate::flags::{Flags, flags_of};
pub use crate::host::{HostText, host_kind};
pub use crate::of_url::{blank_url, read_origin, url_origin};
pub use crate::origin::{
    Origin, Scheme, TupleOrigin, origin_text, same_origin, same_origin_domain,
};
pub use crate::page::{PageUrl, UrlError, page_spelled, read_url, same_but_fragment};
pub use crate::site::{Site, fits, registrable_domain, same_site, site_of};
