ghost use Rattle.std.specs.Prelude.{◌≡◌, ◌<◌, All, length};
ghost use Rattle.tree_view.specs.Closed.{NavClosed, DocClosed, ParentsFirst, ShowTheirOwn};
ghost use Rattle.tree_view.specs.Rows.{numbers_of, is_loaded};

use origin_core::{Flags, HostText, Origin, PageUrl};
use plain_data::Text;
use std::alloc::Global;

/// How a navigable was made.
#[derive(Drop)]
pub struct MadeRow {
    pub(crate) embedder: Option<u32>,
    pub(crate) group: Option<u32>,
    pub(crate) flags: Flags,
    pub(crate) navigator: Option<u32>,
    pub(crate) scripted: bool,
}

/// A navigable.
#[derive(Drop)]
pub struct NavRow {
    pub(crate) made: MadeRow,
    pub(crate) active: u32,
    pub(crate) dropped: bool,
    pub(crate) gone: bool,
    pub(crate) closing: bool,
    pub(crate) name: Text,
    pub(crate) opener: Option<u32>,
    pub(crate) last_load: Option<u32>,
}

/// A document.
#[derive(Drop)]
pub struct DocRow {
    pub(crate) nav: u32,
    pub(crate) origin: Origin,
    pub(crate) home: u16,
    pub(crate) loaded: bool,
    pub(crate) been_active: bool,
    pub(crate) url: PageUrl,
    pub(crate) domain: Option<HostText>,
}

/// A new navigable, with its initial document and the one that it loads.
#[derive(Drop)]
pub struct NewRows {
    pub(crate) row: NavRow,
    pub(crate) initial: DocRow,
    pub(crate) loaded: Option<DocRow>,
}

/// The plain view: a row for each navigable and each document, in the order of their numbers.
///
/// The documents that were loaded are listed beside the rows. A read of one row takes one look. What depends on the navigables above takes a step for each of them, and the
/// children of a document are looked for among all navigables.
#[derive(Drop)]
pub struct PlainView {
    pub(crate) alloc: Global,
    pub(crate) navs: Vec<NavRow>,
    pub(crate) docs: Vec<DocRow>,
    pub(crate) loads: Vec<u32>,
    pub(crate) groups: u32,
    pub(crate) len: u32,
    ghost few_navs: { length navs.items < 4294967296 },
    ghost few_docs: { length docs.items < 4294967296 },
    ghost navs_closed: { All (NavClosed (length navs.items) (length docs.items)) navs.items },
    ghost docs_closed: { All (DocClosed (length navs.items)) docs.items },
    ghost parents_first: { ParentsFirst navs.items docs.items },
    ghost show_their_own: { ShowTheirOwn navs.items docs.items },
    ghost loads_listed: { loads.items ≡ numbers_of is_loaded 0 docs.items },
}
