// The rows of a new navigable.
ghost use Rattle.std.specs.Prelude.{◌≡◌, IfOk, codes};
ghost use Rattle.tree_log.specs.Facts.{doc_of_load};
ghost use Rattle.tree_view.specs.NewRows as new;
ghost use Rattle.tree_view.specs.Rows as spec;

use crate::plain::rows::{DocRow, MadeRow, NavRow, NewRows};
use origin_core::{Origin, PageUrl, blank_url};
use plain_data::Text;
use std::alloc::{AllocError, Global};
use tree_log::{Entry, Load, What};

/// The rows that an entry makes, if it makes a navigable.
pub(crate) fn new_rows(alloc: Global, entry: &Entry) -> Result<Option<NewRows>, AllocError>
    ensures { IfOk result (λ rows. rows ≡ new.new_rows entry.now) }
{
    match &entry.what {
        What::Open {
            nav,
            doc,
            group,
            home,
            origin,
            name,
            opener,
            flags,
            navigator,
            load,
        } => {
            let made = MadeRow {
                embedder: None,
                group: Some(*group),
                flags: *flags,
                navigator: *navigator,
                scripted: entry.actor.is_some(),
            };
            Ok(Some(NewRows {
                row: nav_row(made, *doc, name, *opener, load)?,
                initial: initial_row(alloc, *nav, origin, *home)?,
                loaded: load_row_if_any(*nav, load)?,
            }))
        }
        What::Frame {
            nav,
            doc,
            home,
            origin,
            name,
            flags,
            load,
        } => {
            let made = MadeRow {
                embedder: entry.actor,
                group: None,
                flags: *flags,
                navigator: None,
                scripted: false,
            };
            Ok(Some(NewRows {
                row: nav_row(made, *doc, name, None, load)?,
                initial: initial_row(alloc, *nav, origin, *home)?,
                loaded: load_row_if_any(*nav, load)?,
            }))
        }
        _ => Ok(None),
    }
}

fn nav_row(
    made: MadeRow,
    doc: u32,
    name: &Text,
    opener: Option<u32>,
    load: &Option<Load>,
) -> Result<NavRow, AllocError>
    ensures { IfOk result (λ row. row ≡ new.new_row made doc name.now opener load.now) }
{
    Ok(NavRow {
        made,
        active: doc,
        dropped: false,
        gone: false,
        closing: false,
        name: name.clone()?,
        opener,
        last_load: loaded_doc(load),
    })
}

fn loaded_doc(load: &Option<Load>) -> Option<u32>
    ensures { result ≡ doc_of_load load.now }
{
    match load {
        Some(load) => Some(load.doc),
        None => None,
    }
}

fn initial_row(alloc: Global, nav: u32, origin: &Origin, home: u16) -> Result<DocRow, AllocError>
    ensures { IfOk result (λ row. row ≡ spec.initial_row nav origin.now home) }
{
    Ok(DocRow {
        nav,
        origin: origin.clone()?,
        home,
        loaded: false,
        been_active: true,
        url: about_blank(alloc)?,
        domain: None,
    })
}

fn about_blank(alloc: Global) -> Result<PageUrl, AllocError>
    ensures { IfOk result (λ url. url ≡ codes "about:blank") }
{
    blank_url(alloc, &Origin::Opaque(0))
}

/// The row of a document that a navigable loads.
pub(crate) fn load_row(nav: u32, load: &Load) -> Result<DocRow, AllocError>
    ensures { IfOk result (λ row. row ≡ spec.load_row nav load.now) }
{
    Ok(DocRow {
        nav,
        origin: load.origin.clone()?,
        home: load.home,
        loaded: true,
        been_active: false,
        url: load.url.clone()?,
        domain: None,
    })
}

fn load_row_if_any(nav: u32, load: &Option<Load>) -> Result<Option<DocRow>, AllocError>
    ensures { IfOk result (λ row. row ≡ spec.load_row_if_any nav load.now) }
{
    match load {
        Some(load) => Ok(Some(load_row(nav, load)?)),
        None => Ok(None),
    }
}
