// What the commands of a row make happen, as the rules say it.
ghost use Rattle.std.specs.Prelude.{◌<◌};
ghost use Rattle.tree_view.specs.Shown.{tree_shown};

use crate::pages::{flags, has_word, number, option, page};
use origin_core::{Flags, Origin, frame_origin, loaded_origin, window_origin};
use plain_data::Text;
use std::alloc::{AllocError, Global};
use tree_log::{Load, What};
use tree_view::{PlainView, View};

/// The load of a page, as a document asks for it: none where the word names no page.
pub fn load(
    alloc: Global,
    doc: u32,
    asker: &Origin,
    flags: Flags,
    word: &str,
    options: &str,
) -> Result<Option<Load>, AllocError> {
    let Some(url) = page(alloc, word)? else {
        return Ok(None);
    };
    let origin = loaded_origin(alloc, flags.origin(), doc, asker, &url)?;
    Ok(Some(Load {
        doc,
        home: home(options),
        origin,
        url,
    }))
}

fn home(options: &str) -> u16 {
    option(options, "home").parse::<u16>().unwrap_or(0)
}

/// A start window: it opens a group.
pub fn start(
    alloc: Global,
    view: &PlainView,
    word: &str,
    options: &str,
) -> Result<What, AllocError> {
    let doc = view.docs();
    let next = doc.saturating_add(1);
    Ok(What::Open {
        nav: view.navs(),
        doc,
        group: view.groups(),
        home: home(options),
        origin: Origin::Opaque(doc),
        name: Text::copy_of(alloc, option(options, "name"))?,
        opener: None,
        flags: Flags::NONE,
        navigator: None,
        load: load(
            alloc,
            next,
            &Origin::Opaque(doc),
            Flags::NONE,
            word,
            options,
        )?,
    })
}

/// A frame in the document that a navigable shows: it has its own flags and those of that navigable.
pub fn frame(
    alloc: Global,
    view: &PlainView,
    parent: u32,
    word: &str,
    options: &str,
) -> Result<What, AllocError>
    requires { parent < (tree_shown view.now).navs }
{
    let doc = view.docs();
    let next = doc.saturating_add(1);
    let flags = flags(option(options, "flags")).union(view.flags(parent));
    let maker = view.origin_of(view.active(parent));
    Ok(What::Frame {
        nav: view.navs(),
        doc,
        home: home(options),
        origin: frame_origin(flags.origin(), doc, maker)?,
        name: Text::copy_of(alloc, option(options, "name"))?,
        flags,
        load: load(alloc, next, maker, flags, word, options)?,
    })
}

/// A window that the document of a navigable opens, with an opener or without: it has that navigable's flags where they
/// propagate, and that navigable is its navigator where it has the navigation flag.
pub fn window(
    alloc: Global,
    view: &PlainView,
    by: u32,
    word: &str,
    options: &str,
) -> Result<What, AllocError>
    requires { by < (tree_shown view.now).navs }
{
    let doc = view.docs();
    let next = doc.saturating_add(1);
    let noopener = has_word(options, "noopener");
    let flags = if view.flags(by).propagates() {
        view.flags(by)
    } else {
        Flags::NONE
    };
    let maker = view.origin_of(view.active(by));
    Ok(What::Open {
        nav: view.navs(),
        doc,
        group: if noopener {
            view.groups()
        } else {
            view.group(by)
        },
        home: home(options),
        origin: window_origin(noopener, doc, maker)?,
        name: Text::copy_of(alloc, option(options, "name"))?,
        opener: unless(noopener, by),
        flags,
        navigator: unless(noopener || !view.flags(by).navigation(), by),
        load: load(alloc, next, maker, flags, word, options)?,
    })
}

fn unless(not: bool, nav: u32) -> Option<u32> {
    if not { None } else { Some(nav) }
}

/// A navigation of a navigable to a page, which its own document asks for.
pub fn begin(
    alloc: Global,
    view: &PlainView,
    nav: u32,
    word: &str,
    options: &str,
) -> Result<Option<What>, AllocError>
    requires { nav < (tree_shown view.now).navs }
{
    let asker = view.origin_of(view.active(nav));
    match load(alloc, view.docs(), asker, view.flags(nav), word, options)? {
        Some(load) => Ok(Some(What::Begin { nav, load })),
        None => Ok(None),
    }
}

/// Another opener, or none.
pub fn opener(nav: u32, word: &str) -> What {
    What::Opener {
        nav,
        to: unless(word == "-", number(word)),
    }
}
