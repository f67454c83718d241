// What the commands of a row make happen.
use origin_core::{Flags, Origin, blank_url};
use plain_data::Text;
use std::alloc::{AllocError, Global};
use tree_log::{Load, What};
use tree_view::View;

/// The number that a word is, or one that nothing has.
pub fn number(word: &str) -> u32 {
    word.parse::<u32>().unwrap_or(u32::MAX)
}

/// A name: `-` is none.
pub fn name_of(word: &str) -> &str {
    if word == "-" { "" } else { word }
}

/// A new top-level navigable, in a group of its own.
pub fn window<V: View>(alloc: Global, view: &V) -> Result<What, AllocError> {
    Ok(What::Open {
        nav: view.navs(),
        doc: view.docs(),
        group: view.groups(),
        home: 0,
        origin: Origin::Opaque(0),
        name: Text::copy_of(alloc, "")?,
        opener: None,
        flags: Flags::NONE,
        navigator: None,
        load: None,
    })
}

/// A new child navigable.
pub fn frame<V: View>(alloc: Global, view: &V, name: &str) -> Result<What, AllocError> {
    Ok(What::Frame {
        nav: view.navs(),
        doc: view.docs(),
        home: 0,
        origin: Origin::Opaque(0),
        name: Text::copy_of(alloc, name)?,
        flags: Flags::NONE,
        load: None,
    })
}

/// A load of an empty document.
pub fn begin<V: View>(alloc: Global, view: &V, nav: u32) -> Result<What, AllocError> {
    Ok(What::Begin {
        nav,
        load: Load {
            doc: view.docs(),
            home: 0,
            origin: Origin::Opaque(0),
            url: blank_url(alloc, &Origin::Opaque(0))?,
        },
    })
}
