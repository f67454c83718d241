use origin_core::{Flags, Origin, blank_url, flags_of};
use plain_data::{Data, Text};
use std::alloc::{AllocError, Global};
use tree_log::{Entry, Load, Target, What};

/// The renderer of the window.
const WINDOW: u16 = 0;

/// The renderer of the frames.
const FRAMES: u16 = 1;

/// What waits.
#[derive(Clone, Copy)]
pub enum Kind {
    /// A message to the window's document.
    Message,
    /// The load of a sandboxed frame.
    Load,
}

/// The renderer at which it waits.
pub fn renderer_of(kind: Kind) -> u16 {
    match kind {
        Kind::Message => WINDOW,
        Kind::Load => FRAMES,
    }
}

/// A window, with its initial document.
pub fn window(alloc: Global) -> Result<Entry, AllocError> {
    Ok(Entry {
        by: None,
        actor: None,
        what: What::Open {
            nav: 0,
            doc: 0,
            group: 0,
            home: WINDOW,
            origin: Origin::Opaque(0),
            name: Text::copy_of(alloc, "")?,
            opener: None,
            flags: Flags::NONE,
            navigator: None,
            load: None,
        },
    })
}

fn message() -> What {
    What::Post {
        to: 0,
        from: 0,
        origin: Origin::Opaque(0),
        target: Target::Any,
        body: Data::Undefined,
    }
}

/// A sandboxed frame, with its initial document and the one that it loads.
fn frame(alloc: Global, nav: u32, doc: u32) -> Result<What, AllocError> {
    let loaded = doc.saturating_add(1);
    Ok(What::Frame {
        nav,
        doc,
        home: WINDOW,
        origin: Origin::Opaque(doc),
        name: Text::copy_of(alloc, "")?,
        flags: flags_of("allow-scripts"),
        load: Some(Load {
            doc: loaded,
            home: FRAMES,
            origin: Origin::Opaque(loaded),
            url: blank_url(alloc, &Origin::Opaque(loaded))?,
        }),
    })
}

/// The next thing that waits, made by the window's document. A frame has these numbers.
pub fn waiting_entry(alloc: Global, kind: Kind, nav: u32, doc: u32) -> Result<Entry, AllocError> {
    let what = match kind {
        Kind::Message => message(),
        Kind::Load => frame(alloc, nav, doc)?,
    };
    Ok(Entry {
        by: Some(WINDOW),
        actor: Some(0),
        what,
    })
}
