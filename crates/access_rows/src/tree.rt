use origin_core::{Flags, HostText, Origin, PageUrl, read_url, url_origin};
use plain_data::Text;
use std::alloc::{AllocError, Global};
use tree_log::{Entry, Load, What};
use tree_view::{PlainView, View};

// The texts here are URLs of pages, so that only memory can be wanting.
fn page(alloc: Global, text: &str) -> Result<PageUrl, AllocError> {
    read_url(alloc, text, None).map_err(|_| AllocError)
}

fn origin(alloc: Global, text: &str) -> Result<Origin, AllocError> {
    let origin = url_origin(alloc, &page(alloc, text)?)?;
    Ok(origin.unwrap_or(Origin::Opaque(0)))
}

fn load(alloc: Global, doc: u32, home: u16, text: &str) -> Result<Load, AllocError> {
    Ok(Load {
        doc,
        home,
        origin: origin(alloc, text)?,
        url: page(alloc, text)?,
    })
}

// The window n0, which is to load the document d1.
fn opened(alloc: Global, text: &str) -> Result<What, AllocError> {
    Ok(What::Open {
        nav: 0,
        doc: 0,
        group: 0,
        home: 0,
        origin: Origin::Opaque(0),
        name: Text::copy_of(alloc, "")?,
        opener: None,
        flags: Flags::from_bits(0),
        navigator: None,
        load: Some(load(alloc, 1, 0, text)?),
    })
}

// A frame, whose initial document has the origin of its creator.
fn frame(
    alloc: Global,
    (nav, doc): (u32, u32),
    creator: &str,
    name: &str,
    load: Option<Load>,
) -> Result<What, AllocError> {
    Ok(What::Frame {
        nav,
        doc,
        home: 0,
        origin: origin(alloc, creator)?,
        name: Text::copy_of(alloc, name)?,
        flags: Flags::from_bits(0),
        load,
    })
}

fn hear(
    view: &mut PlainView,
    by: Option<u16>,
    actor: Option<u32>,
    what: What,
) -> Result<(), AllocError> {
    let entry = Entry { by, actor, what };
    if view.admits(&entry) {
        view.apply(&entry)?;
    }
    Ok(())
}

fn commit(view: &mut PlainView, by: u16, nav: u32, doc: u32, begin: u32) -> Result<(), AllocError> {
    hear(view, Some(by), None, What::Commit { nav, doc, begin })
}

// The document d1 of a host in n0, with two frames of these names: n1, in which the document d3 was loaded, and n2 with its
// initial document d4.
fn with_frames(
    alloc: Global,
    host: &str,
    (first, second): (&str, &str),
    inner: Load,
) -> Result<PlainView, AllocError> {
    let mut view = PlainView::new(alloc);
    let (by, home) = (Some(0), inner.home);
    hear(&mut view, None, None, opened(alloc, host)?)?;
    commit(&mut view, 0, 0, 1, 0)?;
    let one = frame(alloc, (1, 2), host, first, Some(inner))?;
    hear(&mut view, by, Some(1), one)?;
    commit(&mut view, home, 1, 3, 2)?;
    let other = frame(alloc, (2, 4), host, second, None)?;
    hear(&mut view, by, Some(1), other)?;
    Ok(view)
}

/// The document d1 of a.test in n0, with two frames: n1, named `x`, of b.test, whose initial document d2 is of a.test and
/// no longer active, so that d3 is; and n2, named `y`, with its initial document d4 of a.test.
pub fn framed(alloc: Global) -> Result<PlainView, AllocError> {
    let inner = load(alloc, 3, 1, "https://b.test/")?;
    with_frames(alloc, "https://a.test/", ("x", "y"), inner)
}

// A document sets its domain to a.test.
fn relax(alloc: Global, view: &mut PlainView, doc: u32) -> Result<(), AllocError> {
    let domain = HostText::copy_of(alloc, "a.test")?;
    hear(view, Some(0), Some(doc), What::Domain { doc, domain })
}

/// The document d1 of x.a.test in n0, with two frames: n1, of d3 of y.a.test; and n2, with its initial document d4 of
/// x.a.test. Each of `setters` has set its domain to a.test.
pub fn related(alloc: Global, setters: &[u32]) -> Result<PlainView, AllocError> {
    let inner = load(alloc, 3, 0, "https://y.a.test/")?;
    let mut view = with_frames(alloc, "https://x.a.test/", ("", ""), inner)?;
    for doc in setters {
        relax(alloc, &mut view, *doc)?;
    }
    Ok(view)
}
