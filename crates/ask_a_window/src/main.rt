//! An example of calling the library: what a page is told of the window of a frame of another site.
//!
//! The window n0 shows the page d1 of `https://a.test`, which has the frame n1; that shows d3 of `https://b.test`. For each line
//! of its input, a key, the program asks whether d1 may get that property of n1's window, and prints the verdict: `allowed`,
//! or the rule that refuses it.
#![tactic(auto)]

use origin_core::{Flags, Origin, read_url, url_origin};
use plain_data::Text;
use std::alloc::Global;
use std::io;
use std::io::ErrorKind;
use tree_log::{Entry, Load, What};
use tree_view::{PlainView, View};
use window_props::Key;
use window_proxy::{Op, Rule, Ruling, verdict};

const PAGE: u32 = 1;

const FRAME: u32 = 1;

/// The load of a document of a site at a renderer.
fn load(alloc: Global, doc: u32, home: u16, text: &str) -> Option<Load> {
    let url = read_url(alloc, text, None).ok()?;
    let origin = url_origin(alloc, &url).ok()??;
    Some(Load {
        doc,
        home,
        origin,
        url,
    })
}

/// A start window that is to load the page.
fn window(alloc: Global) -> Option<What> {
    Some(What::Open {
        nav: 0,
        doc: 0,
        group: 0,
        home: 0,
        origin: Origin::Opaque(0),
        name: Text::copy_of(alloc, "").ok()?,
        opener: None,
        flags: Flags::from_bits(0),
        navigator: None,
        load: Some(load(alloc, 1, 0, "https://a.test/")?),
    })
}

/// A frame in the page that is to load a document of another site.
fn frame(alloc: Global) -> Option<What> {
    let page = load(alloc, 1, 0, "https://a.test/")?;
    Some(What::Frame {
        nav: 1,
        doc: 2,
        home: 0,
        origin: page.origin,
        name: Text::copy_of(alloc, "").ok()?,
        flags: Flags::from_bits(0),
        load: Some(load(alloc, 3, 1, "https://b.test/")?),
    })
}

/// Applies an entry, where it can follow.
fn hear(view: &mut PlainView, by: Option<u16>, actor: Option<u32>, what: What) -> Option<()> {
    let entry = Entry { by, actor, what };
    if !view.admits(&entry) {
        return None;
    }
    view.apply(&entry).ok()
}

/// The tree of windows.
fn tree(alloc: Global) -> Option<PlainView> {
    let mut view = PlainView::new(alloc);
    hear(&mut view, None, None, window(alloc)?)?;
    hear(&mut view, Some(0), None, commit(0, 1, 0))?;
    hear(&mut view, Some(0), Some(1), frame(alloc)?)?;
    hear(&mut view, Some(1), None, commit(1, 3, 2))?;
    Some(view)
}

/// A load that began at a place is committed.
fn commit(nav: u32, doc: u32, begin: u32) -> What {
    What::Commit { nav, doc, begin }
}

fn word_of(ruling: Ruling) -> &'static str {
    match ruling {
        Ruling::Allowed => "allowed",
        Ruling::Refused(Rule::S1) => "refused by S1",
        Ruling::Refused(Rule::S2) => "refused by S2",
        Ruling::Refused(Rule::S3) => "refused by S3",
        Ruling::Refused(_) => "refused",
    }
}

fn main(rt: HostRuntime) -> io::Result<()> {
    let Some(view) = tree(rt.alloc()) else {
        return Err(io::Error::from(ErrorKind::OutOfMemory));
    };
    for line in rt.lines(rt.alloc()) {
        let key = Key::read(rt.alloc(), line?.as_str())?;
        if PAGE < view.docs() && FRAME < view.navs() {
            println!(rt; "{}", word_of(verdict(&view, PAGE, FRAME, Op::Get, &key)))?;
        }
    }
    Ok(())
}
