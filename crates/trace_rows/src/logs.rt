ghost use Rattle.std.specs.Prelude.{IsTrue};
ghost use Rattle.tree_log.specs.Range.{HasAscendingKeys};

use origin_core::{Flags, HostText, Origin, PageUrl, flags_of, read_url, url_origin};
use plain_data::{Data, Items, Text, keys_ascend};
use std::alloc::Global;
use tree_log::{Cause, Entry, Load, Log, Target, What, blank, kept_for_renderer};

type Happened = Vec<(Option<u16>, Option<u32>, What)>;

fn page(alloc: Global, text: &str) -> Option<PageUrl> {
    read_url(alloc, text, None).ok()
}

fn origin(alloc: Global, text: &str) -> Option<Origin> {
    url_origin(alloc, &page(alloc, text)?).ok()?
}

fn text(alloc: Global, text: &str) -> Option<Text> {
    Text::copy_of(alloc, text).ok()
}

/// The record of one member `token`.
fn token(alloc: Global) -> Option<Data> {
    let mut members = Items::new(alloc);
    members
        .push((text(alloc, "token")?, Data::Text(text(alloc, "t1")?)))
        .ok()?;
    Some(Data::Record(members))
}

/// Whether the keys of each record in posted data ascend, as a log asks for.
fn has_ascending_keys(what: &What) -> bool
    ensures { IsTrue result → HasAscendingKeys what.now }
{
    match what {
        What::Post { body, .. } => keys_ascend(body),
        _ => true,
    }
}

/// Appends an entry to a log of fewer than a hundred.
fn add(log: &mut Log, entry: Entry) -> Option<()> {
    if log.len() >= 100 || !has_ascending_keys(&entry.what) {
        return None;
    }
    log.push(entry).ok()
}

fn log_of(alloc: Global, happened: Happened) -> Option<Log> {
    let mut log = Log::new(alloc);
    for (by, actor, what) in happened {
        add(&mut log, Entry { by, actor, what })?;
    }
    Some(log)
}

/// The log as it may be shown to a renderer.
pub fn shown_to(alloc: Global, log: &Log, renderer: u16) -> Option<Log> {
    let kept = kept_for_renderer(alloc, log, renderer).ok()?;
    let mut shown = Log::new(alloc);
    for entry in log.entries() {
        add(&mut shown, blank(alloc, entry, &kept).ok()?)?;
    }
    Some(shown)
}

/// The log of a window that holds a sandboxed frame, which posts a message to it and opens a window.
pub fn run(alloc: Global) -> Option<Log> {
    let sandbox = flags_of("allow-scripts allow-popups");
    let happened = vec![in alloc;
        (
            None,
            None,
            What::Open {
                nav: 0,
                doc: 0,
                group: 0,
                home: 0,
                origin: Origin::Opaque(0),
                name: text(alloc, "")?,
                opener: None,
                flags: Flags::from_bits(0),
                navigator: None,
                load: Some(Load {
                    doc: 1,
                    home: 0,
                    origin: origin(alloc, "https://a.test/")?,
                    url: page(alloc, "https://a.test/")?,
                }),
            }
        ),
        (
            Some(0),
            None,
            What::Commit {
                nav: 0,
                doc: 1,
                begin: 0
            }
        ),
        (
            Some(0),
            Some(1),
            What::Frame {
                nav: 1,
                doc: 2,
                home: 0,
                origin: Origin::Opaque(2),
                name: text(alloc, "")?,
                flags: sandbox,
                load: Some(Load {
                    doc: 3,
                    home: 1,
                    origin: Origin::Opaque(3),
                    url: page(alloc, "https://b.test/")?,
                }),
            }
        ),
        (
            Some(1),
            None,
            What::Commit {
                nav: 1,
                doc: 3,
                begin: 2
            }
        ),
        (
            Some(1),
            Some(3),
            What::Post {
                to: 1,
                from: 1,
                origin: Origin::Opaque(3),
                target: Target::Any,
                body: Data::Text(text(alloc, "m")?),
            }
        ),
        (Some(0), None, What::Fire { doc: 1, post: 4 }),
        (Some(1), Some(3), What::Sync),
        (
            Some(1),
            Some(3),
            What::Open {
                nav: 2,
                doc: 4,
                group: 0,
                home: 1,
                origin: Origin::Opaque(3),
                name: text(alloc, "pop")?,
                opener: Some(1),
                flags: sandbox,
                navigator: Some(1),
                load: Some(Load {
                    doc: 5,
                    home: 0,
                    origin: Origin::Opaque(5),
                    url: page(alloc, "https://c.test/")?,
                }),
            }
        ),
        (
            Some(0),
            None,
            What::Commit {
                nav: 2,
                doc: 5,
                begin: 7
            }
        ),
    ]
    .ok()?;
    log_of(alloc, happened)
}

/// The other kinds of entries.
pub fn other_kinds(alloc: Global) -> Option<Log> {
    let happened = vec![in alloc;
        (
            Some(0),
            Some(1),
            What::Begin {
                nav: 1,
                load: Load {
                    doc: 4,
                    home: 0,
                    origin: origin(alloc, "https://c.test/")?,
                    url: page(alloc, "https://c.test/")?,
                },
            }
        ),
        (
            Some(1),
            None,
            What::Lapse {
                doc: 3,
                post: 6,
                cause: Cause::Inactive
            }
        ),
        (
            Some(1),
            Some(3),
            What::Opener {
                nav: 2,
                to: Some(1)
            }
        ),
        (
            Some(3),
            Some(7),
            What::Post {
                to: 1,
                from: 3,
                origin: origin(alloc, "https://login.test/")?,
                target: Target::Origin(origin(alloc, "https://shop.test/")?),
                body: token(alloc)?,
            }
        ),
        (Some(0), Some(1), What::Closing { nav: 3 }),
        (None, None, What::Lost { renderer: 1 }),
        (Some(0), Some(1), What::Drop { nav: 1 }),
        (
            Some(0),
            Some(1),
            What::Name {
                nav: 0,
                name: text(alloc, "z\"")?
            }
        ),
        (
            Some(0),
            Some(1),
            What::Fragment {
                nav: 1,
                doc: 3,
                url: page(alloc, "https://b.test/#u")?,
            }
        ),
        (Some(0), Some(1), What::Opener { nav: 2, to: None }),
        (
            Some(0),
            Some(1),
            What::Post {
                to: 3,
                from: 0,
                origin: origin(alloc, "http://a.test:8080/")?,
                target: Target::Never,
                body: Data::Undefined,
            }
        ),
        (
            Some(1),
            None,
            What::Lapse {
                doc: 3,
                post: 10,
                cause: Cause::Origin
            }
        ),
        (
            Some(0),
            Some(1),
            What::Frame {
                nav: 2,
                doc: 4,
                home: 1,
                origin: origin(alloc, "https://b.test/")?,
                name: text(alloc, "then")?,
                flags: Flags::from_bits(0),
                load: None,
            }
        ),
        (Some(0), None, What::Gone { nav: 3 }),
        (None, None, What::Hidden),
    ]
    .ok()?;
    log_of(alloc, happened)
}

/// A document has set its domain.
fn domain(alloc: Global, doc: u32, text: &str) -> Option<What> {
    let domain = HostText::copy_of(alloc, text).ok()?;
    Some(What::Domain { doc, domain })
}

/// The log of a window that holds a frame of another host of its site, each of which sets its domain.
pub fn with_domains(alloc: Global) -> Option<Log> {
    let happened = vec![in alloc;
        (
            None,
            None,
            What::Open {
                nav: 0,
                doc: 0,
                group: 0,
                home: 0,
                origin: Origin::Opaque(0),
                name: text(alloc, "")?,
                opener: None,
                flags: Flags::from_bits(0),
                navigator: None,
                load: Some(Load {
                    doc: 1,
                    home: 0,
                    origin: origin(alloc, "https://x.a.test/")?,
                    url: page(alloc, "https://x.a.test/")?,
                }),
            }
        ),
        (
            Some(0),
            None,
            What::Commit {
                nav: 0,
                doc: 1,
                begin: 0
            }
        ),
        (
            Some(0),
            Some(1),
            What::Frame {
                nav: 1,
                doc: 2,
                home: 0,
                origin: origin(alloc, "https://x.a.test/")?,
                name: text(alloc, "")?,
                flags: Flags::from_bits(0),
                load: Some(Load {
                    doc: 3,
                    home: 0,
                    origin: origin(alloc, "https://y.a.test/")?,
                    url: page(alloc, "https://y.a.test/")?,
                }),
            }
        ),
        (Some(0), Some(1), domain(alloc, 1, "a.test")?),
        (
            Some(0),
            None,
            What::Commit {
                nav: 1,
                doc: 3,
                begin: 2
            }
        ),
        (Some(0), Some(3), domain(alloc, 3, "a.test")?),
    ]
    .ok()?;
    log_of(alloc, happened)
}
