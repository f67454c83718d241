ghost use Rattle.std.specs.Prelude.{◌≤◌};

use link_wire::{Reply, ReplyOutcome};
use origin_core::{Flags, Origin, PageUrl, read_url, url_origin};
use plain_data::{Data, Text};
use std::alloc::{AllocError, Global};
use tree_log::{Entry, Load, Target, What};

const FRAMES: u32 = 56;

// As many as have room behind the frames and their messages.
const SYNCS: u32 = 100;

fn page(alloc: Global, text: &str) -> Result<PageUrl, AllocError> {
    match read_url(alloc, text, None) {
        Ok(url) => Ok(url),
        Err(_) => Err(AllocError),
    }
}

fn frame(alloc: Global, nav: u32, origin: &Origin, url: &PageUrl) -> Result<Entry, AllocError> {
    Ok(Entry {
        by: Some(0),
        actor: Some(1),
        what: What::Frame {
            nav,
            doc: nav,
            home: 0,
            origin: origin.clone()?,
            name: Text::copy_of(alloc, "")?,
            flags: Flags::NONE,
            load: Some(Load {
                doc: nav,
                home: 1,
                origin: origin.clone()?,
                url: url.clone()?,
            }),
        },
    })
}

fn commit(nav: u32) -> Entry {
    Entry {
        by: Some(1),
        actor: None,
        what: What::Commit {
            nav,
            doc: nav,
            begin: nav,
        },
    }
}

fn post(nav: u32, number: u32, origin: &Origin) -> Result<Entry, AllocError> {
    Ok(Entry {
        by: Some(1),
        actor: Some(nav),
        what: What::Post {
            to: 1,
            from: nav,
            origin: origin.clone()?,
            target: Target::Any,
            body: Data::Whole(number as i64),
        },
    })
}

fn fire(place: u32) -> Entry {
    Entry {
        by: Some(0),
        actor: None,
        what: What::Fire {
            doc: 1,
            post: place,
        },
    }
}

fn sync() -> Entry {
    Entry {
        by: Some(0),
        actor: Some(1),
        what: What::Sync,
    }
}

// Frames of seven sites, each loaded, with twenty messages each and their ends; and more entries.
fn entries(alloc: Global) -> Result<Vec<Entry>, AllocError> {
    let sites = [
        "https://s0.test/p17",
        "https://s1.test/p17",
        "https://s2.test/p17",
        "https://s3.test/p17",
        "https://s4.test/p17",
        "https://s5.test/p17",
        "https://s6.test/p17",
    ];
    let mut entries = Vec::new(alloc);
    for nav in 0..FRAMES {
        let url = page(alloc, sites[(nav % 7) as usize])?;
        let origin = url_origin(alloc, &url)?.unwrap_or(Origin::Opaque(nav));
        entries.push(frame(alloc, nav, &origin, &url)?)?;
        entries.push(commit(nav))?;
        for number in 0..20 {
            entries.push(post(nav, number, &origin)?)?;
            entries.push(fire(number))?;
        }
    }
    for _ in 0..SYNCS {
        entries.push(sync())?;
    }
    Ok(entries)
}

/// A reply that tells 2,452 entries, in a body of 65,533 bytes.
pub(crate) fn busy_reply(alloc: Global) -> Result<Reply, AllocError> {
    Ok(Reply {
        outcome: ReplyOutcome::Done,
        from: 0,
        more: false,
        news: entries(alloc)?,
    })
}

/// The bytes of a reply with a message whose data is a list in a list, and so on: so many lists, and behind them the
/// frame's end. With 21,836 lists its body has 65,534 bytes.
pub(crate) fn deep_reply(alloc: Global, lists: u32) -> Result<Vec<u8>, AllocError>
    requires { lists ≤ 21836 }
{
    let mut frame = [2, 0x46].as_slice().to_vec(alloc)?; // the outcome is Nothing
    frame.extend_from_slice(&(26 + 3 * lists).to_be_bytes())?;
    frame.extend_from_slice(&[
        0, 0, 0, 0, 0, 0, 0, 0, 1, // from place 0 on, no more, one entry
        9, 0, 0, // a message, of no renderer and no document
        0, 0, 0, 0, 0, 0, 0, 0, // from and to
        1, 0, 0, 0, 0, 0, // an opaque origin, any target
    ])?;
    for _ in 0..lists {
        frame.extend_from_slice(&[6, 0, 1])?;
    }
    Ok(frame)
}
