use crate::requests::page;
use agent_terms::Request;
use desk::PlainDesk;
use link_wire::encode_request;
use origin_core::Flags;
use plain_data::{Data, Text};
use std::alloc::{AllocError, Global};
use tree_log::Target;

/// The document of the start window, at renderer 0.
const WINDOW: u32 = 1;

/// The document of the frame in it, at renderer 1.
const FRAME: u32 = 3;

/// How many entries open both.
const OPENED: u32 = 4;

/// What the last log came to.
#[derive(Clone, Copy)]
pub struct Posted {
    pub entries: u32,
    pub answered: u32,
    pub exchanges: u32,
}

/// The frames that the two renderers send.
#[derive(Drop)]
struct Talk {
    next: Vec<u8>,
    to_frame: Vec<u8>,
    to_window: Vec<u8>,
}

impl Talk {
    fn new(alloc: Global) -> Result<Talk, AllocError> {
        Ok(Talk {
            next: encode_request(alloc, &Request::Next)?,
            to_frame: encode_request(alloc, &post(WINDOW, FRAME))?,
            to_window: encode_request(alloc, &post(FRAME, WINDOW))?,
        })
    }

    // Who sends what, once the log has so many entries.
    fn at(&self, entries: u32) -> (u16, &[u8]) {
        match entries % 4 {
            0 => (0, self.to_frame.as_slice()),
            1 => (1, self.next.as_slice()),
            2 => (1, self.to_window.as_slice()),
            _ => (0, self.next.as_slice()),
        }
    }
}

fn post(asker: u32, doc: u32) -> Request {
    Request::Post {
        asker,
        doc,
        target: Target::Any,
        body: Data::Whole(7),
    }
}

fn framing(alloc: Global) -> Result<Request, AllocError> {
    Ok(Request::Frame {
        asker: WINDOW,
        name: Text::copy_of(alloc, "")?,
        flags: Flags::NONE,
        url: Some(page(alloc, "https://b.test/")?),
    })
}

// Serves a renderer, where there is such a one: whether the reply's kind is that of `Done`, `Made` or `Task`.
fn is_answered(
    desk: &mut PlainDesk,
    renderer: u16,
    frame: &[u8],
    reply: &mut Vec<u8>,
) -> Result<bool, AllocError> {
    if renderer >= desk.renderers() {
        return Ok(false);
    }
    desk.serve(renderer, frame, reply)?;
    Ok(matches!(reply.as_slice(), [_, 0x41 | 0x44 | 0x45, ..]))
}

// A coordinator whose window and frame are loaded.
fn opened(alloc: Global, talk: &Talk, reply: &mut Vec<u8>) -> Result<PlainDesk, AllocError> {
    let mut desk = PlainDesk::new(alloc, 2, Vec::new(alloc))?;
    desk.start(page(alloc, "https://a.test/")?)?;
    let framing = encode_request(alloc, &framing(alloc)?)?;
    is_answered(&mut desk, 0, talk.next.as_slice(), reply)?;
    is_answered(&mut desk, 0, framing.as_slice(), reply)?;
    is_answered(&mut desk, 1, talk.next.as_slice(), reply)?;
    Ok(desk)
}

fn exchanged(alloc: Global, entries: u32) -> Result<Posted, AllocError> {
    let talk = Talk::new(alloc)?;
    let mut reply = Vec::new(alloc);
    let mut desk = opened(alloc, &talk, &mut reply)?;
    let mut answered: u32 = 0;
    for place in OPENED..entries {
        let (renderer, frame) = talk.at(place);
        if is_answered(&mut desk, renderer, frame, &mut reply)? {
            answered = answered.saturating_add(1);
        }
    }
    Ok(Posted {
        entries: desk.log().len(),
        answered,
        exchanges: entries.saturating_sub(OPENED),
    })
}

/// Lets two renderers post to each other until the log has so many entries, so often.
pub fn post_to_each_other(alloc: Global, entries: u32, builds: u32) -> Result<Posted, AllocError> {
    let mut last = Posted {
        entries: 0,
        answered: 0,
        exchanges: 0,
    };
    for _ in 0..builds {
        last = exchanged(alloc, entries)?;
    }
    Ok(last)
}
