use crate::dice::Dice;
use crate::requests::{Requests, page};
use desk::PlainDesk;
use link_wire::encode_request;
use std::alloc::{AllocError, Global};
use tree_log::{Entry, Log, What};

const RENDERERS: u16 = 4;

/// How many entries are the newest ones.
const NEWEST: usize = 100;

/// How many bytes a random frame has at most.
const MOST_BYTES: u32 = 64;

/// The kind of the first reply, `Done`.
const FIRST_KIND: u8 = 0x41;

/// The names of replies, in the order of their kinds.
const REPLIES: [&str; 10] = [
    "Done", "Security", "Null", "Made", "Task", "Nothing", "Unloaded", "NotYours", "BadFrame",
    "Full",
];

/// How many entries the log has, and how many replies there were of each kind.
#[derive(Clone, Copy)]
pub struct Counts {
    pub entries: u32,
    kinds: [u32; 10],
}

impl Counts {
    /// A line for the entries, and one for each kind of reply.
    pub fn text(&self, alloc: Global) -> Result<String, AllocError> {
        let entries = self.entries;
        let mut out = format!(in alloc; "{entries} entries")?;
        for (count, name) in self.kinds.iter().zip(REPLIES.iter()) {
            write!(out, "\n{count} {name}")?;
        }
        Ok(out)
    }

    fn note(&mut self, reply: &[u8]) {
        if let [_, kind, ..] = reply {
            if let Some(count) = self.kinds.get_mut(kind.wrapping_sub(FIRST_KIND) as usize) {
                *count = count.saturating_add(1);
            }
        }
    }
}

// A coordinator with four windows.
fn opened(alloc: Global) -> Result<PlainDesk, AllocError> {
    let mut desk = PlainDesk::new(alloc, RENDERERS, Vec::new(alloc))?;
    for text in [
        "https://a.test/",
        "https://b.test/",
        "https://x.a.test/",
        "https://a.test/",
    ] {
        if desk.log().len() < 64 {
            desk.start(page(alloc, text)?)?;
        }
    }
    Ok(desk)
}

fn random_bytes(alloc: Global, dice: &mut Dice) -> Result<Vec<u8>, AllocError> {
    let mut bytes = Vec::new(alloc);
    for _ in 0..dice.below(MOST_BYTES) {
        bytes.push(dice.byte())?;
    }
    Ok(bytes)
}

// A renderer, and a document that asks: for the most part one that acted there, or whose load was committed.
fn asking(log: &Log, dice: &mut Dice) -> (u16, u32) {
    let renderer = u16::try_from(dice.below(u32::from(RENDERERS))).unwrap_or(0);
    let asker = dice.number();
    let acting = if dice.chance(50) {
        dice.pick(newest(log.entries()))
    } else {
        dice.pick(log.entries())
    };
    match acting {
        Some(entry) if dice.chance(90) => acting_in(entry).unwrap_or((renderer, asker)),
        _ => (renderer, asker),
    }
}

fn newest(entries: &[Entry]) -> &[Entry] {
    &entries[entries.len().saturating_sub(NEWEST)..]
}

// The renderer and the document of an entry.
fn acting_in(entry: &Entry) -> Option<(u16, u32)> {
    let by = entry.by?;
    match entry.what {
        What::Commit { doc, .. } => Some((by, doc)),
        _ => Some((by, entry.actor?)),
    }
}

// The frame of a request, or sometimes one with a byte changed or cut short, or bytes of any kind.
fn frame(
    alloc: Global,
    requests: &Requests,
    dice: &mut Dice,
    asker: u32,
) -> Result<Vec<u8>, AllocError> {
    if dice.chance(10) {
        return random_bytes(alloc, dice);
    }
    let request = requests.one(dice, asker)?;
    let mut frame = encode_request(alloc, &request)?;
    let place = dice.place(frame.len());
    if dice.chance(10) {
        if let Some(byte) = frame.get_mut(place) {
            *byte = dice.byte();
        }
    } else if dice.chance(5) {
        frame.truncate(place);
    }
    Ok(frame)
}

/// Serves so many random frames of its renderers in one coordinator.
pub fn serve_frames(alloc: Global, count: u32) -> Result<(PlainDesk, Counts), AllocError> {
    let mut desk = opened(alloc)?;
    let mut dice = Dice::new();
    let requests = Requests::new(alloc)?;
    let mut counts = Counts {
        entries: 0,
        kinds: [0; 10],
    };
    let mut reply = Vec::new(alloc);
    for _ in 0..count {
        let (renderer, asker) = asking(desk.log(), &mut dice);
        let frame = frame(alloc, &requests, &mut dice, asker)?;
        if renderer < desk.renderers() {
            desk.serve(renderer, frame.as_slice(), &mut reply)?;
            counts.note(reply.as_slice());
        }
    }
    counts.entries = desk.log().len();
    Ok((desk, counts))
}
