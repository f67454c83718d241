use crate::digits::{bytes_of, number_of};
use crate::opening::opened;
use desk::PlainDesk;
use std::alloc::{AllocError, Global};

/// What a line asks.
#[derive(Drop)]
pub enum Ask {
    /// Which request its bytes spell.
    Request(Vec<u8>),
    /// Which reply its bytes spell.
    Reply(Vec<u8>),
    /// What the reader of frames makes of its bytes as the next piece.
    Feed(Vec<u8>),
    /// That the coordinator is this new one.
    Desk(PlainDesk),
    /// What the coordinator replies to a renderer.
    Serve { renderer: u16, request: Vec<u8> },
    /// That the coordinator loses a renderer.
    Lose { renderer: u16 },
    /// Which entries the coordinator's log has.
    Log,
}

impl Ask {
    /// Reads a line without its line feed, or none where it is of no form that there is.
    pub fn read(alloc: Global, line: &str) -> Result<Option<Ask>, AllocError> {
        match line.split_once(' ') {
            Some((word, rest)) => ask_of(alloc, word, rest),
            None if line == "log" => Ok(Some(Ask::Log)),
            None => Ok(None),
        }
    }
}

// What a line asks, by its first word and the text behind it.
fn ask_of(alloc: Global, word: &str, rest: &str) -> Result<Option<Ask>, AllocError> {
    match word {
        "q" => Ok(bytes_of(alloc, rest)?.map(Ask::Request)),
        "p" => Ok(bytes_of(alloc, rest)?.map(Ask::Reply)),
        "feed" => Ok(bytes_of(alloc, rest)?.map(Ask::Feed)),
        "desk" => Ok(opened(alloc, rest)?.map(Ask::Desk)),
        "lose" => Ok(number_of(rest).map(|renderer| Ask::Lose { renderer })),
        _ => serve_of(alloc, word, rest),
    }
}

// The request of a renderer, which is named by `r` and its number.
fn serve_of(alloc: Global, name: &str, digits: &str) -> Result<Option<Ask>, AllocError> {
    match name.strip_prefix('r').and_then(number_of) {
        Some(renderer) => {
            Ok(bytes_of(alloc, digits)?.map(|request| Ask::Serve { renderer, request }))
        }
        None => Ok(None),
    }
}
