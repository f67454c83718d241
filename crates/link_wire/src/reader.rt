ghost use Rattle.std.specs.Prelude.{◌≡◌, ◌++◌, ◌+◌, ◌<◌, ◌≤◌, [], length, IfOk, OnOk, OnErr, None, Ok, true};
ghost use Rattle.link_wire.specs.Feeding as spec;
ghost use Rattle.link_wire.specs.Feeding.{Feeds, Fills, Turn, is_partial};

use crate::bad::Bad;
use crate::frame::{Side, read_head};
use agent_terms::Why;
use std::alloc::{AllocError, Global};
use std::marker::Model;

/// What a piece of a stream gives.
#[derive(Clone, Copy, Debug, PartialEq, Eq)]
pub enum Fed {
    /// The whole piece was taken, and no frame is whole.
    More,
    /// A frame is whole. So many bytes of the piece were taken.
    Whole { used: usize },
    /// The head of the next frame is bad. The stream has ended.
    Bad { place: u32, why: Why },
}

/// Frames of requests from a stream that comes in pieces.
///
/// Contracts see it as the bytes since the last frame, or the fault that ended the stream.
#[derive(Drop)]
pub struct FrameReader {
    have: Vec<u8>,
    bad: Option<Bad>,
}

impl Model for FrameReader {
    ghost use Rattle.std.specs.Prelude.{◌≡◌, true};
    ghost use Rattle.link_wire.specs.Feeding.{Held, is_partial};

    ghost Value = { Held };

    ghost view = { λ r. record { have = r.have.items; bad = r.bad } };

    ghost invariant = { λ r. is_partial r.have.items ≡ true };
}

impl FrameReader {
    /// A reader at the beginning of a stream. It takes no memory.
    pub fn new(alloc: Global) -> FrameReader
        ensures { result ≡ record { have = []; bad = None } }
    {
        FrameReader {
            have: Vec::new(alloc),
            bad: None,
        }
    }

    /// Takes from the next piece of the stream what the next frame lacks. `into` becomes the frame where it is whole,
    /// and is empty else. The rest of the piece is to be fed again.
    ///
    /// `Bad` is about the head alone, and every later feed repeats it. An `Err` leaves the reader as it was.
    pub fn feed(&mut self, piece: &[u8], into: &mut Vec<u8>) -> Result<Fed, AllocError>
        ensures turn { IfOk result (λ fed. Turn fed self.old piece.now self.new into.new.items) }
        ensures err { OnErr result (self.new ≡ self.old) }
    {
        into.clear();
        if let Some(bad) = self.bad {
            return Ok(Fed::Bad {
                place: bad.place,
                why: bad.why,
            });
        }
        let fed = take_piece(&mut self.have, piece, into)?;
        if let Fed::Bad { place, why } = fed {
            self.bad = Some(Bad { place, why });
        }
        Ok(fed)
    }
}

fn is_short(why: Why) -> bool
    ensures { result ≡ spec.is_short why }
{
    matches!(why, Why::Short)
}

// What a head lacks behind the bytes that are there, and the rest of the piece.
fn split_at_head(before: usize, piece: &[u8]) -> (&[u8], &[u8])
    ensures parts { result.0.now ++ result.1.now ≡ piece.now }
    ensures all { before + length result.0.now < 6 → result.1.now ≡ [] }
    ensures no_more { 6 < before + length result.0.now → result.0.now ≡ [] }
{
    let lacking = 6usize.saturating_sub(before);
    if piece.len() <= lacking {
        return (piece, &[]);
    }
    piece.split_at(lacking)
}

// Adds two pieces.
fn put_both(out: &mut Vec<u8>, first: &[u8], second: &[u8]) -> Result<(), AllocError>
    ensures { OnOk result (out.new.items ≡ out.old.items ++ (first.now ++ second.now)) }
{
    out.extend_from_slice(first)?;
    out.extend_from_slice(second)
}

// Moves what the head lacks from the front of the piece behind the bytes that are there, and gives the rest of the
// piece.
fn fill_head<'a>(have: &mut Vec<u8>, piece: &'a [u8]) -> Result<&'a [u8], AllocError>
    ensures filled { IfOk result (λ rest. Fills have.old.items piece.now have.new.items rest.now) }
    ensures err { OnErr result (have.new.items ≡ have.old.items) }
{
    let (front, rest) = split_at_head(have.len(), piece);
    have.extend_from_slice(front)?;
    Ok(rest)
}

// Takes what a frame lacks behind the bytes since the last one.
fn take_piece(have: &mut Vec<u8>, piece: &[u8], into: &mut Vec<u8>) -> Result<Fed, AllocError>
    requires partial { is_partial have.old.items ≡ true }
    requires empty { into.old.items ≡ [] }
    ensures fed { IfOk result (λ fed. Feeds fed have.old.items (have.old.items ++ piece.now) have.new.items into.new.items) }
    ensures partial { IfOk result (λ fed. is_partial have.new.items ≡ true) }
    ensures err { OnErr result (have.new.items ≡ have.old.items) }
{
    let before = have.len();
    let rest = fill_head(have, piece)?;
    match read_head(Side::Request, have.as_slice()) {
        Ok((_, len)) => {
            let lacking = 6 + len as usize - have.len();
            if rest.len() < lacking {
                if have.extend_from_slice(rest).is_err() {
                    have.truncate(before);
                    return Err(AllocError);
                }
                return Ok(Fed::More);
            }
            if put_both(into, have.as_slice(), &rest[..lacking]).is_err() {
                have.truncate(before);
                return Err(AllocError);
            }
            have.clear();
            Ok(Fed::Whole {
                used: piece.len() - rest.len() + lacking,
            })
        }
        Err(bad) => {
            if is_short(bad.why) {
                return Ok(Fed::More);
            }
            have.clear();
            Ok(Fed::Bad {
                place: bad.place,
                why: bad.why,
            })
        }
    }
}
