//! Encodes or decodes a reply of 2,452 entries, as many as have room in it, as often as it is told: what the script `bench/frames` times.
//!
//! ```text
//! frame_rounds encode 100
//! frame_rounds decode 100
//! frame_rounds deep 1
//! frame_rounds half_deep 1
//! ```
//!
//! It prints the rounds and the length of the frame. The entries are those of a window with 56 frames, each
//! of which posts 20 messages to the window and is sent none. `deep` decodes a reply of 64 KiB whose data
//! nests as deep as it can, and `half_deep` one of 32 KiB: each ends within its innermost list, and is refused there.
#![tactic(auto)]

mod news;

ghost use Rattle.std.specs.Prelude.{◌≤◌};

use crate::news::{busy_reply, deep_reply};
use link_wire::{Bad, DecodeError, Why, decode_reply, encode_reply};
use std::alloc::{AllocError, Global};
use std::process::ExitCode;
use std::{env, io};

#[derive(Clone, Copy)]
enum Form {
    Encode,
    Decode,
    Deep,
    HalfDeep,
}

fn form_of(word: &str) -> Option<Form> {
    match word {
        "encode" => Some(Form::Encode),
        "decode" => Some(Form::Decode),
        "deep" => Some(Form::Deep),
        "half_deep" => Some(Form::HalfDeep),
        _ => None,
    }
}

// The length of the frame with so many lists in one another, once it was refused so often: at its end, where the
// innermost list lacks its item.
fn refuse(alloc: Global, lists: u32, rounds: u32) -> Result<usize, AllocError>
    requires { lists ≤ 21836 }
{
    let frame = deep_reply(alloc, lists)?;
    let end = Bad {
        place: 32 + 3 * lists,
        why: Why::Short,
    };
    for _ in 0..rounds {
        match decode_reply(alloc, frame.as_slice()) {
            Err(DecodeError::Bad(bad)) if bad == end => {}
            _ => return Err(AllocError),
        }
    }
    Ok(frame.len())
}

// The length of the frame, once it was made or read so often.
fn run(alloc: Global, form: Form, rounds: u32) -> Result<usize, AllocError> {
    let reply = busy_reply(alloc)?;
    match form {
        Form::Encode => {
            let mut len = 0;
            for _ in 0..rounds {
                len = encode_reply(alloc, &reply)?.len();
            }
            Ok(len)
        }
        Form::Decode => {
            let frame = encode_reply(alloc, &reply)?;
            for _ in 0..rounds {
                match decode_reply(alloc, frame.as_slice()) {
                    Ok(again) if again.news.len() == reply.news.len() => {}
                    _ => return Err(AllocError),
                }
            }
            Ok(frame.len())
        }
        Form::Deep => refuse(alloc, 21836, rounds),
        Form::HalfDeep => refuse(alloc, 10918, rounds),
    }
}

fn main(rt: HostRuntime) -> io::Result<ExitCode> {
    let mut words = env::args(&rt)?.skip(1);
    let form = words.next().and_then(|word| form_of(word.as_str()));
    let rounds = words.next().and_then(|word| word.parse::<u32>().ok());
    let (Some(form), Some(rounds)) = (form, rounds) else {
        println!(rt; "frame_rounds encode|decode|deep|half_deep ROUNDS")?;
        return Ok(ExitCode::from(2));
    };
    let len = run(rt.alloc(), form, rounds)?;
    println!(rt; "{rounds} rounds of {len} bytes")?;
    Ok(ExitCode::from(0))
}
