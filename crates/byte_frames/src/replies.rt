ghost use Rattle.std.specs.Prelude.{◌≡◌};
ghost use Rattle.std.specs.Option.{option_copied};
ghost use Rattle.byte_answers.specs.Answers.{Gives, Tells};
ghost use Rattle.byte_frames.specs.Lines as lines;
ghost use Rattle.byte_frames.specs.Numbers as spec;
ghost use Rattle.link_wire.specs.Replies.{reply_of};

use crate::numbers::{FrameFault, ReplyNumbers, fault_of, numbers_of_reply};
use byte_answers::{Answer, write_out};
use link_wire::{DecodeError, Reply, decode_reply};
use plain_data::Text;
use std::alloc::Global;
use trace_text::entry_text;
use tree_log::Entry;

// The numbers of a reply.
fn numbers_said(reply: &Reply) -> ReplyNumbers
    ensures { result ≡ spec.numbers_of_reply reply.now }
{
    numbers_of_reply(&reply.outcome, reply.from, reply.more, reply.news.len())
}

/// Reads the frame of a reply as numbers, or says where and why it is none.
pub fn read_reply(
    alloc: Global,
    bytes: &[u8],
    numbers: &mut ReplyNumbers,
    fault: &mut FrameFault,
) -> Answer
    ensures { spec.ReadsAs spec.numbers_of_reply (reply_of bytes.now) numbers.old numbers.new fault.old fault.new result }
{
    match decode_reply(alloc, bytes) {
        Ok(reply) => {
            *numbers = numbers_said(&reply);
            Answer::Done
        }
        Err(DecodeError::Memory) => Answer::NoMemory,
        Err(DecodeError::Bad(bad)) => {
            *fault = fault_of(bad);
            Answer::BadFrame
        }
    }
}

// The place of an entry that a reply tells.
fn place_at(from: u32, index: u32) -> Result<u32, Answer>
    ensures { Gives result (lines.place_told from index) }
{
    match from.checked_add(index) {
        Some(place) => Ok(place),
        None => Err(Answer::OutOfRange),
    }
}

// The line of an entry at a place.
fn line_at(alloc: Global, place: u32, entry: Option<&Entry>) -> Result<Text, Answer>
    ensures { Gives result (lines.line_at place (option_copied entry.entry)) }
{
    match entry {
        Some(entry) => match entry_text(alloc, place, entry) {
            Ok(text) => Ok(text),
            Err(_) => Err(Answer::NoMemory),
        },
        None => Err(Answer::OutOfRange),
    }
}

// The line of an entry that a reply tells.
fn line_of(alloc: Global, reply: &Reply, index: u32) -> Result<Text, Answer>
    ensures { Gives result (lines.line_of index reply.now) }
{
    match place_at(reply.from, index) {
        Ok(place) => line_at(alloc, place, reply.news.get(index as usize)),
        Err(why) => Err(why),
    }
}

fn line_said(alloc: Global, bytes: &[u8], index: u32) -> Result<Text, Answer>
    ensures { Gives result (lines.line_read index (reply_of bytes.now)) }
{
    match decode_reply(alloc, bytes) {
        Ok(reply) => line_of(alloc, &reply, index),
        Err(DecodeError::Memory) => Err(Answer::NoMemory),
        Err(DecodeError::Bad(_)) => Err(Answer::BadFrame),
    }
}

/// Writes the line of an entry, counted from 0, that the reply whose frame the bytes are tells, as a play prints it.
pub fn reply_line(
    alloc: Global,
    bytes: &[u8],
    index: u32,
    out: &mut [u8],
    len: &mut usize,
) -> Answer
    ensures { Tells (lines.line_read index (reply_of bytes.now)) out.old out.new len.new result }
{
    match line_said(alloc, bytes, index) {
        Ok(text) => write_out(out, len, text.as_str().as_bytes()),
        Err(why) => {
            *len = 0;
            why
        }
    }
}
