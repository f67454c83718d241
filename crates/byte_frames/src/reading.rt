ghost use Rattle.std.specs.Prelude.{◌≡◌};
ghost use Rattle.byte_answers.specs.Answers.{Gives, Tells};
ghost use Rattle.byte_frames.specs.Numbers as numbers_spec;
ghost use Rattle.byte_frames.specs.Parts as spec;
ghost use Rattle.link_wire.specs.Requests.{request_read};

use crate::numbers::{FrameFault, RequestNumbers, fault_of, numbers_of};
use crate::parts::part_of;
use byte_answers::{Answer, write_out};
use link_wire::{DecodeError, decode_request};
use plain_data::Text;
use std::alloc::Global;

/// Reads the frame of a request as numbers, or says where and why it is none.
pub fn read_request(
    alloc: Global,
    bytes: &[u8],
    numbers: &mut RequestNumbers,
    fault: &mut FrameFault,
) -> Answer
    ensures { numbers_spec.ReadsAs numbers_spec.numbers_of (request_read bytes.now) numbers.old numbers.new fault.old fault.new result }
{
    match decode_request(alloc, bytes) {
        Ok(request) => {
            *numbers = numbers_of(&request);
            Answer::Done
        }
        Err(DecodeError::Memory) => Answer::NoMemory,
        Err(DecodeError::Bad(bad)) => {
            *fault = fault_of(bad);
            Answer::BadFrame
        }
    }
}

fn part_said(alloc: Global, bytes: &[u8], part: u8) -> Result<Text, Answer>
    ensures { Gives result (spec.part_read part (request_read bytes.now)) }
{
    match decode_request(alloc, bytes) {
        Ok(request) => part_of(alloc, &request, part),
        Err(DecodeError::Memory) => Err(Answer::NoMemory),
        Err(DecodeError::Bad(_)) => Err(Answer::BadFrame),
    }
}

/// Writes a text of the request whose frame the bytes are: 0 its URL, 1 its name or domain, 2 the target of its message, 3
/// the message's data, as logs print it.
pub fn request_text(
    alloc: Global,
    bytes: &[u8],
    part: u8,
    out: &mut [u8],
    len: &mut usize,
) -> Answer
    ensures { Tells (spec.part_read part (request_read bytes.now)) out.old out.new len.new result }
{
    match part_said(alloc, bytes, part) {
        Ok(text) => write_out(out, len, text.as_str().as_bytes()),
        Err(why) => {
            *len = 0;
            why
        }
    }
}
