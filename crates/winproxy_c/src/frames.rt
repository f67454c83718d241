ghost use Rattle.std.specs.Prelude.{◌≡◌};
ghost use Rattle.byte_answers.specs.Answers.{Tells};
ghost use Rattle.byte_frames.specs.Lines.{line_read};
ghost use Rattle.byte_frames.specs.Numbers as spec;
ghost use Rattle.byte_frames.specs.Parts.{part_read};
ghost use Rattle.byte_frames.specs.Writing.{frame_told};
ghost use Rattle.link_wire.specs.Replies.{reply_of};
ghost use Rattle.link_wire.specs.Requests.{request_read};
ghost use Rattle.winproxy_c.specs.Results.{Says};

use byte_frames::{FrameFault, ReplyNumbers, RequestNumbers};
use std::alloc::Global;

/// Reads the frame of a request as numbers, or says where and why it is none.
#[unsafe(no_mangle)]
pub extern "C" fn winproxy_read_request(
    alloc: Global,
    bytes: &[u8],
    request: &mut RequestNumbers,
    fault: &mut FrameFault,
) -> u32
    ensures { Says result (spec.ReadsAs spec.numbers_of (request_read bytes.now) request.old request.new fault.old fault.new) }
{
    byte_frames::read_request(alloc, bytes, request, fault).number()
}

/// Writes a text of the request whose frame the bytes are.
#[unsafe(no_mangle)]
pub extern "C" fn winproxy_request_text(
    alloc: Global,
    bytes: &[u8],
    part: u8,
    out: &mut [u8],
    len: &mut usize,
) -> u32
    ensures { Says result (Tells (part_read part (request_read bytes.now)) out.old out.new len.new) }
{
    byte_frames::request_text(alloc, bytes, part, out, len).number()
}

/// Writes the frame of a request, of its numbers, its URL, its text and its data.
#[unsafe(no_mangle)]
pub extern "C" fn winproxy_write_request(
    alloc: Global,
    request: &RequestNumbers,
    url: &[u8],
    text: &[u8],
    body: &[u8],
    out: &mut [u8],
    len: &mut usize,
) -> u32
    ensures { Says result (Tells (frame_told request.now url.now text.now body.now) out.old out.new len.new) }
{
    byte_frames::write_request(alloc, request, url, text, body, out, len).number()
}

/// Reads the frame of a reply as numbers, or says where and why it is none.
#[unsafe(no_mangle)]
pub extern "C" fn winproxy_read_reply(
    alloc: Global,
    bytes: &[u8],
    reply: &mut ReplyNumbers,
    fault: &mut FrameFault,
) -> u32
    ensures { Says result (spec.ReadsAs spec.numbers_of_reply (reply_of bytes.now) reply.old reply.new fault.old fault.new) }
{
    byte_frames::read_reply(alloc, bytes, reply, fault).number()
}

/// Writes the line of an entry that the reply whose frame the bytes are tells.
#[unsafe(no_mangle)]
pub extern "C" fn winproxy_reply_line(
    alloc: Global,
    bytes: &[u8],
    index: u32,
    out: &mut [u8],
    len: &mut usize,
) -> u32
    ensures { Says result (Tells (line_read index (reply_of bytes.now)) out.old out.new len.new) }
{
    byte_frames::reply_line(alloc, bytes, index, out, len).number()
}
