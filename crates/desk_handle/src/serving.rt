ghost use Rattle.std.specs.Prelude.{◌≡◌, is_some, IsTrue};
ghost use Rattle.desk_handle.specs.Calls as spec;

use crate::handle::Handle;
use byte_answers::{Answer, write_out};
use desk::PlainDesk;
use std::alloc::Global;

/// How many bytes a reply has at most: the head of its frame, and a body of 64 KiB.
const MOST_REPLY: usize = 65_542;

// Serves a renderer that there is, where the buffer has room for every reply.
fn served(
    alloc: Global,
    desk: &mut PlainDesk,
    renderer: u16,
    request: &[u8],
    reply: &mut [u8],
    len: &mut usize,
) -> Answer
    ensures { spec.Serves renderer request.now desk.old desk.new reply.old reply.new len.new result }
{
    *len = 0;
    if renderer >= desk.renderers() {
        return Answer::OutOfRange;
    }
    if reply.len() < MOST_REPLY {
        return Answer::NoRoom;
    }
    let mut frame = Vec::new(alloc);
    match desk.serve(renderer, request, &mut frame) {
        Ok(()) => write_out(reply, len, frame.as_slice()),
        Err(_) => Answer::NoMemory,
    }
}

/// Answers the bytes that a renderer sent, whatever they are, with those of a reply.
pub fn serve(
    alloc: Global,
    handle: &mut Handle,
    renderer: u16,
    request: &[u8],
    reply: &mut [u8],
    len: &mut usize,
) -> Answer
    requires there { IsTrue (is_some handle.old.desk) }
    ensures { spec.Changes handle.old.desk handle.new.desk (λ old new. spec.Serves renderer request.now old new reply.old reply.new len.new result) }
{
    let mut boxed = handle.take(alloc);
    let answer = served(alloc, &mut boxed.desk, renderer, request, reply, len);
    handle.put(boxed);
    answer
}

// Loses a renderer that there is and that isn't lost.
fn lost(desk: &mut PlainDesk, renderer: u16) -> Answer
    ensures { spec.Loses renderer desk.old desk.new result }
{
    if renderer >= desk.renderers() || desk.is_lost(renderer) {
        return Answer::OutOfRange;
    }
    match desk.lose(renderer) {
        Ok(()) => Answer::Done,
        Err(_) => Answer::NoMemory,
    }
}

/// Appends that a renderer is lost.
pub fn lose(alloc: Global, handle: &mut Handle, renderer: u16) -> Answer
    requires there { IsTrue (is_some handle.old.desk) }
    ensures { spec.Changes handle.old.desk handle.new.desk (λ old new. spec.Loses renderer old new result) }
{
    let mut boxed = handle.take(alloc);
    let answer = lost(&mut boxed.desk, renderer);
    handle.put(boxed);
    answer
}
