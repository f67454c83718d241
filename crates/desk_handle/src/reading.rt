ghost use Rattle.std.specs.Prelude.{◌≡◌, length, is_some, IsTrue};
ghost use Rattle.byte_answers.specs.Answers.{Gives, Tells};
ghost use Rattle.desk.specs.History.{log_of, told_of};
ghost use Rattle.desk_handle.specs.Calls as spec;
ghost use Rattle.single_agent.specs.LegalRecord.{is_lost_on};

use crate::handle::Handle;
use byte_answers::{Answer, tell, write_out};
use desk::PlainDesk;
use plain_data::Text;
use std::alloc::Global;
use trace_text::entry_text;

/// How many renderers there are.
pub fn count_renderers(alloc: Global, handle: &mut Handle) -> u16
    requires there { IsTrue (is_some handle.old.desk) }
    ensures { spec.Reads handle.old.desk handle.new.desk (λ desk. result ≡ desk.rules.renderers) }
{
    let boxed = handle.take(alloc);
    let renderers = boxed.desk.renderers();
    handle.put(boxed);
    renderers
}

/// How many entries the log has.
pub fn count_entries(alloc: Global, handle: &mut Handle) -> u32
    requires there { IsTrue (is_some handle.old.desk) }
    ensures { spec.Reads handle.old.desk handle.new.desk (λ desk. result ≡ length (log_of desk.history)) }
{
    let boxed = handle.take(alloc);
    let entries = boxed.desk.log().len();
    handle.put(boxed);
    entries
}

/// How many entries of the log a renderer was told.
pub fn count_told(alloc: Global, handle: &mut Handle, renderer: u16) -> u32
    requires there { IsTrue (is_some handle.old.desk) }
    ensures { spec.Reads handle.old.desk handle.new.desk (λ desk. result ≡ told_of desk.history renderer) }
{
    let boxed = handle.take(alloc);
    let told = boxed.desk.told(renderer);
    handle.put(boxed);
    told
}

/// Whether a renderer was lost.
pub fn is_lost(alloc: Global, handle: &mut Handle, renderer: u16) -> bool
    requires there { IsTrue (is_some handle.old.desk) }
    ensures { spec.Reads handle.old.desk handle.new.desk (λ desk. result ≡ is_lost_on renderer (log_of desk.history)) }
{
    let boxed = handle.take(alloc);
    let lost = boxed.desk.is_lost(renderer);
    handle.put(boxed);
    lost
}

// The line of the entry at a place.
fn line_of(alloc: Global, desk: &PlainDesk, place: u32) -> Result<Text, Answer>
    ensures { Gives result (spec.line_told desk.now place) }
{
    match desk.log().at(place) {
        Some(entry) => match entry_text(alloc, place, entry) {
            Ok(text) => Ok(text),
            Err(_) => Err(Answer::NoMemory),
        },
        None => Err(Answer::OutOfRange),
    }
}

fn tell_line(alloc: Global, desk: &PlainDesk, place: u32, out: &mut [u8], len: &mut usize) -> Answer
    ensures { Tells (spec.line_told desk.now place) out.old out.new len.new result }
{
    match line_of(alloc, desk, place) {
        Ok(line) => write_out(out, len, line.as_str().as_bytes()),
        Err(why) => {
            *len = 0;
            why
        }
    }
}

/// The line of the log's entry at a place, as a play prints it, without a line feed.
pub fn line(
    alloc: Global,
    handle: &mut Handle,
    place: u32,
    out: &mut [u8],
    len: &mut usize,
) -> Answer
    requires there { IsTrue (is_some handle.old.desk) }
    ensures { spec.Reads handle.old.desk handle.new.desk (λ desk. Tells (spec.line_told desk place) out.old out.new len.new result) }
{
    let boxed = handle.take(alloc);
    let answer = tell_line(alloc, &boxed.desk, place, out, len);
    handle.put(boxed);
    answer
}
