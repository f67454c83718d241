ghost use Rattle.std.specs.Prelude.{◌≡◌, length, is_some, is_none, IsTrue};
ghost use Rattle.byte_answers.specs.Answers.{Tells};
ghost use Rattle.desk.specs.History.{log_of, told_of};
ghost use Rattle.desk_handle.specs.Calls as spec;
ghost use Rattle.single_agent.specs.LegalRecord.{is_lost_on};
ghost use Rattle.winproxy_c.specs.Results.{Says};

use desk_handle::Handle;
use std::alloc::Global;

/// Makes a coordinator of 1 to 16 renderers with a list of public suffixes.
#[unsafe(no_mangle)]
pub extern "C" fn winproxy_desk_open(
    alloc: Global,
    desk: &mut Handle,
    renderers: u16,
    suffixes: &[u8],
) -> u32
    requires closed { IsTrue (is_none desk.old.desk) }
    ensures { Says result (spec.Opens (spec.made renderers suffixes.now) desk.new.desk) }
{
    desk_handle::open(alloc, desk, renderers, suffixes).number()
}

/// Opens a start window that loads a URL.
#[unsafe(no_mangle)]
pub extern "C" fn winproxy_desk_start(
    alloc: Global,
    desk: &mut Handle,
    url: &[u8],
    nav: &mut u32,
) -> u32
    requires open { IsTrue (is_some desk.old.desk) }
    ensures { Says result (λ answer. spec.Changes desk.old.desk desk.new.desk (λ old new. spec.StartsOn (spec.web_told url.now) old new nav.old nav.new answer)) }
{
    desk_handle::start(alloc, desk, url, nav).number()
}

/// Answers the bytes that a renderer sent, whatever they are, with those of a reply.
#[unsafe(no_mangle)]
pub extern "C" fn winproxy_desk_serve(
    alloc: Global,
    desk: &mut Handle,
    renderer: u16,
    request: &[u8],
    reply: &mut [u8],
    len: &mut usize,
) -> u32
    requires open { IsTrue (is_some desk.old.desk) }
    ensures { Says result (λ answer. spec.Changes desk.old.desk desk.new.desk (λ old new. spec.Serves renderer request.now old new reply.old reply.new len.new answer)) }
{
    desk_handle::serve(alloc, desk, renderer, request, reply, len).number()
}

/// Appends that a renderer is lost.
#[unsafe(no_mangle)]
pub extern "C" fn winproxy_desk_lose(alloc: Global, desk: &mut Handle, renderer: u16) -> u32
    requires open { IsTrue (is_some desk.old.desk) }
    ensures { Says result (λ answer. spec.Changes desk.old.desk desk.new.desk (λ old new. spec.Loses renderer old new answer)) }
{
    desk_handle::lose(alloc, desk, renderer).number()
}

/// How many renderers there are.
#[unsafe(no_mangle)]
pub extern "C" fn winproxy_desk_renderers(alloc: Global, desk: &mut Handle) -> u16
    requires open { IsTrue (is_some desk.old.desk) }
    ensures { spec.Reads desk.old.desk desk.new.desk (λ d. result ≡ d.rules.renderers) }
{
    desk_handle::count_renderers(alloc, desk)
}

/// How many entries the log has.
#[unsafe(no_mangle)]
pub extern "C" fn winproxy_desk_entries(alloc: Global, desk: &mut Handle) -> u32
    requires open { IsTrue (is_some desk.old.desk) }
    ensures { spec.Reads desk.old.desk desk.new.desk (λ d. result ≡ length (log_of d.history)) }
{
    desk_handle::count_entries(alloc, desk)
}

/// How many entries of the log a renderer was told.
#[unsafe(no_mangle)]
pub extern "C" fn winproxy_desk_told(alloc: Global, desk: &mut Handle, renderer: u16) -> u32
    requires open { IsTrue (is_some desk.old.desk) }
    ensures { spec.Reads desk.old.desk desk.new.desk (λ d. result ≡ told_of d.history renderer) }
{
    desk_handle::count_told(alloc, desk, renderer)
}

/// Whether a renderer was lost.
#[unsafe(no_mangle)]
pub extern "C" fn winproxy_desk_is_lost(alloc: Global, desk: &mut Handle, renderer: u16) -> bool
    requires open { IsTrue (is_some desk.old.desk) }
    ensures { spec.Reads desk.old.desk desk.new.desk (λ d. result ≡ is_lost_on renderer (log_of d.history)) }
{
    desk_handle::is_lost(alloc, desk, renderer)
}

/// The line of the log's entry at a place, as a play prints it.
#[unsafe(no_mangle)]
pub extern "C" fn winproxy_desk_line(
    alloc: Global,
    desk: &mut Handle,
    place: u32,
    out: &mut [u8],
    len: &mut usize,
) -> u32
    requires open { IsTrue (is_some desk.old.desk) }
    ensures { Says result (λ answer. spec.Reads desk.old.desk desk.new.desk (λ d. Tells (spec.line_told d place) out.old out.new len.new answer)) }
{
    desk_handle::line(alloc, desk, place, out, len).number()
}

/// Frees the coordinator.
#[unsafe(no_mangle)]
pub extern "C" fn winproxy_desk_free(alloc: Global, desk: &mut Handle)
    requires open { IsTrue (is_some desk.old.desk) }
    ensures closed { IsTrue (is_none desk.new.desk) }
{
    desk_handle::free(alloc, desk)
}
