ghost use Rattle.std.specs.Prelude.{◌≡◌, slice_index};
ghost use Rattle.link_port.specs.Spelled as spec;

use agent_terms::ReplyOutcome;

/// The kind of a request for the rest of a reply.
const MORE: u8 = 0x0d;

/// The kind of the reply that nothing waits.
const NOTHING: u8 = 0x46;

/// The kinds of the replies that tell no entries: the document isn't the renderer's, or the bytes are no request.
const NOT_YOURS: u8 = 0x48;

const BAD_FRAME: u8 = 0x49;

// The kind of a frame; 0 of less than two bytes.
fn kind_at(frame: &[u8]) -> u8
    ensures { result ≡ spec.kind_at frame.now }
{
    frame.get(1).copied().unwrap_or(0)
}

/// Whether a request asks for the rest of a reply.
pub(crate) fn is_more(request: &[u8]) -> bool
    ensures { result ≡ spec.is_more request.now }
{
    kind_at(request) == MORE
}

/// Whether a reply says that nothing waits.
pub(crate) fn is_nothing(reply: &[u8]) -> bool
    ensures { result ≡ spec.is_nothing reply.now }
{
    kind_at(reply) == NOTHING
}

/// Whether a reply tells entries.
pub(crate) fn tells(reply: &[u8]) -> bool
    ensures { result ≡ spec.tells (spec.kind_at reply.now) }
{
    let kind = kind_at(reply);
    kind != NOT_YOURS && kind != BAD_FRAME
}

// The byte behind the head of a frame; 0 of a shorter one.
fn byte_at(frame: &[u8]) -> u8
    ensures { result ≡ slice_index frame.now 6 }
{
    frame.get(6).copied().unwrap_or(0)
}

// The number of four bytes behind the head of a frame; 0 of a shorter one.
fn number_at(frame: &[u8]) -> u32
    ensures { result ≡ spec.number_at frame.now }
{
    if frame.len() < 10 {
        return 0;
    }
    u32::from_be_bytes([frame[6], frame[7], frame[8], frame[9]])
}

/// The outcome of a reply that tells entries.
pub(crate) fn outcome_at(reply: &[u8]) -> ReplyOutcome
    ensures { result ≡ spec.outcome_at reply.now }
{
    match kind_at(reply) {
        66 => ReplyOutcome::Security {
            rule: byte_at(reply),
        },
        67 => ReplyOutcome::Null,
        68 => ReplyOutcome::Made {
            nav: number_at(reply),
        },
        69 => ReplyOutcome::Task {
            place: number_at(reply),
        },
        70 => ReplyOutcome::Nothing,
        71 => ReplyOutcome::Unloaded {
            place: number_at(reply),
        },
        74 => ReplyOutcome::Full {
            len: number_at(reply),
        },
        _ => ReplyOutcome::Done,
    }
}
