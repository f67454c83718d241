ghost use Rattle.std.specs.Prelude.{◌≡◌};
ghost use Rattle.byte_frames.specs.Numbers as spec;

use agent_terms::{ReplyOutcome, Request};
use link_wire::{Bad, Reply, outcome_kind, why_number};

/// The numbers of a request; 0 and false where its kind has no such one.
#[repr(C)]
#[derive(Clone, Copy, Drop)]
pub struct RequestNumbers {
    /// Its kind, 1 to 13.
    pub kind: u8,
    pub noopener: bool,
    /// Whether the user acted.
    pub user: bool,
    /// The sandboxing flags of a new frame, as the sum of their bits.
    pub flags: u16,
    /// The document that asks.
    pub asker: u32,
    /// The document that it is about; where a frame is dropped its navigable.
    pub number: u32,
}

/// Where bytes are no frame, counted from the first one, and why.
#[repr(C)]
#[derive(Clone, Copy, Drop)]
pub struct FrameFault {
    pub place: u32,
    /// The number of the reason, 0 to 7.
    pub why: u8,
}

/// The numbers of a reply; 0 and false where its kind has no such one.
#[repr(C)]
#[derive(Clone, Copy, Drop)]
pub struct ReplyNumbers {
    /// The kind of its outcome, 65 to 74.
    pub kind: u8,
    /// The number of the rule, or of the reason why bytes are no frame.
    pub code: u8,
    /// Whether there is a home.
    pub has_home: bool,
    /// Whether there are entries behind those that are told.
    pub more: bool,
    /// The renderer where the document lives that isn't the asker's.
    pub home: u16,
    /// The navigable, the place, the document or the log's length that the outcome is about.
    pub number: u32,
    /// The place of the first entry that is told.
    pub from: u32,
    /// How many entries are told.
    pub count: usize,
}

fn plain(kind: u8, asker: u32, number: u32) -> RequestNumbers
    ensures { result ≡ spec.plain kind asker number }
{
    RequestNumbers {
        kind,
        noopener: false,
        user: false,
        flags: 0,
        asker,
        number,
    }
}

fn chosen(kind: u8, asker: u32, number: u32, noopener: bool, user: bool) -> RequestNumbers
    ensures { result ≡ spec.chosen kind asker number noopener user }
{
    RequestNumbers {
        kind,
        noopener,
        user,
        flags: 0,
        asker,
        number,
    }
}

/// The numbers of a request.
pub(crate) fn numbers_of(request: &Request) -> RequestNumbers
    ensures { result ≡ spec.numbers_of request.now }
{
    match request {
        Request::Next => plain(1, 0, 0),
        Request::Sync { asker } => plain(2, *asker, 0),
        Request::Frame { asker, flags, .. } => RequestNumbers {
            kind: 3,
            noopener: false,
            user: false,
            flags: flags.bits(),
            asker: *asker,
            number: 0,
        },
        Request::Drop { asker, nav } => plain(4, *asker, *nav),
        Request::Open {
            asker,
            noopener,
            user,
            ..
        } => chosen(5, *asker, 0, *noopener, *user),
        Request::Link {
            asker,
            noopener,
            user,
            ..
        } => chosen(6, *asker, 0, *noopener, *user),
        Request::Go {
            asker,
            doc,
            user,
            ..
        } => chosen(7, *asker, *doc, false, *user),
        Request::Name { asker, doc, .. } => plain(8, *asker, *doc),
        Request::Disown { asker, doc } => plain(9, *asker, *doc),
        Request::Close { asker, doc, user } => chosen(10, *asker, *doc, false, *user),
        Request::Post { asker, doc, .. } => plain(11, *asker, *doc),
        Request::Domain { asker, .. } => plain(12, *asker, 0),
        Request::More => plain(13, 0, 0),
    }
}

/// Where and why bytes are no frame.
pub(crate) fn fault_of(bad: Bad) -> FrameFault
    ensures { result ≡ spec.fault_of bad }
{
    FrameFault {
        place: bad.place,
        why: why_number(bad.why),
    }
}

// The number that an outcome is about.
fn number_of(outcome: &ReplyOutcome) -> u32
    ensures { result ≡ spec.number_of outcome.now }
{
    match outcome {
        ReplyOutcome::Made { nav } => *nav,
        ReplyOutcome::Task { place } => *place,
        ReplyOutcome::Unloaded { place } => *place,
        ReplyOutcome::NotYours { doc, .. } => *doc,
        ReplyOutcome::BadFrame { place, .. } => *place,
        ReplyOutcome::Full { len } => *len,
        _ => 0,
    }
}

// The rule, or the reason why bytes are no frame.
fn code_of(outcome: &ReplyOutcome) -> u8
    ensures { result ≡ spec.code_of outcome.now }
{
    match outcome {
        ReplyOutcome::Security { rule } => *rule,
        ReplyOutcome::BadFrame { why, .. } => why_number(*why),
        _ => 0,
    }
}

// The home of a document that isn't the asker's.
fn home_of(outcome: &ReplyOutcome) -> Option<u16>
    ensures { result ≡ spec.home_of outcome.now }
{
    match outcome {
        ReplyOutcome::NotYours { home, .. } => *home,
        _ => None,
    }
}

fn home_or_zero(home: Option<u16>) -> u16
    ensures { result ≡ spec.home_or_zero home }
{
    match home {
        Some(home) => home,
        None => 0,
    }
}

/// The numbers of a reply, with so many entries.
pub(crate) fn numbers_of_reply(
    outcome: &ReplyOutcome,
    from: u32,
    more: bool,
    count: usize,
) -> ReplyNumbers
    ensures { result ≡ spec.numbers_of_parts outcome.now from more count }
{
    let home = home_of(outcome);
    ReplyNumbers {
        kind: outcome_kind(outcome),
        code: code_of(outcome),
        has_home: home.is_some(),
        more,
        home: home_or_zero(home),
        number: number_of(outcome),
        from,
        count,
    }
}
