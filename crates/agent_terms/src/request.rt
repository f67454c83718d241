use origin_core::{Flags, PageUrl};
use plain_data::{Data, Text};
use tree_log::Target;

/// What a renderer asks of the coordinator. `asker` is the document that asks, and `doc` the one that it names.
#[derive(Drop)]
pub enum Request {
    /// The renderer's next task.
    Next,
    /// What happened.
    Sync {
        asker: u32,
    },
    /// A frame in the asker.
    Frame {
        asker: u32,
        name: Text,
        flags: Flags,
        url: Option<PageUrl>,
    },
    /// A frame is taken out of the asker.
    Drop {
        asker: u32,
        nav: u32,
    },
    /// A window is opened or found.
    Open {
        asker: u32,
        url: Option<PageUrl>,
        target: Text,
        noopener: bool,
        user: bool,
    },
    /// A link is followed.
    Link {
        asker: u32,
        url: PageUrl,
        target: Text,
        noopener: bool,
        user: bool,
    },
    /// The document's navigable goes to a URL.
    Go {
        asker: u32,
        doc: u32,
        url: PageUrl,
        user: bool,
    },
    /// The document's navigable gets a name.
    Name {
        asker: u32,
        doc: u32,
        name: Text,
    },
    /// The document's navigable gives up its opener.
    Disown {
        asker: u32,
        doc: u32,
    },
    /// The document's navigable is to close.
    Close {
        asker: u32,
        doc: u32,
        user: bool,
    },
    /// A message for the document.
    Post {
        asker: u32,
        doc: u32,
        target: Target,
        body: Data,
    },
    /// The asker is to have a domain, in ASCII letters of either case.
    Domain {
        asker: u32,
        value: Text,
    },
    /// The rest of what a reply cut short.
    More,
}

/// Why a frame of bytes is none.
#[derive(Clone, Copy, Debug, PartialEq, Eq)]
pub enum Why {
    Version,
    Kind,
    Length,
    Short,
    Text,
    Range,
    Url,
    Tail,
}

/// What the coordinator answers.
#[derive(Drop)]
pub enum ReplyOutcome {
    Done,
    /// A SecurityError by the rule with this number, from 1.
    Security { rule: u8 },
    Null,
    /// The navigable that was made or found.
    Made { nav: u32 },
    /// The entry of the renderer's next task stands at the place.
    Task { place: u32 },
    /// No task waits.
    Nothing,
    /// The asker is no longer active since the entry at the place.
    Unloaded { place: u32 },
    /// The asker isn't a document of this renderer that has been active.
    NotYours { doc: u32, home: Option<u16> },
    /// The bytes are no request.
    BadFrame { place: u32, why: Why },
    /// The log has no room.
    Full { len: u32 },
}
