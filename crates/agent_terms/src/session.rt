use crate::step::Step;
use origin_core::{HostText, PageUrl};
use plain_data::Items;

/// A page: what a document runs that was loaded from its URL, whatever the fragment.
#[derive(Drop)]
pub struct Page {
    /// An http or https URL without fragment.
    pub url: PageUrl,
    /// What runs once the document is active.
    pub script: Items<Step>,
    /// What runs at each message.
    pub handler: Items<Step>,
}

/// The loss of a renderer that a session wants: which of its exchanges with the coordinator fails.
#[derive(Clone, Copy, Debug, PartialEq, Eq)]
pub struct Lose {
    pub renderer: u16,
    /// The number of the exchange, from 1, among those that give an act.
    pub call: u32,
    /// Whether the coordinator serves it before the link fails.
    pub served: bool,
}

/// A session: renderers, the windows that are open at the start, and the pages that there are.
#[derive(Drop)]
pub struct Session {
    /// The number of renderers.
    pub renderers: u16,
    /// The public suffixes.
    pub suffixes: Items<HostText>,
    /// The URLs that the start windows load, in order.
    pub start: Items<PageUrl>,
    /// Whose turns come first: numbers of renderers. After them each renderer has a turn in each round.
    pub order: Items<u16>,
    /// The renderers that are lost, each at most once.
    pub lose: Items<Lose>,
    pub pages: Items<Page>,
}
