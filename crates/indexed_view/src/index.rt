// Beside the rows of a view: where each navigable stands, which were discarded, and the children of each document.
use crate::families::Family;
use std::alloc::Global;

/// Where a navigable stands.
#[derive(Clone, Copy)]
pub struct Place {
    /// The document that embeds it, if one does.
    pub(crate) embedder: Option<u32>,
    /// The top-level navigable above it, be it discarded or not.
    pub(crate) top: u32,
}

/// What is looked up without a walk.
#[derive(Drop)]
pub struct Index {
    pub(crate) alloc: Global,
    pub(crate) places: Vec<Place>,
    /// Whether each navigable was discarded.
    pub(crate) marks: Vec<bool>,
    pub(crate) families: Vec<Family>,
    /// Navigables that wait to be marked.
    pub(crate) queue: Vec<u32>,
}
