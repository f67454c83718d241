//! What a pass knows, in proofs alone: no value of these types is made.
use std::collections::LinkedList;

/// Where the owner of a pass is.
pub enum Stage<I> {
    Outside,
    /// With this ticket.
    Waiting(u64),
    /// With this ticket, and the history at entry.
    Inside(u64, LinkedList<I>),
    /// Nowhere: another pass took this one in.
    Spent,
}

/// What a pass knows of its seat and of the history.
pub struct View<I> {
    /// The number of its seat.
    pub number: u64,
    /// At seat 0, how many passes there are.
    pub next: u64,
    pub stage: Stage<I>,
    /// The history as it was when its owner came out last.
    pub seen: LinkedList<I>,
    /// At seat 0, what the passes 1, 2, .. had seen when they were taken in.
    pub kept: LinkedList<LinkedList<I>>,
}
