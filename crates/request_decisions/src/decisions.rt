use agent_terms::ReplyOutcome;
use tree_log::Entry;

/// The entries of a decision.
#[derive(Drop)]
pub enum Made {
    Nothing,
    One(Entry),
    /// Two of them, in the order in which they join the log.
    Two { first: Entry, second: Entry },
}

/// What is decided on a request: entries for the log, and what the asker is answered.
#[derive(Drop)]
pub struct Decided {
    pub entries: Made,
    pub outcome: ReplyOutcome,
}
