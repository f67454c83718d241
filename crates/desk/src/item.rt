use tree_log::Entry;

/// What the history of a coordinator is a list of. Contracts alone speak of it: the coordinator keeps its log, and beside
/// it what it told.
#[derive(Drop)]
pub enum Item {
    /// An entry joined the log.
    Entered(Entry),
    /// A renderer was told the log up to this length.
    Told { renderer: u16, upto: u32 },
}
