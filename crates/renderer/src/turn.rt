/// What a step of a renderer did.
#[derive(Clone, Copy, Debug, PartialEq, Eq)]
pub enum Turn {
    /// It added an act other than a lost one.
    Acted,
    /// No step was left, and no task waited.
    Idle,
    /// The link failed, in this step or in an earlier one.
    Stopped,
    /// The log had no room. It has so many entries.
    Full { len: u32 },
    /// The record has as many acts as it may have.
    ActsFull,
    /// The link gave bytes that are no reply to the request, first at that place. The act is lost.
    BadReply { place: u32 },
}
