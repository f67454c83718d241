/// That a renderer was told the log up to a length.
#[derive(Clone, Copy, Debug, Drop)]
pub(crate) struct Telling {
    pub renderer: u16,
    pub upto: u32,
    /// How long the log was then.
    pub at: u32,
}
