// The limits of sessions. The contracts of those that test them cite the limits of the definitions.

pub(crate) const MAX_RENDERERS: u64 = 16;

pub(crate) const MAX_STARTS: usize = 64;

pub(crate) const MAX_TURNS: usize = 20_000;

pub(crate) const MAX_PAGES: usize = 1000;

// Of a script, and of a handler.
pub(crate) const MAX_STEPS: usize = 200;

// Of a call.
pub(crate) const MAX_ARGS: usize = 2;

// Of a frame in its document.
pub(crate) const MAX_INDEX: u64 = 20_000;

// Of the name of a register.
pub(crate) const MAX_LETTERS: usize = 16;

// How many bytes a public suffix has.
pub(crate) const MAX_SUFFIX: usize = 253;
