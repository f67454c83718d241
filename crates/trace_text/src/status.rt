ghost use Rattle.std.specs.Prelude.{◌≡◌, IfOk};
ghost use Rattle.trace_text.specs.StatusText.{status_number, status_words};

use plain_data::Text;
use std::alloc::{AllocError, Global};

/// How a command ended.
#[derive(Clone, Copy, Debug, PartialEq, Eq)]
pub enum Status {
    /// The run came to its end.
    Done,
    /// The words ask for nothing that there is.
    Usage,
    /// The input is too long, or no session.
    Session,
    /// The input couldn't be read.
    Read,
    /// The output couldn't be written.
    Write,
    /// The log had no room for what came next. It has this many entries.
    LogFull(u32),
    /// The record of this renderer had no room for another act.
    ActsFull(u16),
    /// There was no memory.
    Memory,
}

impl Status {
    /// The number of a status: the exit status of the program, from 0 to 7.
    pub fn number(self) -> u8
        ensures { result ≡ status_number self }
    {
        match self {
            Status::Done => 0,
            Status::Usage => 1,
            Status::Session => 2,
            Status::Read => 3,
            Status::Write => 4,
            Status::LogFull(_) => 5,
            Status::ActsFull(_) => 6,
            Status::Memory => 7,
        }
    }
}

/// The line of a status, which is the last one that a command prints. It is empty where the output couldn't be written
/// and where there was no memory.
#[tactic(auto, unfolding(crate::specs::StatusText::status_words))]
pub fn status_text(alloc: Global, status: &Status) -> Result<Text, AllocError>
    ensures { IfOk result (λ text. text ≡ status_words status.now) }
{
    match status {
        Status::Done => Text::copy_of(alloc, "status 0 done\n"),
        Status::Usage => Text::copy_of(alloc, "status 1 usage\n"),
        Status::Session => Text::copy_of(alloc, "status 2 session\n"),
        Status::Read => Text::copy_of(alloc, "status 3 read\n"),
        Status::LogFull(len) => {
            Ok(Text::from_string(format!(in alloc; "status 5 logfull {len}\n")?))
        }
        Status::ActsFull(renderer) => {
            Ok(Text::from_string(format!(in alloc; "status 6 actsfull r{renderer}\n")?))
        }
        Status::Write | Status::Memory => Text::copy_of(alloc, ""),
    }
}
