ghost use Rattle.std.specs.Prelude.{◌≡◌};
ghost use Rattle.byte_answers.specs.Answers as spec;

/// What a call answers.
#[derive(Clone, Copy, Debug, PartialEq, Eq)]
pub enum Answer {
    /// What was asked is done.
    Done,
    /// Memory ran out.
    NoMemory,
    /// The caller's buffer is too short.
    NoRoom,
    /// Bytes that have to be a text aren't UTF-8.
    NotText,
    /// A text is no URL that a page can have.
    NotAUrl,
    /// A URL is neither http nor https nor `about:blank`.
    SchemeOut,
    /// A number is out of range, or a call isn't possible any more.
    OutOfRange,
    /// Bytes are no frame.
    BadFrame,
}

impl Answer {
    /// The number of the answer, from 0.
    #[tactic(auto, unfolding(crate::specs::Answers::number_of))]
    pub fn number(self) -> u32
        ensures { result ≡ spec.number_of self }
    {
        match self {
            Answer::Done => 0,
            Answer::NoMemory => 1,
            Answer::NoRoom => 2,
            Answer::NotText => 3,
            Answer::NotAUrl => 4,
            Answer::SchemeOut => 5,
            Answer::OutOfRange => 6,
            Answer::BadFrame => 7,
        }
    }
}
