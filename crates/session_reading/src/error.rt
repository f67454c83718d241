ghost use Rattle.std.specs.Prelude.{◌≡◌, [], IfOk, string_bytes};
ghost use Rattle.session_reading.specs.PathText.{refusal_words, placed_words};
ghost use Rattle.session_reading.specs.Refusing.{IsPlacedOrNoMemory};
ghost use Rattle.session_reading.specs.declared.path.Segment.TheVariants.{Named, At};

use crate::path::{Path, Segment, path_text};
use plain_data::Text;
use std::alloc::{AllocError, AllocFailed, Global};
use thiserror::Error;

/// Why no session was read. The path leads to the first place that doesn't fit.
#[derive(Debug, Drop, Error)]
pub enum SessionError {
    /// There was no memory.
    #[error("out of memory")]
    NoMemory,
    /// The bytes are no JSON text: not UTF-8, not of JSON's grammar (RFC 8259), nested more than 127 deep, or with
    /// a number too large for a float or an escaped half of a surrogate pair.
    #[error("not JSON")]
    NotJson,
    /// An object lacks a field that it must have.
    #[error("a field is missing")]
    Missing(Path),
    /// A value is of another kind than its place holds.
    #[error("a value of the wrong kind")]
    WrongKind(Path),
    /// A number, a length, a text or a URL is out of its range, or a page stands twice.
    #[error("a value out of its range")]
    OutOfRange(Path),
    /// A step is none of those that there are, or sessions may not have it yet.
    #[error("an unknown step")]
    UnknownStep(Path),
    /// An object has a field that it must not have.
    #[error("an unknown field")]
    UnknownField(Path),
}

impl From<AllocError> for SessionError {
    ghost use Rattle.std.specs.Prelude.{◌≡◌};
    ghost use Rattle.session_reading.specs.declared.error.SessionError.TheVariants.{NoMemory};

    ghost from_gives = { λ _ e. e ≡ NoMemory };

    fn from(_refused: AllocError) -> SessionError {
        SessionError::NoMemory
    }
}

impl<T: Drop> From<AllocFailed<T>> for SessionError {
    ghost use Rattle.std.specs.Prelude.{◌≡◌};
    ghost use Rattle.session_reading.specs.declared.error.SessionError.TheVariants.{NoMemory};

    ghost from_gives = { λ _ e. e ≡ NoMemory };

    fn from(_refused: AllocFailed<T>) -> SessionError {
        SessionError::NoMemory
    }
}

impl SessionError {
    /// The same refusal, seen from one step higher.
    pub(crate) fn under(self, segment: Segment) -> SessionError
        ensures { IsPlacedOrNoMemory segment self result }
    {
        match self {
            SessionError::NoMemory => SessionError::NoMemory,
            SessionError::NotJson => SessionError::NotJson,
            SessionError::Missing(path) => match path.under(segment) {
                Ok(path) => SessionError::Missing(path),
                Err(_) => SessionError::NoMemory,
            },
            SessionError::WrongKind(path) => match path.under(segment) {
                Ok(path) => SessionError::WrongKind(path),
                Err(_) => SessionError::NoMemory,
            },
            SessionError::OutOfRange(path) => match path.under(segment) {
                Ok(path) => SessionError::OutOfRange(path),
                Err(_) => SessionError::NoMemory,
            },
            SessionError::UnknownStep(path) => match path.under(segment) {
                Ok(path) => SessionError::UnknownStep(path),
                Err(_) => SessionError::NoMemory,
            },
            SessionError::UnknownField(path) => match path.under(segment) {
                Ok(path) => SessionError::UnknownField(path),
                Err(_) => SessionError::NoMemory,
            },
        }
    }

    /// The same refusal, seen from the object whose field it is about.
    pub fn in_field(self, alloc: Global, name: &str) -> SessionError
        ensures { IsPlacedOrNoMemory (Named name.now) self result }
    {
        match Text::copy_of(alloc, name) {
            Ok(name) => self.under(Segment::Named(name)),
            Err(_) => SessionError::NoMemory,
        }
    }

    /// The same refusal, seen from the list whose item it is about.
    pub(crate) fn in_item(self, index: usize) -> SessionError
        ensures { IsPlacedOrNoMemory (At index) self result }
    {
        self.under(Segment::At(index))
    }
}

/// The refusal of an object without a field that it must have, at the field's own place.
pub fn missing(alloc: Global) -> SessionError
    ensures { result ≡ SessionError.Missing [] }
{
    SessionError::Missing(Path::here(alloc))
}

/// The refusal of a value of another kind than its place holds, at its own place.
pub fn wrong_kind(alloc: Global) -> SessionError
    ensures { result ≡ SessionError.WrongKind [] }
{
    SessionError::WrongKind(Path::here(alloc))
}

/// The refusal of a value out of its range, at its own place.
pub fn out_of_range(alloc: Global) -> SessionError
    ensures { result ≡ SessionError.OutOfRange [] }
{
    SessionError::OutOfRange(Path::here(alloc))
}

/// The refusal of a step that there isn't, at its own place.
pub fn unknown_step(alloc: Global) -> SessionError
    ensures { result ≡ SessionError.UnknownStep [] }
{
    SessionError::UnknownStep(Path::here(alloc))
}

/// The refusal of a field that an object must not have, at the field's own place.
pub fn unknown_field(alloc: Global) -> SessionError
    ensures { result ≡ SessionError.UnknownField [] }
{
    SessionError::UnknownField(Path::here(alloc))
}

/// The line that says why a text is refused, as `refused Missing start`, with a line feed; nothing for `NoMemory`.
pub fn refusal_text(alloc: Global, refusal: &SessionError) -> Result<String, AllocError>
    ensures { IfOk result (λ s. string_bytes s ≡ refusal_words refusal.now) }
{
    match refusal {
        SessionError::NoMemory => Ok(String::new(alloc)),
        SessionError::NotJson => String::from_str(alloc, "refused NotJson\n"),
        SessionError::Missing(path) => placed_text(alloc, "Missing", path),
        SessionError::WrongKind(path) => placed_text(alloc, "WrongKind", path),
        SessionError::OutOfRange(path) => placed_text(alloc, "OutOfRange", path),
        SessionError::UnknownStep(path) => placed_text(alloc, "UnknownStep", path),
        SessionError::UnknownField(path) => placed_text(alloc, "UnknownField", path),
    }
}

fn placed_text(alloc: Global, kind: &str, path: &Path) -> Result<String, AllocError>
    ensures { IfOk result (λ s. string_bytes s ≡ placed_words kind.now path.now) }
{
    let place = path_text(alloc, path)?;
    format!(in alloc; "refused {kind} {place}\n")
}
