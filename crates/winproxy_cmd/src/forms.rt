ghost use Rattle.std.specs.Prelude.{◌≡◌, ◌⊎◌, List, ℕ, map, IfOk, IfSome, IsSome, Some, None, string_bytes};
ghost use Rattle.std.specs.Io.KnownBytes.{IsAtEnd, Appends, Keeps};
ghost use Rattle.ports.specs.Causes.{Rose, TakesFront};
ghost use Rattle.trace_text.specs.declared.status.Status.{Status as StatusValue};
ghost use Rattle.agent_terms.specs.declared.session.Session.{Session as SessionValue};
ghost use Rattle.winproxy_cmd.specs.Command.{form_named, form_of, IsPlayWord, IsAskedBy, IsInput, HasSession, IsRun, IsRunOrMemory, IsDoneOrMemory, IsRefusalOrMemory, IsRefused, IsSessionText, PrintsLegalRun, PrintsSummary, PlayAnswers, CheckAnswers, CommandAnswers, usage_words};

use crate::output::{checked, refused, run_text, unread};
use ports::{ReadAllError, Sink, Source, read_all, write_all_of};
use session_text::{Session, SessionError, read_session, refusal_text};
use std::alloc::{AllocError, Global};
use trace_text::Status;

/// How many bytes an input has at most: 8 MiB.
pub const LIMIT: u32 = 8_388_608;

/// What is printed where the words ask for nothing that there is.
const USAGE: &str = "usage: winproxy play, race, alike, check or gen N\nstatus 1 usage\n";

/// What a source held.
#[derive(Drop)]
enum Input {
    Session(Session),
    /// No session; the line says why.
    Refused(String),
    /// It couldn't be read.
    Unread,
}

/// Reads the session that the source holds.
fn read_input<S: Source>(alloc: Global, source: &mut S) -> Result<Input, AllocError>
    ensures input { IfOk result (λ input. IsInput (S.left source.old) (S.faults source.old) (S.faults source.new) input) }
    ensures whole { IfOk result (λ input. HasSession input → IsAtEnd (S.left source.new)) }
{
    let bytes = match read_all(alloc, source, LIMIT) {
        Ok(bytes) => bytes,
        Err(ReadAllError::ReadFault) => return Ok(Input::Unread),
        Err(ReadAllError::TooLarge) => {
            return Ok(Input::Refused(String::from_str(alloc, "refused TooLarge\n")?));
        }
        Err(ReadAllError::NoMemory) => return Err(AllocError),
    };
    match read_session(alloc, &bytes) {
        Ok(session) => Ok(Input::Session(session)),
        Err(SessionError::NoMemory) => Err(AllocError),
        Err(refusal) => Ok(Input::Refused(refusal_text(alloc, &refusal)?)),
    }
}

/// The status of a play and what it prints, before anything is written.
fn play_answer<S: Source>(alloc: Global, source: &mut S) -> Result<(Status, String), AllocError>
    ensures answer { IfOk result (λ answer. PlayAnswers (S.left source.old) (S.faults source.old) (S.faults source.new) answer.0 (string_bytes answer.1)) }
    ensures whole { IfOk result (λ answer. IsRun answer.0 → IsAtEnd (S.left source.new)) }
{
    match read_input(alloc, source)? {
        Input::Session(session) => run_text(alloc, &session),
        Input::Refused(refusal) => refused(alloc, refusal),
        Input::Unread => unread(alloc),
    }
}

/// The status of a check and what it prints, before anything is written.
fn check_answer<S: Source>(alloc: Global, source: &mut S) -> Result<(Status, String), AllocError>
    ensures answer { IfOk result (λ answer. CheckAnswers (S.left source.old) (S.faults source.old) (S.faults source.new) answer.0 (string_bytes answer.1)) }
    ensures whole { IfOk result (λ answer. answer.0 ≡ Status.Done → IsAtEnd (S.left source.new)) }
{
    match read_input(alloc, source)? {
        Input::Session(session) => checked(alloc, &session),
        Input::Refused(refusal) => refused(alloc, refusal),
        Input::Unread => unread(alloc),
    }
}

/// Prints the text: the status, or `Write` where the sink is at fault.
fn print<K: Sink>(sink: &mut K, status: Status, text: &str) -> Status
    ensures either { (result ≡ Status.Write) ⊎ (result ≡ status) }
    ensures write { result ≡ Status.Write → (status ≡ Status.Write → ⊥) → Rose (K.faults sink.old) (K.faults sink.new) }
    ensures front { result ≡ Status.Write → (status ≡ Status.Write → ⊥) → TakesFront (K.taken sink.old) (K.taken sink.new) text.now }
    ensures text { (result ≡ Status.Write → ⊥) → Appends (K.taken sink.old) (K.taken sink.new) text.now }
{
    match write_all_of(sink, text.as_bytes()) {
        Ok(()) => status,
        Err(_) => Status::Write,
    }
}

/// Reads a session from the source, plays it, and prints its log, the record of each renderer and a status line to
/// the sink. The text is built whole before the first write.
///
/// # Statuses
///
/// `Done` comes where the session was played to its end, `LogFull` and `ActsFull` where a turn met a limit of the log or
/// of a record. `Session` comes exactly where the input has more than [`LIMIT`] bytes or is no session; `refused` and the
/// reason are printed before the status line. `Read` comes only where the source's count of faults rose, `Write` only
/// where the sink's rose. `Memory` comes where there was none; then nothing is printed.
pub fn play<S: Source, K: Sink>(alloc: Global, source: &mut S, sink: &mut K) -> Status
    // The sink took the text of a legal log of the session that the source had, of the legal records against that log,
    // and of the status, which says how the turns end: a limit stops them exactly at a turn that meets it.
    ensures headline { IsRun result → PrintsLegalRun (S.left source.old) result (K.taken sink.old) (K.taken sink.new) }
    ensures whole { IsRun result → IsAtEnd (S.left source.new) }
    ensures usage { result ≡ Status.Usage → ⊥ }
    ensures session { result ≡ Status.Session → IfSome (S.left source.old) IsRefused }
    ensures read { result ≡ Status.Read → Rose (S.faults source.old) (S.faults source.new) }
    ensures write { result ≡ Status.Write → Rose (K.faults sink.old) (K.faults sink.new) }
    // All that was printed is the text of an answer, a front of one, or nothing.
    ensures text { (result ≡ Status.Write → ⊥) → (result ≡ Status.Memory → ⊥) → (text : List ℕ)
        × PlayAnswers (S.left source.old) (S.faults source.old) (S.faults source.new) result text × Appends (K.taken sink.old) (K.taken sink.new) text }
    ensures front { result ≡ Status.Write → (status : StatusValue) × (text : List ℕ)
        × PlayAnswers (S.left source.old) (S.faults source.old) (S.faults source.new) status text × TakesFront (K.taken sink.old) (K.taken sink.new) text }
    ensures nothing { result ≡ Status.Memory → Keeps (K.taken sink.old) (K.taken sink.new) }
    // Where nothing is at fault, a session is played to its end or to a limit, and what is none is refused, unless there
    // is no memory.
    ensures complete { (bytes : List ℕ) (session : SessionValue) → S.left source.old ≡ Some bytes → IsSessionText bytes session
        → (Rose (S.faults source.old) (S.faults source.new) → ⊥) → (Rose (K.faults sink.old) (K.faults sink.new) → ⊥) → IsRunOrMemory result }
    ensures refuses { (bytes : List ℕ) → S.left source.old ≡ Some bytes → IsRefused bytes
        → (Rose (S.faults source.old) (S.faults source.new) → ⊥) → (Rose (K.faults sink.old) (K.faults sink.new) → ⊥) → IsRefusalOrMemory result }
{
    match play_answer(alloc, source) {
        Ok((status, text)) => print(sink, status, text.as_str()),
        Err(_) => Status::Memory,
    }
}

/// Reads a session from the source without playing it, and prints to the sink how many renderers, start windows, pages
/// and steps it has, and a status line. The text is built whole before the first write.
///
/// # Statuses
///
/// `Done` comes where the input is a session. All others are those of [`play`], but for the limits, which no check meets.
pub fn check<S: Source, K: Sink>(alloc: Global, source: &mut S, sink: &mut K) -> Status
    // The sink took the line on the session that the source had, and the status.
    ensures summary { result ≡ Status.Done → PrintsSummary (S.left source.old) (K.taken sink.old) (K.taken sink.new) }
    ensures limits { IsRun result → result ≡ Status.Done }
    ensures whole { result ≡ Status.Done → IsAtEnd (S.left source.new) }
    ensures usage { result ≡ Status.Usage → ⊥ }
    ensures session { result ≡ Status.Session → IfSome (S.left source.old) IsRefused }
    ensures read { result ≡ Status.Read → Rose (S.faults source.old) (S.faults source.new) }
    ensures write { result ≡ Status.Write → Rose (K.faults sink.old) (K.faults sink.new) }
    // All that was printed is the text of an answer, a front of one, or nothing.
    ensures text { (result ≡ Status.Write → ⊥) → (result ≡ Status.Memory → ⊥) → (text : List ℕ)
        × CheckAnswers (S.left source.old) (S.faults source.old) (S.faults source.new) result text × Appends (K.taken sink.old) (K.taken sink.new) text }
    ensures front { result ≡ Status.Write → (status : StatusValue) × (text : List ℕ)
        × CheckAnswers (S.left source.old) (S.faults source.old) (S.faults source.new) status text × TakesFront (K.taken sink.old) (K.taken sink.new) text }
    ensures nothing { result ≡ Status.Memory → Keeps (K.taken sink.old) (K.taken sink.new) }
    // Where nothing is at fault, the line on a session is printed, and what is none is refused, unless there is no memory.
    ensures complete { (bytes : List ℕ) (session : SessionValue) → S.left source.old ≡ Some bytes → IsSessionText bytes session
        → (Rose (S.faults source.old) (S.faults source.new) → ⊥) → (Rose (K.faults sink.old) (K.faults sink.new) → ⊥) → IsDoneOrMemory result }
    ensures refuses { (bytes : List ℕ) → S.left source.old ≡ Some bytes → IsRefused bytes
        → (Rose (S.faults source.old) (S.faults source.new) → ⊥) → (Rose (K.faults sink.old) (K.faults sink.new) → ⊥) → IsRefusalOrMemory result }
{
    match check_answer(alloc, source) {
        Ok((status, text)) => print(sink, status, text.as_str()),
        Err(_) => Status::Memory,
    }
}

/// What a command does with the session that its input is.
#[derive(Clone, Copy, Debug, PartialEq, Eq)]
pub enum Form {
    /// It plays the session.
    Play,
    /// It tells what the session has.
    Check,
}

/// The form that a word names.
#[tactic(auto, unfolding(crate::specs::Command::form_named))]
fn form_named(word: &str) -> Option<Form>
    ensures { result ≡ form_named word.now }
{
    match word {
        "play" => Some(Form::Play),
        "check" => Some(Form::Check),
        _ => None,
    }
}

/// The form of a command that the words ask for: with the one word `play` to play, with the one word `check` to check,
/// and nothing with any others.
pub fn form_of(words: &[String]) -> Option<Form>
    ensures { result ≡ form_of (map string_bytes words.now) }
{
    match words {
        [word] => form_named(word.as_str()),
        _ => None,
    }
}

/// Does what the words ask for, the program's name left out. What it reads comes from the source, and all that it
/// prints goes to the sink: with the one word `play` it does what [`play`] does, and with `check` what [`check`] does.
///
/// # Statuses
///
/// `Usage` comes exactly where the words ask for nothing that there is, unless the sink is at fault; then the input
/// isn't read, and no memory is taken. All others are those of [`play`] and of [`check`].
pub fn command<S: Source, K: Sink>(
    alloc: Global,
    words: &[String],
    source: &mut S,
    sink: &mut K,
) -> Status
    // The sink took the text of a legal log of the session that the source had, of the legal records against that log,
    // and of the status, which says how the turns end: a limit stops them exactly at a turn that meets it.
    ensures headline { IsPlayWord (map string_bytes words.now) → IsRun result → PrintsLegalRun (S.left source.old) result (K.taken sink.old) (K.taken sink.new) }
    // The sink took the line on the session that the source had, and the status.
    ensures summary { form_of (map string_bytes words.now) ≡ Some Form.Check → result ≡ Status.Done → PrintsSummary (S.left source.old) (K.taken sink.old) (K.taken sink.new) }
    ensures whole { IsRun result → IsAtEnd (S.left source.new) }
    ensures run { IsAskedBy (form_of (map string_bytes words.now)) result }
    ensures usage { result ≡ Status.Usage → form_of (map string_bytes words.now) ≡ None }
    ensures else_usage { form_of (map string_bytes words.now) ≡ None → (result ≡ Status.Usage) ⊎ (result ≡ Status.Write) }
    ensures unread { form_of (map string_bytes words.now) ≡ None → S.left source.new ≡ S.left source.old }
    ensures session { result ≡ Status.Session → IsSome (form_of (map string_bytes words.now)) × IfSome (S.left source.old) IsRefused }
    ensures read { result ≡ Status.Read → IsSome (form_of (map string_bytes words.now)) × Rose (S.faults source.old) (S.faults source.new) }
    ensures write { result ≡ Status.Write → Rose (K.faults sink.old) (K.faults sink.new) }
    // All that was printed is the text of an answer, a front of one, or nothing.
    ensures text { (result ≡ Status.Write → ⊥) → (result ≡ Status.Memory → ⊥) → (text : List ℕ)
        × CommandAnswers (form_of (map string_bytes words.now)) (S.left source.old) (S.faults source.old) (S.faults source.new) result text × Appends (K.taken sink.old) (K.taken sink.new) text }
    ensures front { result ≡ Status.Write → (status : StatusValue) × (text : List ℕ)
        × CommandAnswers (form_of (map string_bytes words.now)) (S.left source.old) (S.faults source.old) (S.faults source.new) status text × TakesFront (K.taken sink.old) (K.taken sink.new) text }
    ensures nothing { result ≡ Status.Memory → Keeps (K.taken sink.old) (K.taken sink.new) }
    // Where nothing is at fault, a session is played to its end or to a limit, or its line printed, and what is none is
    // refused, unless there is no memory.
    ensures complete { form_of (map string_bytes words.now) ≡ Some Form.Play → (bytes : List ℕ) (session : SessionValue) → S.left source.old ≡ Some bytes → IsSessionText bytes session
        → (Rose (S.faults source.old) (S.faults source.new) → ⊥) → (Rose (K.faults sink.old) (K.faults sink.new) → ⊥) → IsRunOrMemory result }
    ensures complete_check { form_of (map string_bytes words.now) ≡ Some Form.Check → (bytes : List ℕ) (session : SessionValue) → S.left source.old ≡ Some bytes → IsSessionText bytes session
        → (Rose (S.faults source.old) (S.faults source.new) → ⊥) → (Rose (K.faults sink.old) (K.faults sink.new) → ⊥) → IsDoneOrMemory result }
    ensures refuses { IsSome (form_of (map string_bytes words.now)) → (bytes : List ℕ) → S.left source.old ≡ Some bytes → IsRefused bytes
        → (Rose (S.faults source.old) (S.faults source.new) → ⊥) → (Rose (K.faults sink.old) (K.faults sink.new) → ⊥) → IsRefusalOrMemory result }
{
    match form_of(words) {
        Some(Form::Play) => play(alloc, source, sink),
        Some(Form::Check) => check(alloc, source, sink),
        None => print(sink, Status::Usage, USAGE),
    }
}
