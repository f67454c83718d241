ghost use Rattle.std.specs.Prelude.{◌≡◌, ◌++◌, OnOk, IfOk, string_bytes, reverse};
ghost use Rattle.std.specs.List.{flat_map};
ghost use Rattle.trace_text.specs.RecordText.{record_words};
ghost use Rattle.session_text.specs.Range.{IsInRange};
ghost use Rattle.session_text.specs.Summary.{summary_words};
ghost use Rattle.trace_text.specs.StatusText.{status_words};
ghost use Rattle.winproxy_cmd.specs.Command.{IsRunOf, status_of};

use agent_terms::{Ending, Session};
use session_player::{Replica, Worker};
use session_text::summary_text;
use std::alloc::{AllocError, Global};
use trace_text::{Status, log_text, record_text, status_text};
use tree_view::PlainView;

/// The status of a play that ended so, with a log of this length.
fn status_of(ending: Ending, entries: u32) -> Status
    ensures { result ≡ status_of ending entries }
{
    match ending {
        Ending::Done => Status::Done,
        Ending::LogFull => Status::LogFull(entries),
        Ending::ActsFull { renderer } => Status::ActsFull(renderer),
    }
}

/// Adds the records of the workers.
fn push_records<V: Replica>(
    alloc: Global,
    out: &mut String,
    workers: &[Worker<V>],
) -> Result<(), AllocError>
    ensures { OnOk result (string_bytes out.new ≡ string_bytes out.old ++ flat_map (λ worker. record_words worker.renderer (reverse worker.acts.items)) workers.now) }
{
    'workers: for worker in workers {
        let record = record_text(alloc, worker.renderer, &worker.acts)?;
        out.push_str(record.as_str())?;
    }
    Ok(())
}

/// Plays a session: the status, and the text that is printed.
pub(crate) fn run_text(alloc: Global, session: &Session) -> Result<(Status, String), AllocError>
    requires range { IsInRange session.now }
    ensures run { IfOk result (λ run. IsRunOf session.now run.0 (string_bytes run.1)) }
{
    let run = session_player::play::<PlainView>(alloc, session)?;
    let status = status_of(run.ending, run.desk.log.len());
    let mut out = String::new(alloc);
    out.push_str(log_text(alloc, &run.desk.log)?.as_str())?;
    push_records(alloc, &mut out, &run.workers)?;
    out.push_str(status_text(alloc, &status)?.as_str())?;
    Ok((status, out))
}

/// The answer of a check to a session.
pub(crate) fn checked(alloc: Global, session: &Session) -> Result<(Status, String), AllocError>
    requires range { IsInRange session.now }
    ensures { IfOk result (λ answer. (answer.0 ≡ Status.Done) × (string_bytes answer.1 ≡ summary_words session.now ++ status_words Status.Done)) }
{
    let mut out = summary_text(alloc, session)?;
    out.push_str(status_text(alloc, &Status::Done)?.as_str())?;
    Ok((Status::Done, out))
}

/// The answer to an input that is refused with this line.
pub(crate) fn refused(alloc: Global, refusal: String) -> Result<(Status, String), AllocError>
    ensures { IfOk result (λ answer. (answer.0 ≡ Status.Session) × (string_bytes answer.1 ≡ string_bytes refusal ++ status_words Status.Session)) }
{
    let mut out = refusal;
    out.push_str(status_text(alloc, &Status::Session)?.as_str())?;
    Ok((Status::Session, out))
}

/// The answer where the input couldn't be read.
pub(crate) fn unread(alloc: Global) -> Result<(Status, String), AllocError>
    ensures { IfOk result (λ answer. (answer.0 ≡ Status.Read) × (string_bytes answer.1 ≡ status_words Status.Read)) }
{
    let line = status_text(alloc, &Status::Read)?;
    Ok((Status::Read, String::from_str(alloc, line.as_str())?))
}
