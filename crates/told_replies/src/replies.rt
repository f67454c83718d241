ghost use Rattle.std.specs.Prelude.{◌≡◌, ◌<◌, ◌^◌, ◌++◌, length, IfOk};
ghost use Rattle.coordinator_rules.specs.Told.{news_from};
ghost use Rattle.frame_grammar.specs.Cut as spec;
ghost use Rattle.frame_grammar.specs.Cut.{reply_telling};
ghost use Rattle.link_wire.specs.Replies.{reply_frame};
ghost use Rattle.request_decisions.specs.Made.{entries_of};
ghost use Rattle.tree_log.specs.Admits.{AreAdmitted};
ghost use Rattle.tree_log.specs.Tree.{tree_of};

use crate::entries::entry_at;
use crate::telling::tell;
use agent_terms::ReplyOutcome;
use reply_writing::ReplyWriter;
use request_decisions::Made;
use std::alloc::{AllocError, Global};
use tree_log::Log;
use tree_view::View;

/// A reply's frame, and how many entries it tells.
#[derive(Drop)]
pub struct Written {
    pub frame: Vec<u8>,
    pub told: u32,
}

/// The reply of an outcome, which tells a renderer the log from a place on: each entry as the renderer may know it, as many
/// of the first as there is room for. The entries of a decision that is still to join the log are the newest.
///
/// The view is one of the log with them. No entry is copied but into the frame; memory is taken beside it only for the URLs
/// that take the place of those that the renderer may not know.
#[tactic(auto, using(crate::proofs::Steps::telling, crate::proofs::Steps::silent))]
pub fn write_reply<V: View>(
    alloc: Global,
    log: &Log,
    made: &Made,
    view: &V,
    renderer: u16,
    from: u32,
    outcome: &ReplyOutcome,
) -> Result<Written, AllocError>
    requires tree { V.tree view.now ≡ tree_of (entries_of made.now ++ log.now.entries) }
    requires admitted { AreAdmitted (entries_of made.now ++ log.now.entries) }
    requires few { length log.now.entries < 2 ^ 30 }
    ensures frame { IfOk result (λ w. w.frame.items ≡ reply_frame (reply_telling outcome.now from (news_from renderer from (entries_of made.now ++ log.now.entries)))) }
    ensures told { IfOk result (λ w. w.told ≡ length (reply_telling outcome.now from (news_from renderer from (entries_of made.now ++ log.now.entries))).news) }
{
    if is_telling(outcome) {
        let writer = tell_from(alloc, log, made, view, renderer, from, outcome)?;
        Ok(finish(writer))
    } else {
        let writer = ReplyWriter::new(alloc, outcome, 0)?;
        Ok(finish(writer))
    }
}

/// The frame of a reply, and the count of its news.
fn finish(writer: ReplyWriter) -> Written
    ensures frame { result.frame.items ≡ reply_frame writer }
    ensures told { result.told ≡ length writer.news }
{
    let told = writer.told();
    Written {
        frame: writer.finish(),
        told,
    }
}

/// Nothing is told to a renderer whose document didn't ask, or whose bytes are no request.
fn is_telling(outcome: &ReplyOutcome) -> bool
    ensures { result ≡ spec.is_telling outcome.now }
{
    match outcome {
        ReplyOutcome::NotYours { .. } | ReplyOutcome::BadFrame { .. } => false,
        _ => true,
    }
}

/// The reply, with the entries from a place on for which it has room.
fn tell_from<V: View>(
    alloc: Global,
    log: &Log,
    made: &Made,
    view: &V,
    renderer: u16,
    from: u32,
    outcome: &ReplyOutcome,
) -> Result<ReplyWriter, AllocError>
    requires tree { V.tree view.now ≡ tree_of (entries_of made.now ++ log.now.entries) }
    requires admitted { AreAdmitted (entries_of made.now ++ log.now.entries) }
    requires few { length log.now.entries < 2 ^ 30 }
    ensures { IfOk result (λ w. w ≡ spec.cut_reply outcome.now from (news_from renderer from (entries_of made.now ++ log.now.entries))) }
{
    let mut writer = ReplyWriter::new(alloc, outcome, from)?;
    let mut place = from;
    while let Some(entry) = entry_at(log, made, place) {
        let next = tell(alloc, writer, view, renderer, entry)?;
        writer = next.writer;
        if !next.told {
            return Ok(writer);
        }
        place += 1;
    }
    Ok(writer)
}
