ghost use Rattle.std.specs.Prelude.{◌≡◌, ◌≤◌, ◌<◌, ◌^◌, ◌++◌, length, IfOk, OnOk};
ghost use Rattle.desk.specs.Answering.{Answers, HasOpenerLast};
ghost use Rattle.desk.specs.Serving as spec;
ghost use Rattle.link_wire.specs.Replies.{reply_frame};
ghost use Rattle.log_rows.specs.Kept.{AreOf};
ghost use Rattle.request_decisions.specs.Asked.{rules};
ghost use Rattle.request_decisions.specs.Made.{decision_of, entries_of};
ghost use Rattle.tree_log.specs.Admits.{AreAdmitted};

use crate::asked::decided;
use agent_terms::ReplyOutcome;
use link_wire::{DecodeError, decode_request};
use log_rows::LogRows;
use origin_core::HostText;
use request_decisions::{Decided, Made};
use std::alloc::{AllocError, Global};
use told_replies::{Written, write_reply};
use tree_log::Log;
use tree_view::View;

/// A renderer, as the coordinator knows it: the log and the rules by which it decides, and how much of the log it told.
#[derive(Drop)]
pub(crate) struct Seat<'a> {
    pub log: &'a Log,
    /// The number of renderers.
    pub renderers: u16,
    /// The public suffixes.
    pub suffixes: &'a [HostText],
    pub renderer: u16,
    pub told: u32,
}

/// What is decided on bytes, the reply, and how much of the log the renderer was told by then.
#[derive(Drop)]
pub(crate) struct Answered {
    pub decided: Decided,
    pub frame: Vec<u8>,
    pub upto: u32,
}

impl<'a> Seat<'a> {
    // What is decided on bytes of the renderer.
    #[tactic(auto, unfolding(crate::specs::Serving::answered))]
    fn decided_on<V: View + Drop>(
        &self,
        alloc: Global,
        rows: &mut LogRows<V>,
        bytes: &[u8],
    ) -> Result<Decided, AllocError>
        requires rows { AreOf V.tree V.urls self.now.suffixes.now rows.old self.now.log.now.entries }
        requires admitted { AreAdmitted self.now.log.now.entries }
        requires few { length self.now.log.now.entries < 2 ^ 30 }
        requires some { 0 < self.now.renderers }
        ensures decided { IfOk result (λ d. decision_of d ≡ spec.answered (rules self.now.renderers self.now.suffixes.now) self.now.log.now.entries self.now.renderer bytes.now) }
        ensures rows { AreOf V.tree V.urls self.now.suffixes.now rows.new self.now.log.now.entries }
    {
        match decode_request(alloc, bytes) {
            Ok(request) => decided(
                alloc,
                self.log,
                rows,
                self.renderers,
                self.suffixes,
                self.renderer,
                request,
            ),
            Err(DecodeError::Memory) => Err(AllocError),
            Err(DecodeError::Bad(bad)) => Ok(Decided {
                entries: Made::Nothing,
                outcome: ReplyOutcome::BadFrame {
                    place: bad.place,
                    why: bad.why,
                },
            }),
        }
    }

    // Feeds the entries of a decision to the rows.
    fn feed<V: View + Drop>(
        &self,
        alloc: Global,
        rows: &mut LogRows<V>,
        made: &Made,
    ) -> Result<(), AllocError>
        requires rows { AreOf V.tree V.urls self.now.suffixes.now rows.old self.now.log.now.entries }
        requires admitted { AreAdmitted (entries_of made.now ++ self.now.log.now.entries) }
        requires opener { HasOpenerLast (entries_of made.now) }
        ensures { OnOk result (AreOf V.tree V.urls self.now.suffixes.now rows.new (entries_of made.now ++ self.now.log.now.entries)) }
    {
        match made {
            Made::Nothing => Ok(()),
            Made::One(entry) => rows.feed(alloc, self.suffixes, self.log, entry),
            Made::Two { first, second } => {
                rows.feed(alloc, self.suffixes, self.log, first)?;
                rows.feed_opener(second)
            }
        }
    }

    // Feeds a decision to the rows, and writes the reply.
    fn tell<V: View + Drop>(
        &self,
        alloc: Global,
        rows: &mut LogRows<V>,
        decided: &Decided,
    ) -> Result<Written, AllocError>
        requires rows { AreOf V.tree V.urls self.now.suffixes.now rows.old self.now.log.now.entries }
        requires admitted { AreAdmitted (entries_of decided.now.entries ++ self.now.log.now.entries) }
        requires opener { HasOpenerLast (entries_of decided.now.entries) }
        requires few { length self.now.log.now.entries < 2 ^ 30 }
        ensures rows { OnOk result (AreOf V.tree V.urls self.now.suffixes.now rows.new (entries_of decided.now.entries ++ self.now.log.now.entries)) }
        ensures frame { IfOk result (λ w. w.frame.items ≡ reply_frame (spec.reply_to self.now.renderer self.now.log.now.entries self.now.told (decision_of decided.now))) }
        ensures told { IfOk result (λ w. w.told ≡ length (spec.reply_to self.now.renderer self.now.log.now.entries self.now.told (decision_of decided.now)).news) }
    {
        self.feed(alloc, rows, &decided.entries)?;
        write_reply(
            alloc,
            self.log,
            &decided.entries,
            &rows.view,
            self.renderer,
            self.told,
            &decided.outcome,
        )
    }

    /// What is decided on bytes of the renderer. The rows are those with its entries, which aren't appended yet.
    pub(crate) fn answer_to<V: View + Drop>(
        &self,
        alloc: Global,
        rows: &mut LogRows<V>,
        bytes: &[u8],
    ) -> Result<Answered, AllocError>
        requires rows { AreOf V.tree V.urls self.now.suffixes.now rows.old self.now.log.now.entries }
        requires admitted { AreAdmitted self.now.log.now.entries }
        requires few { length self.now.log.now.entries < 2 ^ 30 }
        requires some { 0 < self.now.renderers }
        requires told { self.now.told ≤ length self.now.log.now.entries }
        ensures rows { OnOk result (AreOf V.tree V.urls self.now.suffixes.now rows.new ((spec.answered (rules self.now.renderers self.now.suffixes.now) self.now.log.now.entries self.now.renderer bytes.now).entries ++ self.now.log.now.entries)) }
        ensures answers { IfOk result (λ a. Answers self.now.renderer self.now.log.now.entries self.now.told (spec.answered (rules self.now.renderers self.now.suffixes.now) self.now.log.now.entries self.now.renderer bytes.now) a) }
    {
        let decided = self.decided_on(alloc, rows, bytes)?;
        match self.tell(alloc, rows, &decided) {
            Ok(written) => Ok(Answered {
                decided,
                frame: written.frame,
                upto: self.told + written.told,
            }),
            Err(e) => Err(e),
        }
    }
}
