ghost use Rattle.std.specs.Prelude.{◌≡◌, ◌++◌, length, false, [], IfOk, OnOk};
ghost use Rattle.std.specs.Option.{option_copied};
ghost use Rattle.link_wire.specs.Replies.{reply_frame};
ghost use Rattle.link_wire.specs.Shown.{entry_with};
ghost use Rattle.reply_writing.specs.Telling.{IsTold};
ghost use Rattle.reply_writing.specs.Bytes.{head, cleared};

use crate::news::{News, Shown};
use crate::patching::fill_in;
use agent_terms::ReplyOutcome;
use link_fields::{put_bool, put_u32};
use link_wire::{outcome_kind, put_entry, put_outcome};
use origin_core::PageUrl;
use std::alloc::{AllocError, Global};
use std::marker::Model;
use std::snapshot::Snapshot;
use tree_log::Entry;

// The first byte of each frame.
const VERSION: u8 = 2;

// How many bytes a frame has at most: its head, and a body of 64 KiB.
const MOST_BYTES: usize = 6 + 65536;

/// A reply that is being written: an outcome, the place of the first entry that it tells, and the entries so far.
///
/// Contracts see it as the reply's parts; `more` says that it was cut.
#[derive(Drop)]
pub struct ReplyWriter {
    // The frame so far, with zeros for the length, for `more` and for the count.
    bytes: Vec<u8>,
    // Where the byte stands that says whether there is more; the count stands behind it.
    more_at: usize,
    count: u32,
    cut: bool,
    // What contracts alone see.
    outcome: Snapshot<ReplyOutcome>,
    from: Snapshot<u32>,
    news: News,
}

/// A writer after one more entry, and whether there was room for it.
#[derive(Drop)]
pub struct Told {
    pub writer: ReplyWriter,
    pub told: bool,
}

impl Model for ReplyWriter {
    ghost use Rattle.frame_grammar.specs.Cut.{ReplyParts};
    ghost use Rattle.plain_data.specs.contracts.data.Data as plain;
    ghost use Rattle.std.specs.Coded.{codes};

    ghost Value = { ReplyParts };

    ghost coded = { Prim.hlevel (codes, plain.the_row.coded) };

    ghost use Rattle.reply_writing.specs.Writing.{writer_view, IsWhole};

    ghost view = { writer_view };

    ghost invariant = { IsWhole };
}

impl ReplyWriter {
    /// A reply that tells nothing yet.
    pub fn new(alloc: Global, outcome: &ReplyOutcome, from: u32) -> Result<Self, AllocError>
        ensures { IfOk result (λ w. w ≡ record { outcome = outcome.now; from = from; more = false; news = [] }) }
    {
        let mut bytes = Vec::new(alloc);
        put_head(&mut bytes, outcome, from)?;
        let more_at = bytes.len();
        put_cleared(&mut bytes)?;
        Ok(ReplyWriter {
            bytes,
            more_at,
            count: 0,
            cut: false,
            outcome: Snapshot::of(outcome),
            from: Snapshot::of(&from),
            news: News::new(),
        })
    }

    /// Tells one more entry, with another URL in its load or in its navigation to a fragment, where one is given. Where the reply
    /// hasn't room for it, the reply is cut. After an `Err` the writer is gone.
    pub fn tell(self, entry: &Entry, url: Option<&PageUrl>) -> Result<Told, AllocError>
        requires whole { self.more ≡ false }
        ensures { IfOk result (λ x. IsTold (entry_with (option_copied url.entry) entry.now) x.told self x.writer) }
    {
        let ReplyWriter {
            mut bytes,
            more_at,
            count,
            cut,
            outcome,
            from,
            news,
        } = self;
        let len = bytes.len();
        put_entry(&mut bytes, entry, url)?;
        if bytes.len() > MOST_BYTES {
            bytes.truncate(len);
            return Ok(Told {
                writer: ReplyWriter {
                    bytes,
                    more_at,
                    count,
                    cut: true,
                    outcome,
                    from,
                    news,
                },
                told: false,
            });
        }
        Ok(Told {
            writer: ReplyWriter {
                bytes,
                more_at,
                count: count + 1,
                cut,
                outcome,
                from,
                news: news.with(&Shown { entry, url }),
            },
            told: true,
        })
    }

    /// How many entries it tells.
    pub fn told(&self) -> u32
        ensures { result ≡ length self.now.news }
    {
        self.count
    }

    /// The frame. It takes no memory.
    pub fn finish(self) -> Vec<u8>
        ensures { result.items ≡ reply_frame self }
    {
        let ReplyWriter {
            mut bytes,
            more_at,
            count,
            cut,
            ..
        } = self;
        fill_in(bytes.as_mut_slice(), more_at, count, cut);
        bytes
    }
}

// Adds what stands before the byte that says whether there is more, with zeros for the length.
fn put_head(out: &mut Vec<u8>, outcome: &ReplyOutcome, from: u32) -> Result<(), AllocError>
    ensures { OnOk result (out.new.items ≡ out.old.items ++ head outcome.now from) }
{
    out.push(VERSION)?;
    out.push(outcome_kind(outcome))?;
    put_u32(out, 0)?;
    put_outcome(out, outcome)?;
    put_u32(out, from)
}

// Adds zeros for `more` and for the count.
fn put_cleared(out: &mut Vec<u8>) -> Result<(), AllocError>
    ensures { OnOk result (out.new.items ≡ out.old.items ++ cleared) }
{
    put_bool(out, false)?;
    put_u32(out, 0)
}
