use agent_terms::ReplyOutcome;
use std::marker::Model;
use tree_log::Entry;

/// What the coordinator answers: the outcome, and the entries from a place of the log on that it tells.
///
/// Contracts see it as its outcome, the place, whether there is more, and the list of the entries, the oldest first.
#[derive(Drop)]
pub struct Reply {
    pub outcome: ReplyOutcome,
    /// The place of the first entry of the news.
    pub from: u32,
    /// Whether there are entries behind the news that are to be asked for.
    pub more: bool,
    pub news: Vec<Entry>,
}

impl Model for Reply {
    ghost use Rattle.frame_grammar.specs.Cut.{ReplyParts};
    ghost use Rattle.link_wire.specs.ReplyView.{reply_view};
    ghost use Rattle.plain_data.specs.contracts.data.Data as plain;
    ghost use Rattle.std.specs.Coded.{codes};

    ghost Value = { ReplyParts };

    ghost coded = { Prim.hlevel (codes, plain.the_row.coded) };

    ghost view = { reply_view };
}
