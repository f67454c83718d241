ghost use Rattle.std.specs.Prelude.{◌≡◌, ◌++◌, [], List, ℕ};
ghost use Rattle.agent_terms.specs.declared.request.Request.{Request};
ghost use Rattle.link_wire.specs.Feeding.{Held};
ghost use Rattle.frame_grammar.specs.Cut.{ReplyParts};
ghost use Rattle.link_wire.specs.Replies.{IsReply, reply_frame};
ghost use Rattle.link_wire.specs.Requests.{IsRequest, request_frame};
ghost use Rattle.link_wire.specs.Streams.{Feed, AreFeeds, bytes_of, frames_of, nothing_held, split_stream};

/// A request has one spelling, and no spelling begins another.
pub fn one_request_a_spelling()
    ensures { (a b : Request) (x : List ℕ) → IsRequest a → IsRequest b → request_frame a ++ x ≡ request_frame b → (a ≡ b) × (x ≡ []) }
{}

/// A reply has one spelling, and no spelling begins another.
pub fn one_reply_a_spelling()
    ensures { (a b : ReplyParts) (x : List ℕ) → IsReply a → IsReply b → reply_frame a ++ x ≡ reply_frame b → (a ≡ b) × (x ≡ []) }
{}

/// Feeding gives the frames at the front of all the bytes that were fed, and keeps what stands behind them: however
/// the bytes are cut into pieces.
pub fn every_cutting_agrees()
    ensures stream { (feeds : List Feed) (last : Held) → AreFeeds nothing_held feeds last → (frames_of feeds, last) ≡ split_stream (bytes_of feeds) }
    ensures cuts { (feeds others : List Feed) (last end : Held) → AreFeeds nothing_held feeds last → AreFeeds nothing_held others end → bytes_of feeds ≡ bytes_of others → (frames_of feeds ≡ frames_of others) × (last ≡ end) }
{}
