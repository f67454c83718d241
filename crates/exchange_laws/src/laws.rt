//! Each function does nothing: its contract is the law.
ghost use Rattle.agent_terms.specs.declared.request.ReplyOutcome.{ReplyOutcome};
ghost use Rattle.agent_terms.specs.declared.request.Request.{Request};
ghost use Rattle.coordinator_rules.specs.Decision.{Rules, exchange};
ghost use Rattle.coordinator_rules.specs.Told.{news_from};
ghost use Rattle.exchange_laws.specs.Fit.{AreFit, IsFitLog, IsFitOutcome};
ghost use Rattle.exchange_laws.specs.Own.{IsOwn};
ghost use Rattle.frame_grammar.specs.Cut.{is_telling, reply_telling};
ghost use Rattle.frame_grammar.specs.Entries.{entry};
ghost use Rattle.link_fields.specs.Basic.{url};
ghost use Rattle.link_fields.specs.Skipping.{data_field};
ghost use Rattle.link_wire.specs.Replies.{IsReply};
ghost use Rattle.link_wire.specs.Requests.{IsRequest};
ghost use Rattle.single_agent.specs.LegalLog.{lost_entry};
ghost use Rattle.single_agent.specs.Session.{start_load, start_entry};
ghost use Rattle.plain_data.specs.Ascending.{keys_ascend};
ghost use Rattle.plain_data.specs.declared.data.Data.{Data};
ghost use Rattle.std.specs.Prelude.{ℕ, ◌≡◌, ◌<◌, ◌≤◌, ◌+◌, ◌*◌, ◌^◌, ◌++◌, [], ◌∷◌, true, IsTrue, All, List, Option, length};
ghost use Rattle.tree_log.specs.Range.{AreInRange, HasAscendingKeys, IsLoadInRange};
ghost use Rattle.tree_log.specs.Tree.{tree_of};
ghost use Rattle.tree_log.specs.declared.entry.Entry.{Entry};
ghost use Rattle.tree_log.specs.declared.entry.What.TheVariants.{Opener};

/// Every entry of an exchange is the renderer's own: made by it, acted by no document or by an active one that is homed
/// there. A message has the acting document's window and origin, and what is done for a task is the renderer's next one.
pub fn what_a_renderer_appends()
    ensures { (rules : Rules) (log : List Entry) (r : ℕ) (q : Request) → All (IsOwn log r) (exchange rules log r q).entries }
{}

/// An exchange has at most two entries; and where it has two, the second is an opener that is set.
pub fn an_exchange_makes_few_entries()
    ensures few { (rules : Rules) (log : List Entry) (r : ℕ) (q : Request) → length (exchange rules log r q).entries ≤ 2 }
    ensures second { (rules : Rules) (log : List Entry) (r : ℕ) (q : Request) (second first : Entry) →
        (exchange rules log r q).entries ≡ second ∷ first ∷ [] → (nav : ℕ) × (to : Option ℕ) × (second.what ≡ Opener nav to) }
{}

/// The keys of each record ascend in data that fits a frame; so they do in what an exchange posts on a request that a frame
/// spells.
pub fn what_follows_can_join()
    ensures fitting { (d : Data) → data_field.Fits d → IsTrue (keys_ascend d) }
    ensures posted { (rules : Rules) (log : List Entry) (r : ℕ) (q : Request) → IsRequest q →
        All (λ e. HasAscendingKeys e.what) (exchange rules log r q).entries }
{}

/// A log has at most as many navigables as entries, and at most twice as many documents.
pub fn few_documents()
    ensures documents { (log : List Entry) → (tree_of log).docs ≤ 2 * length log }
    ensures navigables { (log : List Entry) → (tree_of log).navs ≤ length log }
{}

/// On a log in range of frames, what an exchange gives for a request that a frame spells is in range too: its outcome; and the
/// log with its entries, where their tuple origins are those of URLs.
pub fn exchanges_stay_in_range()
    ensures entries { (rules : Rules) (log : List Entry) (r : ℕ) (q : Request) → IsFitLog rules log → IsRequest q → r < 2 ^ 16 →
        AreInRange (exchange rules log r q).entries → length ((exchange rules log r q).entries ++ log) < 2 ^ 30 →
        IsFitLog rules ((exchange rules log r q).entries ++ log) }
    ensures outcome { (rules : Rules) (log : List Entry) (r : ℕ) (q : Request) → IsFitLog rules log → IsRequest q →
        IsFitOutcome (exchange rules log r q).outcome }
{}

/// A log without entries is in range of frames; and so is one with a start window more, where its load is in range, or with the
/// loss of a renderer.
pub fn logs_begin_in_range()
    ensures empty { (rules : Rules) → 0 < rules.renderers → rules.renderers ≤ 2 ^ 16 → IsFitLog rules [] }
    ensures start { (rules : Rules) (log : List Entry) (page : List ℕ) → IsFitLog rules log → url.Fits page →
        IsLoadInRange (start_load rules (tree_of log) page) → length log + 1 < 2 ^ 30 → IsFitLog rules (start_entry rules (tree_of log) page ∷ log) }
    ensures lost { (rules : Rules) (log : List Entry) (r : ℕ) → IsFitLog rules log → r < 2 ^ 16 → length log + 1 < 2 ^ 30 →
        IsFitLog rules (lost_entry r ∷ log) }
{}

/// What a renderer is told of a log in range is in range, and the spelling of an entry in range has at most 6,178 bytes. So the
/// reply that tells it, with an outcome in range, is one that a frame spells, and it tells at least one entry where there is one.
pub fn replies_are_in_range()
    ensures news { (r from : ℕ) (log : List Entry) → AreFit log → AreFit (news_from r from log) }
    ensures size { (e : Entry) → entry.Fits e → length (entry.spell e) ≤ 6178 }
    ensures reply { (outcome : ReplyOutcome) (r from : ℕ) (log : List Entry) → IsFitOutcome outcome → AreFit log → from < 2 ^ 32 → length log < 2 ^ 32 →
        IsReply (reply_telling outcome from (news_from r from log)) }
    ensures one { (outcome : ReplyOutcome) (from : ℕ) (news : List Entry) → IsFitOutcome outcome → AreFit news → is_telling outcome ≡ true → 0 < length news →
        0 < length (reply_telling outcome from news).news }
{}
