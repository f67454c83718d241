//! Laws of homes, and of the logs of plays. Each function does nothing: its contract is the law.
ghost use Rattle.agent_laws.specs.Actors.{has_no_asker};
ghost use Rattle.agent_laws.specs.Belonging.{IsClosed};
ghost use Rattle.agent_terms.specs.declared.request.Request.{Request};
ghost use Rattle.coordinator_rules.specs.Decision.{Rules, asker_of, exchange, home_if_active};
ghost use Rattle.log_laws.specs.Homes.{ActorsLoaded, HasWebPages};
ghost use Rattle.coordinator_rules.specs.Told.{told_log};
ghost use Rattle.single_agent.specs.LegalLog.{IsLegalLog};
ghost use Rattle.single_agent.specs.Shown.{shown_to};
ghost use Rattle.single_agent.specs.Turns.{Turned, ArePlayed, log_of};
ghost use Rattle.agent_terms.specs.Limits.{most_entries};
ghost use Rattle.agent_terms.specs.declared.session.Session.{Session};
ghost use Rattle.std.specs.Prelude.{ℕ, ◌≡◌, ◌+◌, ◌<◌, ◌≤◌, ◌^◌, ◌∷◌, Bool, false, true, length, List, None};
ghost use Rattle.tree_log.specs.Admits.{AreAdmitted};
ghost use Rattle.tree_log.specs.Blanking.{blanked, is_homed, is_open_to};
ghost use Rattle.tree_log.specs.Tree.{tree_of, home_of, domain_of, is, is_active};
ghost use Rattle.tree_log.specs.declared.entry.Entry.{Entry};

/// In a legal log that no initial document acts in, documents of one group that are same origin-domain have one home.
pub fn open_documents_have_one_home()
    ensures { (s : Session) (log : List Entry) → IsLegalLog s log → length log < 2 ^ 30 → ActorsLoaded log →
        (x y : ℕ) → x < (tree_of log).docs → y < (tree_of log).docs → is_open_to (tree_of log) x y ≡ true →
        home_of (tree_of log) x ≡ home_of (tree_of log) y }
{}

/// What a renderer is told of an admitted log, entry by entry, is the log blanked for the documents that are homed there in
/// the end. To blank for more documents first changes nothing. So in a legal log that no initial document acts in, a document
/// sees of what its renderer is told all that it sees of the log.
pub fn what_is_told()
    ensures at_once { (r : ℕ) (log : List Entry) → AreAdmitted log → blanked (is_homed (tree_of log) r) log ≡ told_log r log }
    ensures twice { (kept more : ℕ → Bool) (log : List Entry) → AreAdmitted log →
        ((d : ℕ) → d < (tree_of log).docs → kept d ≡ true → more d ≡ true) → blanked kept (blanked more log) ≡ blanked kept log }
    ensures seen { (s : Session) (log : List Entry) → IsLegalLog s log → length log < 2 ^ 30 → ActorsLoaded log →
        (asker : ℕ) → asker < (tree_of log).docs →
        shown_to asker (told_log (home_of (tree_of log) asker) log) ≡ shown_to asker log }
{}

/// The log of a play is longer than a log may be by the losses of renderers alone, of which each has at most one. Each of its
/// entries could follow those before it, and no window leads out of its group. Where each page has an http or https URL, only
/// loaded documents act, since an initial one runs no script and no handler. So documents of one group that are same
/// origin-domain have one home, and a document sees of what its renderer is told all that it sees of the log.
pub fn played_logs()
    ensures short { (s : Session) (turns : List Turned) → ArePlayed s turns → length s.start ≤ most_entries →
        length (log_of s turns) ≤ most_entries + s.renderers }
    ensures admitted { (s : Session) (turns : List Turned) → ArePlayed s turns → length s.start ≤ most_entries → s.renderers ≤ most_entries →
        AreAdmitted (log_of s turns) }
    ensures actors { (s : Session) (turns : List Turned) → ArePlayed s turns → length s.start ≤ most_entries → s.renderers ≤ most_entries →
        HasWebPages s → ActorsLoaded (log_of s turns) }
    ensures closed { (s : Session) (turns : List Turned) → ArePlayed s turns → length s.start ≤ most_entries → s.renderers ≤ most_entries →
        IsClosed (tree_of (log_of s turns)) }
    ensures homes { (s : Session) (turns : List Turned) → ArePlayed s turns → length s.start ≤ most_entries → s.renderers ≤ most_entries →
        HasWebPages s →
        (x y : ℕ) → x < (tree_of (log_of s turns)).docs → y < (tree_of (log_of s turns)).docs →
        is_open_to (tree_of (log_of s turns)) x y ≡ true →
        home_of (tree_of (log_of s turns)) x ≡ home_of (tree_of (log_of s turns)) y }
    ensures seen { (s : Session) (turns : List Turned) → ArePlayed s turns → length s.start ≤ most_entries → s.renderers ≤ most_entries →
        HasWebPages s →
        (asker : ℕ) → asker < (tree_of (log_of s turns)).docs →
        shown_to asker (told_log (home_of (tree_of (log_of s turns)) asker) (log_of s turns)) ≡ shown_to asker (log_of s turns) }
{}

/// A request of a document that is active, at the renderer that is its home, adds an entry to the log.
#[tactic(auto, using(crate::proofs::Plays::Adds::request_adds))]
pub fn a_request_adds_an_entry()
    ensures { (rules : Rules) (log : List Entry) (r : ℕ) (q : Request) → has_no_asker q ≡ false →
        is (home_if_active (tree_of log) (asker_of q)) r ≡ true → is_active (tree_of log) (asker_of q) ≡ true →
        0 < length (exchange rules log r q).entries }
{}

/// A new document has no domain, whatever domain an earlier document of its navigable has set: none has one before an entry
/// makes it, nor once that entry stands.
#[tactic(auto, using(crate::proofs::Homes::Domains::unmade_none, crate::proofs::Homes::Domains::made_none))]
pub fn a_new_document_has_no_domain()
    ensures before { (log : List Entry) (d : ℕ) → AreAdmitted log → (tree_of log).docs ≤ d → domain_of (tree_of log) d ≡ None }
    ensures made { (log : List Entry) (entry : Entry) (d : ℕ) → AreAdmitted (entry ∷ log) → (tree_of log).docs ≤ d →
        domain_of (tree_of (entry ∷ log)) d ≡ None }
{}
