//! Each function does nothing: its contract is the law.
ghost use Rattle.agent_laws.specs.Actors.{has_no_asker, AreActedBy, IsFenced};
ghost use Rattle.agent_laws.specs.Belonging.{Belongs, IsClosed, RegistersBelong, StoresBelong};
ghost use Rattle.agent_laws.specs.Sights.{AgreeOn, HoldsGroup, HoldsKept, sight_of};
ghost use Rattle.agent_laws.specs.Wellness.{AllBelow, IsWell};
ghost use Rattle.object_access.specs.Access.{got};
ghost use Rattle.coordinator_rules.specs.Decision.{Rules, asker_of, exchange};
ghost use Rattle.single_agent.specs.LegalLog.{IsLegalLog};
ghost use Rattle.single_agent.specs.LegalRecord.{about, IsLegalRecord};
ghost use Rattle.object_access.specs.LocationAccess.{location};
ghost use Rattle.coordinator_rules.specs.Navigation.{choice, Existing};
ghost use Rattle.single_agent.specs.Shown.{is_seen_by};
ghost use Rattle.coordinator_rules.specs.NextTask.{next_task};
ghost use Rattle.object_access.specs.StepAnswer.{perform, step_stores};
ghost use Rattle.object_access.specs.WindowAccess.{window_of};
ghost use Rattle.agent_terms.specs.declared.act.Act.{Act};
ghost use Rattle.agent_terms.specs.declared.act.Performed.TheVariants.{Answer};
ghost use Rattle.agent_terms.specs.declared.outcome.Outcome.TheVariants as outcome;
ghost use Rattle.agent_terms.specs.declared.request.ReplyOutcome.TheVariants as reply;
ghost use Rattle.agent_terms.specs.declared.request.Request.TheVariants as ask;
ghost use Rattle.agent_terms.specs.declared.request.Request.{Request};
ghost use Rattle.agent_terms.specs.declared.session.Session.{Session};
ghost use Rattle.agent_terms.specs.declared.step.Step.{Step};
ghost use Rattle.std.specs.Prelude.{ℕ, ◌≡◌, ◌⊎◌, ◌+◌, ◌<◌, ◌^◌, ◌++◌, [], Bool, Some, None, true, false, length, List};
ghost use Rattle.tree_log.specs.Admits.{AreAdmitted};
ghost use Rattle.tree_log.specs.Blanking.{blanked, is_homed};
ghost use Rattle.tree_log.specs.Tree.{tree_of, group_of, children_of, origin_of, same_domain};
ghost use Rattle.tree_log.specs.Urls.{url_of};
ghost use Rattle.tree_log.specs.declared.entry.Entry.{Entry};
ghost use Rattle.window_props.specs.History.{Store};
ghost use Rattle.window_props.specs.declared.key.Key.{Key};
ghost use Rattle.window_props.specs.declared.platform.Object.{Object};
ghost use Rattle.window_props.specs.declared.value.Value.TheVariants as value;
ghost use Rattle.window_props.specs.declared.value.Value.{Value};

/// A request that adds entries has an active asker of that renderer, which acts in each of them; a task is taken by the
/// renderer, and no document acts.
pub fn an_exchange_is_fenced()
    ensures request { (rules : Rules) (log : List Entry) (r : ℕ) (q : Request) → has_no_asker q ≡ false →
        ((exchange rules log r q).entries ≡ []) ⊎ IsFenced log r q (exchange rules log r q).entries }
    ensures task { (rules : Rules) (log : List Entry) (r : ℕ) → AreActedBy r None (exchange rules log r ask.Next).entries }
{}

/// Every entry of an exchange can follow the log, whatever is asked; so each entry of a legal log could follow those
/// before it.
pub fn logs_stay_admitted()
    ensures exchange { (rules : Rules) (log : List Entry) (r : ℕ) (q : Request) → AreAdmitted log → length log < 2 ^ 30 →
        AreAdmitted ((exchange rules log r q).entries ++ log) }
    ensures legal { (s : Session) (log : List Entry) → IsLegalLog s log → length log < 2 ^ 30 → AreAdmitted log }
{}

/// In a log whose entries were admitted, each navigable that is there has a group, an embedder stands in a navigable with a
/// smaller number, and children and chosen navigables are there.
pub fn what_is_named_is_there()
    ensures tree { (log : List Entry) → AreAdmitted log → IsWell (tree_of log) }
    ensures group { (log : List Entry) (n : ℕ) → AreAdmitted log → n < (tree_of log).navs →
        (g : ℕ) × (group_of (tree_of log) n ≡ Some g) × (g < (tree_of log).groups) }
    ensures children { (log : List Entry) (d : ℕ) → AreAdmitted log → AllBelow (tree_of log).navs (children_of (tree_of log) d) }
    ensures choice { (log : List Entry) (current : ℕ) (name : List ℕ) (noopener user : Bool) (n : ℕ) → AreAdmitted log →
        current < (tree_of log).navs → choice (tree_of log) current name noopener user ≡ Existing n → n < (tree_of log).navs }
{}

/// The outcome of a request for anything but the next task is the same on a blanked log, whoever is kept; the next task
/// is the same where all documents homed at the renderer are kept.
pub fn exchanges_on_blanked_logs()
    ensures outcome { (rules : Rules) (kept : ℕ → Bool) (log : List Entry) (r : ℕ) (q : Request) → has_no_asker q ≡ false →
        (exchange rules (blanked kept log) r q).outcome ≡ (exchange rules log r q).outcome }
    ensures task { (kept : ℕ → Bool) (log : List Entry) (r : ℕ) → ((d : ℕ) → is_homed (tree_of log) r d ≡ true → kept d ≡ true) →
        next_task (blanked kept log) r ≡ next_task log r }
{}

/// A document meets the same Window on a blanked log, where it is itself kept, and the same Location, where the Location's
/// document is kept too. A get on a foreign Location answers the same whoever is kept.
pub fn accesses_on_blanked_logs()
    ensures window { (kept : ℕ → Bool) (log : List Entry) (asker n d : ℕ) → kept asker ≡ true →
        window_of (tree_of (blanked kept log)) (url_of (blanked kept log)) asker n d ≡ window_of (tree_of log) (url_of log) asker n d }
    ensures location { (kept : ℕ → Bool) (log : List Entry) (asker d : ℕ) → kept asker ≡ true → kept d ≡ true →
        location (tree_of (blanked kept log)) (url_of (blanked kept log)) asker d ≡ location (tree_of log) (url_of log) asker d }
    ensures foreign { (kept : ℕ → Bool) (log : List Entry) (asker d : ℕ) (props : Store) (key : Key) →
        same_domain (tree_of log) asker d ≡ false →
        got (location (tree_of (blanked kept log)) (url_of (blanked kept log)) asker d) props key
        ≡ got (location (tree_of log) (url_of log) asker d) props key }
{}

/// What a step of a document is, is the same on a blanked log and by the properties of kept documents' objects alone, where
/// the document is kept and its registers hold objects of kept or foreign documents; so too where they hold objects of its
/// group alone, and all is kept that the document sees. The properties of kept documents' objects after the step are the same
/// whoever is kept.
pub fn steps_on_blanked_logs()
    ensures performed { (kept : ℕ → Bool) (log : List Entry) (registers : ℕ → List ℕ → Value) (stores others : Object → Store) (d : ℕ) (s : Step) →
        kept d ≡ true → HoldsKept kept (sight_of log registers stores) d → AgreeOn kept stores others →
        perform (sight_of (blanked kept log) registers others) d s ≡ perform (sight_of log registers stores) d s }
    ensures in_group { (kept : ℕ → Bool) (log : List Entry) (registers : ℕ → List ℕ → Value) (stores others : Object → Store) (d : ℕ) (s : Step) →
        AreAdmitted log → ((e : ℕ) → is_seen_by (tree_of log) d e ≡ true → kept e ≡ true) →
        HoldsGroup (sight_of log registers stores) d → AgreeOn kept stores others →
        perform (sight_of (blanked kept log) registers others) d s ≡ perform (sight_of log registers stores) d s }
    ensures changed { (kept : ℕ → Bool) (log : List Entry) (registers : ℕ → List ℕ → Value) (stores others : Object → Store) (d : ℕ) (s : Step) →
        AgreeOn kept stores others →
        AgreeOn kept (step_stores (sight_of (blanked kept log) registers others) d s) (step_stores (sight_of log registers stores) d s) }
{}

/// Where no window of the tree leads out of its group, and registers and properties hold objects of their documents' groups
/// alone, what a step of a document answers is of its group too, and so is what it leaves in the properties of objects, and the
/// window that the coordinator makes or finds for it. The entries of an exchange, and any more, change nothing of that.
pub fn steps_stay_in_their_group()
    ensures answers { (log : List Entry) (registers : ℕ → List ℕ → Value) (stores : Object → Store) (d : ℕ) (s : Step) (v : Value) →
        IsClosed (tree_of log) → d < (tree_of log).docs → RegistersBelong (tree_of log) registers → StoresBelong (tree_of log) stores →
        perform (sight_of log registers stores) d s ≡ Answer (outcome.Value v) → Belongs (tree_of log) d v }
    ensures properties { (log : List Entry) (registers : ℕ → List ℕ → Value) (stores : Object → Store) (d : ℕ) (s : Step) →
        IsClosed (tree_of log) → d < (tree_of log).docs → RegistersBelong (tree_of log) registers → StoresBelong (tree_of log) stores →
        StoresBelong (tree_of log) (step_stores (sight_of log registers stores) d s) }
    ensures registers_later { (more log : List Entry) (registers : ℕ → List ℕ → Value) → AreAdmitted (more ++ log) →
        RegistersBelong (tree_of log) registers → RegistersBelong (tree_of (more ++ log)) registers }
    ensures exchange { (rules : Rules) (log : List Entry) (r : ℕ) (q : Request) → AreAdmitted log → length log < 2 ^ 30 → IsClosed (tree_of log) →
        IsClosed (tree_of ((exchange rules log r q).entries ++ log)) }
    ensures made { (rules : Rules) (log : List Entry) (r : ℕ) (q : Request) (nav : ℕ) → AreAdmitted log → length log < 2 ^ 30 → IsClosed (tree_of log) →
        (exchange rules log r q).outcome ≡ reply.Made nav → Belongs (tree_of ((exchange rules log r q).entries ++ log)) (asker_of q) (value.Window nav) }
    ensures properties_later { (more log : List Entry) (stores : Object → Store) → AreAdmitted (more ++ log) →
        StoresBelong (tree_of log) stores → StoresBelong (tree_of (more ++ log)) stores }
{}

/// A record that is legal against a log is legal against a longer one, where no further entry is the renderer's or its loss.
pub fn records_on_longer_logs()
    ensures { (s : Session) (r : ℕ) (more log : List Entry) (acts : List Act) → IsLegalRecord s r log acts → about r more ≡ [] →
        IsLegalRecord s r (more ++ log) acts }
{}
