//! Laws of messages, and of documents that act no more. Each function does nothing: its contract is the law.
ghost use Rattle.agent_terms.specs.declared.step.Step.{Step};
ghost use Rattle.log_laws.specs.Posting.{PostsToHeld};
ghost use Rattle.object_access.specs.StepAnswer.{Sight, perform};
ghost use Rattle.agent_laws.specs.Belonging.{Belongs, RegistersBelong};
ghost use Rattle.log_laws.specs.Messages.{HasFired, HasLapsed, IsActorOfNone, IsAtItsOwn};
ghost use Rattle.origin_core.specs.declared.origin.Origin.{Origin};
ghost use Rattle.plain_data.specs.declared.data.Data.{Data};
ghost use Rattle.single_agent.specs.LegalLog.{IsLegalLog};
ghost use Rattle.coordinator_rules.specs.NextTask.{ends, task_entry};
ghost use Rattle.object_access.specs.Registers.{task_written};
ghost use Rattle.agent_terms.specs.declared.session.Session.{Session};
ghost use Rattle.std.specs.Prelude.{ℕ, ◌≡◌, ◌<◌, ◌^◌, ◌∷◌, ◌++◌, List, Some, true, false, length};
ghost use Rattle.tree_log.specs.Admits.{AreAdmitted};
ghost use Rattle.tree_log.specs.Log.{entry_at, prefix};
ghost use Rattle.tree_log.specs.Tree.{tree_of, is_active, nav_of};
ghost use Rattle.tree_log.specs.declared.entry.Cause.{Cause};
ghost use Rattle.tree_log.specs.declared.entry.Entry.{Entry};
ghost use Rattle.tree_log.specs.declared.entry.Target.{Target};
ghost use Rattle.tree_log.specs.declared.entry.What.TheVariants.{Commit, Post, Fire, Lapse};
ghost use Rattle.tree_log.specs.declared.entry.What.{What};
ghost use Rattle.window_props.specs.declared.value.Value.TheVariants as value;
ghost use Rattle.window_props.specs.declared.value.Value.{Value};

/// In an admitted log a document that was active and isn't any more acts in no later entry, and is never active again. So
/// where a document was replaced, nothing that it did follows the entry that replaced it.
pub fn an_inactive_document_never_acts()
    ensures acts { (newer older : List Entry) (d : ℕ) → AreAdmitted (newer ++ older) →
        ((tree_of older).doc d).been_active ≡ true → is_active (tree_of older) d ≡ false → IsActorOfNone d newer }
    ensures stays { (newer older : List Entry) (d : ℕ) → AreAdmitted (newer ++ older) →
        ((tree_of older).doc d).been_active ≡ true → is_active (tree_of older) d ≡ false → is_active (tree_of (newer ++ older)) d ≡ false }
    ensures replaced { (s : Session) (log newer older : List Entry) (r nav doc begin d : ℕ) → IsLegalLog s log → length log < 2 ^ 30 →
        log ≡ newer ++ task_entry r (Commit nav doc begin) ∷ older → is_active (tree_of older) d ≡ true → nav_of (tree_of older) d ≡ nav →
        IsActorOfNone d newer }
{}

/// In a legal log at most one entry ends a message.
pub fn a_message_ends_once()
    ensures { (s : Session) (log : List Entry) (q u a b p : ℕ) (e f : Entry) → IsLegalLog s log →
        entry_at log q ≡ Some e → entry_at log u ≡ Some f → ends a p e.what ≡ true → ends b p f.what ≡ true → q ≡ u }
{}

/// In a legal log a message fires at the home of the document that it is to, which is active then and of an origin that the
/// message is for. It lapses there where the document isn't active, or is active and of another origin.
pub fn a_message_fires_where_it_is_for()
    ensures fires { (s : Session) (log : List Entry) (q doc post : ℕ) (e : Entry) → IsLegalLog s log →
        entry_at log q ≡ Some e → e.what ≡ Fire doc post → HasFired log q e.by doc post }
    ensures lapses { (s : Session) (log : List Entry) (q doc post : ℕ) (cause : Cause) (e : Entry) → IsLegalLog s log →
        entry_at log q ≡ Some e → e.what ≡ Lapse doc post cause → HasLapsed log q e.by doc post cause }
{}

/// In a legal log the messages to one document that ended did so in the order in which they were posted.
pub fn messages_fire_in_order()
    ensures { (s : Session) (log : List Entry) (q u d p x : ℕ) (e f : Entry) → IsLegalLog s log →
        entry_at log q ≡ Some e → entry_at log u ≡ Some f → ends d p e.what ≡ true → ends d x f.what ≡ true → p < x → q < u }
{}

/// In a legal log each message comes from a window of the group of the document that it is to. So where the registers of each
/// document hold objects of its group alone, they do after a message fires at the document that it is to, which each that
/// fires does; also on the log as it stood earlier.
pub fn messages_stay_in_their_group()
    ensures posts { (s : Session) (log : List Entry) (place : ℕ) (e : Entry) (to from : ℕ) (origin : Origin) (target : Target) (body : Data) →
        IsLegalLog s log → length log < 2 ^ 30 → entry_at log place ≡ Some e → e.what ≡ Post to from origin target body →
        Belongs (tree_of log) to (value.Window from) }
    ensures registers { (s : Session) (log : List Entry) (what : What) (registers : ℕ → List ℕ → Value) → IsLegalLog s log → length log < 2 ^ 30 →
        IsAtItsOwn log what → RegistersBelong (tree_of log) registers → RegistersBelong (tree_of log) (task_written log what registers) }
    ensures earlier { (s : Session) (log : List Entry) (k q : ℕ) (e : Entry) (registers : ℕ → List ℕ → Value) → IsLegalLog s log → length log < 2 ^ 30 →
        entry_at (prefix k log) q ≡ Some e → RegistersBelong (tree_of (prefix k log)) registers →
        RegistersBelong (tree_of (prefix k log)) (task_written (prefix k log) e.what registers) }
{}

/// A step that posts a message does so for its own document, to the document that is active, on what the step goes by, in a
/// window which a register of its document holds.
pub fn a_message_is_for_the_document_of_its_window()
    ensures { (s : Sight) (d : ℕ) (st : Step) → PostsToHeld s d (perform s d st) }
{}
