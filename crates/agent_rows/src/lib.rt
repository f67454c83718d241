//! Worked rows: what the definitions of the crates below give on small logs, each computed.
//!
//! The rows stand in `specs/`, a file for each topic; those that need lemmas, as on the texts of targets, on whole logs and on
//! long ones, in `proofs/`. Nothing here runs, and nothing stands on this crate.
#![tactic(auto)]

ghost use Rattle.agent_rows.specs.Blanking.{message, sandboxed};
ghost use Rattle.agent_rows.specs.Coordinator.{answered, only, two_groups, posting, home_of_new};
ghost use Rattle.agent_rows.specs.ForeignWindow.{got_at, with_then, taken_out};
ghost use Rattle.agent_rows.specs.AlikeLinks.{AreAlikeTo, link, page_p, page_q};
ghost use Rattle.agent_rows.specs.Domains as domains;
ghost use Rattle.agent_rows.specs.Logs.{site, a_test, framed};
ghost use Rattle.agent_rows.specs.LostTasks.{failing, lost_log, IsLegalAt};
ghost use Rattle.agent_rows.specs.Replies.{pair, synced, IsToldInTwo};
ghost use Rattle.agent_rows.specs.NamedChildren.{reached, two_frames, first_is_own};
ghost use Rattle.agent_rows.specs.Navigating.{chosen, two_windows, goes, some_words};
ghost use Rattle.agent_rows.specs.Navigating as navigating;
ghost use Rattle.agent_rows.specs.Shop.{shop, shop_log};
ghost use Rattle.agent_rows.specs.Tasks.{posted_for, replaced_for, heard, closing};
ghost use Rattle.coordinator_rules.specs.Decision.{one};
ghost use Rattle.single_agent.specs.LegalLog.{IsLegalLog};
ghost use Rattle.object_access.specs.Methods.{posted};
ghost use Rattle.coordinator_rules.specs.Navigation.{New};
ghost use Rattle.single_agent.specs.Shown.{shown_to};
ghost use Rattle.coordinator_rules.specs.NextTask.{next_task};
ghost use Rattle.object_access.specs.Values.{text};
ghost use Rattle.agent_terms.specs.declared.outcome.Outcome.TheVariants as outcome;
ghost use Rattle.agent_terms.specs.declared.outcome.Rule.TheVariants.{S1, S2};
ghost use Rattle.agent_terms.specs.declared.request.ReplyOutcome.TheVariants as reply;
ghost use Rattle.agent_terms.specs.declared.request.Request.TheVariants as ask;
ghost use Rattle.std.specs.Prelude.{◌≡◌, ◌∷◌, [], List, ℕ, Some, None, false, true, codes};
ghost use Rattle.tree_log.specs.Admits.{AreAdmitted};
ghost use Rattle.tree_log.specs.Blanking.{hidden};
ghost use Rattle.tree_log.specs.Tree.{tree_of, same_domain};
ghost use Rattle.tree_log.specs.Urls.{url_of};
ghost use Rattle.tree_log.specs.declared.entry.Cause.TheVariants as causes;
ghost use Rattle.tree_log.specs.declared.entry.Target.{Target};
ghost use Rattle.tree_log.specs.declared.entry.Target.TheVariants as targets;
ghost use Rattle.tree_log.specs.declared.entry.What.TheVariants as what;
ghost use Rattle.window_props.specs.declared.value.Value.TheVariants as value;

/// It does nothing: its contract is a row or two of each file.
#[tactic(auto, using(crate::proofs::Cited::foreign_rows, crate::proofs::Cited::coordinator_rows, crate::proofs::Cited::shown_rows, crate::proofs::Cited::task_rows, crate::proofs::Cited::domain_rows))]
pub fn rows()
    ensures admitted { AreAdmitted framed }
    ensures parent { got_at framed 1 (codes "parent") ≡ outcome.Value (value.Window 0) }
    ensures name { got_at framed 1 (codes "name") ≡ outcome.Security S1 }
    ensures index { got_at with_then 1 (codes "1") ≡ outcome.Security S2 }
    ensures then_frame { got_at with_then 1 (codes "then") ≡ outcome.Value (value.Window 2) }
    ensures foreign_first { reached two_frames ≡ None }
    ensures own_first { reached first_is_own ≡ Some 1 }
    ensures passed { chosen two_windows 1 (codes "main") ≡ New }
    ensures refused { goes 1 3 (navigating.sandboxed some_words) 1 false ≡ one 1 3 what.Sync (reply.Security 7) }
    ensures unloaded { answered framed 0 (ask.Sync 2) ≡ only (reply.Unloaded 3) }
    ensures not_near { answered two_groups 0 (posting 3) ≡ one 0 1 what.Sync reply.Done }
    ensures home { home_of_new (site (codes "c.test")) ≡ 2 }
    ensures no_argument { posted a_test 3 [] ≡ outcome.TypeFault }
    ensures hidden_message { shown_to 1 (message ∷ framed) ≡ hidden ∷ shown_to 1 framed }
    ensures still_shown { ((tree_of taken_out).nav 1).active ≡ 3 }
    ensures fires { next_task (posted_for targets.Any) 1 ≡ Some (what.Fire 3 4) }
    ensures lapses_by_origin { next_task (posted_for (targets.Origin a_test)) 1 ≡ Some (what.Lapse 3 4 causes.Origin) }
    ensures lapses_where_replaced { (target : Target) → next_task (replaced_for target) 1 ≡ Some (what.Lapse 3 4 causes.Inactive) }
    ensures message_origin { heard (codes "origin") ≡ text (codes "https://a.test") }
    ensures closes { next_task closing 1 ≡ Some (what.Gone 1) }
    ensures whole_log { IsLegalLog shop shop_log }
    ensures lower_case { domains.answered domains.with_y (ask.Domain 3 (codes "A.test")) ≡ one 0 3 (what.Domain 3 (codes "a.test")) reply.Done }
    ensures no_suffix { domains.answered domains.framed_y (ask.Domain 1 (codes "test")) ≡ one 0 1 what.Sync (reply.Security 11) }
    ensures no_sandbox { domains.answered domains.sandboxed_y (ask.Domain 3 (codes "a.test")) ≡ one 0 3 what.Sync (reply.Security 9) }
    ensures no_initial { domains.answered domains.opened (ask.Domain 0 (codes "a.test")) ≡ one 0 0 what.Sync (reply.Security 10) }
    ensures apart { same_domain (tree_of domains.with_y) 1 3 ≡ false }
    ensures together { same_domain (tree_of domains.both_have_set) 1 3 ≡ true }
    ensures domains_log { IsLegalLog domains.pages domains.both_have_set }
    ensures long_logs { (n : ℕ) → IsLegalLog pair (synced n) }
    ensures told_in_two { IsToldInTwo }
    ensures lost_log { IsLegalLog failing lost_log }
    ensures had_heard { IsLegalAt 4 × IsLegalAt 5 }
    ensures never_heard { IsLegalAt 6 → ⊥ }
    ensures equal_links { (r : ℕ) (url : List ℕ) → AreAlikeTo r (link 2 url) (link 2 url) }
    ensures other_links { (r : ℕ) → AreAlikeTo r (link 2 page_p) (link 2 page_q) → ⊥ }
    ensures hidden_links { AreAlikeTo 2 (link 1 page_p) (link 1 page_q) }
    ensures hidden_url { url_of (shown_to 1 sandboxed) 3 ≡ codes "about:blank" }
{}
