ghost use Rattle.std.specs.Prelude.{◌≡◌, ◌∷◌, ◌++◌, [], ◌<◌, ◌≤◌, ◌+◌, ◌-◌, ◌^◌, length, get_or, false, IsTrue, OnOk, OnErr, IfOk};
ghost use Rattle.agent_terms.specs.Limits.{most_entries, most_renderers};
ghost use Rattle.desk.specs.Books.{AllJoin, Joins, KeepsFit, MayJoin};
ghost use Rattle.desk.specs.History.{entered, log_of, told_of};
ghost use Rattle.desk.specs.Serving.{with_telling};
ghost use Rattle.desk.specs.declared.item.Item.TheVariants.{Entered, Told};
ghost use Rattle.exchange_laws.specs.Fit.{IsFitLog};
ghost use Rattle.single_agent.specs.LegalLog.{lost_entry};
ghost use Rattle.single_agent.specs.LegalRecord.{is_lost_on};
ghost use Rattle.tree_log.specs.Admits.{admits, AreAdmitted};
ghost use Rattle.request_decisions.specs.Made.{entries_of};
ghost use Rattle.tree_log.specs.Range.{AreInRange, HasAscendingKeys};
ghost use Rattle.tree_log.specs.Tree.{tree_of};

use crate::telling::Telling;
use crate::tellings::Tellings;
use origin_core::HostText;
use request_decisions::{Decided, Made};
use std::alloc::{AllocError, Global};
use std::marker::Model;
use tree_log::{Entry, Log, What};

/// The log, what was told of it, and whose renderers are lost.
///
/// Contracts see it as the rules by which requests are decided, its history, and the room that was made.
#[derive(Drop)]
pub(crate) struct Ledger {
    renderers: u16,
    suffixes: Vec<HostText>,
    log: Log,
    tellings: Tellings,
    /// For each renderer, whether it was lost.
    lost: Vec<bool>,
}

impl Model for Ledger {
    ghost use Rattle.coordinator_rules.specs.Decision.{Rules};
    ghost use Rattle.desk.specs.Books.{LedgerValue, IsKept};
    ghost use Rattle.desk.specs.History.{history};
    ghost use Rattle.plain_data.specs.contracts.data.Data as data_type;
    ghost use Rattle.request_decisions.specs.Asked.{rules};
    ghost use Rattle.std.specs.Coded.{codes};

    ghost Value = { LedgerValue };

    ghost coded = { Prim.hlevel (codes, data_type.the_row.coded) };

    ghost view = { λ l. record { rules = record { renderers = l.renderers; suffixes = l.suffixes.items }; history = history l.log.entries l.tellings.told; room = l.log.room; slots = l.tellings.room } };

    ghost invariant = { λ l. IsKept (rules l.renderers l.suffixes.items) l.log.entries l.tellings l.lost.items };
}

impl Ledger {
    /// An empty log.
    pub(crate) fn new(
        alloc: Global,
        renderers: u16,
        suffixes: Vec<HostText>,
    ) -> Result<Self, AllocError>
        requires some { 0 < renderers }
        requires not_many { renderers ≤ most_renderers }
        ensures rules { IfOk result (λ l. l.rules ≡ record { renderers = renderers; suffixes = suffixes.items }) }
        ensures history { IfOk result (λ l. l.history ≡ []) }
    {
        let mut lost = Vec::new(alloc);
        for _renderer in 0..renderers {
            lost.push(false)?;
        }
        Ok(Ledger {
            renderers,
            suffixes,
            log: Log::new(alloc),
            tellings: Tellings::new(alloc, renderers)?,
            lost,
        })
    }

    /// The number of renderers: there is one.
    pub(crate) fn renderers(&self) -> u16
        ensures value { result ≡ self.now.rules.renderers }
        ensures some { 0 < self.now.rules.renderers }
    {
        self.renderers
    }

    /// The public suffixes.
    pub(crate) fn suffixes(&self) -> &[HostText]
        ensures { result.now ≡ self.now.rules.suffixes }
    {
        &self.suffixes
    }

    /// The log. It takes no memory.
    pub(crate) fn log(&self) -> &Log
        ensures entries { result.now.entries ≡ log_of self.now.history }
        ensures admitted { AreAdmitted (log_of self.now.history) }
        ensures few { length (log_of self.now.history) ≤ most_entries + most_renderers }
        ensures fit { IsFitLog self.now.rules (log_of self.now.history) }
    {
        &self.log
    }

    /// How much a renderer was told. It takes no memory.
    pub(crate) fn told(&self, renderer: u16) -> u32
        ensures value { result ≡ told_of self.now.history renderer }
        ensures within { result ≤ length (log_of self.now.history) }
    {
        self.tellings.told(renderer)
    }

    /// Whether a renderer was lost. It takes no memory.
    pub(crate) fn is_lost(&self, renderer: u16) -> bool
        ensures { result ≡ is_lost_on renderer (log_of self.now.history) }
    {
        mark_of(&self.lost, renderer)
    }

    /// Makes room for two entries and a telling.
    pub(crate) fn reserve(&mut self) -> Result<(), AllocError>
        ensures rules { self.new.rules ≡ self.old.rules }
        ensures history { self.new.history ≡ self.old.history }
        ensures room { OnOk result (2 ≤ self.new.room) }
        ensures slots { OnOk result (0 < self.new.slots) }
    {
        self.log.reserve(2)?;
        self.tellings.reserve()
    }

    /// Appends an entry, for which there is room.
    pub(crate) fn append(&mut self, entry: Entry)
        requires room { 0 < self.old.room }
        requires few { length (log_of self.old.history) < most_entries }
        requires admitted { IsTrue (admits (tree_of (log_of self.old.history)) entry) }
        requires joins { Joins entry }
        requires fit { KeepsFit self.old.rules (entry ∷ []) (log_of self.old.history) }
        ensures rules { self.new.rules ≡ self.old.rules }
        ensures history { self.new.history ≡ Entered entry ∷ self.old.history }
        ensures room { self.new.room ≡ self.old.room - 1 }
        ensures slots { self.new.slots ≡ self.old.slots }
    {
        push(&mut self.log, entry);
        know_range(&self.log);
    }

    // Appends the entries of a decision, for which there is room.
    fn enter(&mut self, made: Made)
        requires room { 2 ≤ self.old.room }
        requires may_join { MayJoin (entries_of made) (log_of self.old.history) }
        requires fit { KeepsFit self.old.rules (entries_of made) (log_of self.old.history) }
        ensures rules { self.new.rules ≡ self.old.rules }
        ensures history { self.new.history ≡ entered (entries_of made) ++ self.old.history }
        ensures slots { self.new.slots ≡ self.old.slots }
    {
        push_made(&mut self.log, made);
        know_range(&self.log);
    }

    // Notes that a renderer was told the log up to a length, where that is more than before.
    fn tell_up_to(&mut self, renderer: u16, before: u32, upto: u32)
        requires slots { 0 < self.old.slots }
        requires seat { renderer < self.old.rules.renderers }
        requires within { upto ≤ length (log_of self.old.history) }
        ensures rules { self.new.rules ≡ self.old.rules }
        ensures history { self.new.history ≡ with_telling renderer before upto self.old.history }
    {
        if before < upto {
            self.tell(renderer, upto);
        }
    }

    /// Takes in what was decided for a renderer, and how much it was told, for which there is room.
    pub(crate) fn take_in(&mut self, renderer: u16, decided: Decided, upto: u32)
        requires room { 2 ≤ self.old.room }
        requires slots { 0 < self.old.slots }
        requires seat { renderer < self.old.rules.renderers }
        requires may_join { MayJoin (entries_of decided.entries) (log_of self.old.history) }
        requires fit { KeepsFit self.old.rules (entries_of decided.entries) (log_of self.old.history) }
        requires within { upto ≤ length (entries_of decided.entries ++ log_of self.old.history) }
        ensures rules { self.new.rules ≡ self.old.rules }
        ensures history { self.new.history ≡ with_telling renderer (told_of self.old.history renderer) upto (entered (entries_of decided.entries) ++ self.old.history) }
    {
        let before = self.told(renderer);
        self.enter(decided.entries);
        self.tell_up_to(renderer, before, upto);
    }

    /// The entry that says that a renderer is lost.
    pub(crate) fn loss(&self, renderer: u16) -> Entry
        ensures entry { result ≡ lost_entry renderer }
        ensures admitted { AreAdmitted (result ∷ log_of self.now.history) }
    {
        // By its clauses it can follow.
        let _log = self.log();
        loss_of(renderer)
    }

    /// Appends that a renderer is lost, for which there is room.
    pub(crate) fn lose(&mut self, renderer: u16)
        requires room { 0 < self.old.room }
        requires seat { renderer < self.old.rules.renderers }
        requires there { is_lost_on renderer (log_of self.old.history) ≡ false }
        ensures rules { self.new.rules ≡ self.old.rules }
        ensures history { self.new.history ≡ Entered (lost_entry renderer) ∷ self.old.history }
    {
        push(&mut self.log, loss_of(renderer));
        self.lost[renderer as usize] = true;
    }

    // Notes that a renderer was told the log up to a length, for which there is room.
    fn tell(&mut self, renderer: u16, upto: u32)
        requires slots { 0 < self.old.slots }
        requires seat { renderer < self.old.rules.renderers }
        requires within { upto ≤ length (log_of self.old.history) }
        ensures rules { self.new.rules ≡ self.old.rules }
        ensures history { self.new.history ≡ Told renderer upto ∷ self.old.history }
    {
        let at = self.log.len();
        self.tellings.add(Telling { renderer, upto, at });
    }
}

// Appends an entry, for which there is room.
fn push(log: &mut Log, entry: Entry)
    requires room { 0 < log.old.room }
    requires few { length log.old.entries < 2 ^ 31 }
    requires keys { HasAscendingKeys entry.what }
    ensures entries { log.new.entries ≡ entry ∷ log.old.entries }
    ensures room { log.new.room ≡ log.old.room - 1 }
{
    match log.push(entry) {
        Ok(()) => {}
        Err(_) => unreachable!(),
    }
}

// Appends the entries of a decision, for which there is room.
fn push_made(log: &mut Log, made: Made)
    requires room { 2 ≤ log.old.room }
    requires few { length log.old.entries < 2 ^ 30 }
    requires each { AllJoin (entries_of made) }
    ensures { log.new.entries ≡ entries_of made ++ log.old.entries }
{
    match made {
        Made::Nothing => {}
        Made::One(entry) => push(log, entry),
        Made::Two { first, second } => {
            push(log, first);
            push(log, second);
        }
    }
}

// Tells what the types of a log's origins and URLs promise.
fn know_range(log: &Log)
    ensures { AreInRange log.now.entries }
{
    let _entries = log.entries();
}

// The mark of a renderer; false where there is none.
fn mark_of(marks: &Vec<bool>, renderer: u16) -> bool
    ensures { result ≡ get_or marks.now.items renderer false }
{
    marks.get(renderer as usize).copied().unwrap_or(false)
}

// The entry that says that a renderer is lost.
fn loss_of(renderer: u16) -> Entry
    ensures { result ≡ lost_entry renderer }
{
    Entry {
        by: None,
        actor: None,
        what: What::Lost { renderer },
    }
}
