ghost use Rattle.std.specs.Prelude.{◌≡◌, ◌++◌, ◌+◌, ◌-◌, ◌<◌, ◌≤◌, ◌^◌, [], ◌∷◌, List, ℕ, length, reverse, drop, get_or, slice_set, vec_len, vec_capacity, true, IsTrue, OnOk, OnErr, IfOk, None, Some};
ghost use Rattle.tree_log.specs.Tree.{tree_of, is};
ghost use Rattle.tree_log.specs.Admits.{admits, AreAdmitted};
ghost use Rattle.tree_log.proofs.Admitted.{AreAdmitted-prop};
ghost use Rattle.agent_terms.specs.Built.{is_made};
ghost use Rattle.coordinator_rules.specs.Decision.{rules_of, asker_of, home_if_active};
ghost use Rattle.single_agent.specs.Session.{start_entry};
ghost use Rattle.session_player.specs.Quiet.{is_quiet, are_quiet};

use crate::replica::Replica;
use crate::requests::{Replied, asker_of, decided, start_entry};
use agent_terms::{Request, Session};
use origin_core::PageUrl;
use std::alloc::{AllocError, Global};
use tree_log::{Entry, Log};
use tree_view::View;
use web_message::next_event;

/// How many entries a log has at most.
pub const MOST_ENTRIES: u32 = 40_000;

/// What a renderer is told: entries, the oldest first, and how long the log is with them.
#[derive(Drop)]
pub struct Told {
    pub upto: u32,
    pub news: Vec<Entry>,
}

/// The coordinator's answer to a renderer that wants its next task.
#[derive(Drop)]
pub enum NextReply {
    /// The log has no room for a task's entry.
    Full,
    Nothing(Told),
    /// The task's entry stands at the place.
    Task { place: u32, told: Told },
}

/// The coordinator's answer to a renderer's document that asks.
#[derive(Drop)]
pub enum AskReply {
    /// It isn't a document of that renderer that has been active.
    NotYours,
    /// The log has no room for an entry.
    Full,
    Answered { reply: Replied, told: Told },
}

/// The coordinator. It keeps the log, a view of it, and how much of it each renderer was told. So far its log has no
/// messages and no windows that were asked to close.
#[derive(Drop)]
pub struct Desk<V: Replica> {
    pub log: Log,
    pub view: V,
    pub told: Vec<u32>,
    ghost same: { V.tree view ≡ tree_of log.entries },
    ghost admitted: { AreAdmitted log.entries } by { AreAdmitted-prop log.entries },
    ghost quiet: { are_quiet log.entries ≡ true },
}

/// The entries from a place on.
fn copied(alloc: Global, entries: &[Entry], from: u32) -> Result<Vec<Entry>, AllocError>
    ensures { IfOk result (λ news. news.items ≡ drop from entries.now) }
{
    let mut news = Vec::new(alloc);
    for place in from as usize..entries.len() {
        news.push(entries[place].clone()?)?;
    }
    Ok(news)
}

impl<V: Replica> Desk<V> {
    ghost use Rattle.session_player.specs.Serves.{ServesNext, ServesAsk, Tells, ledger};

    /// A coordinator with an empty log.
    pub fn new(alloc: Global, renderers: u16) -> Result<Self, AllocError>
        ensures log { IfOk result (λ desk. desk.log.entries ≡ []) }
        ensures count { IfOk result (λ desk. vec_len desk.told ≡ renderers) }
        ensures told { IfOk result (λ desk. (r : ℕ) → get_or desk.told.items r 0 ≡ 0) }
    {
        let mut told = Vec::new(alloc);
        'renderers: for _number in 0..renderers {
            told.push(0)?;
        }
        Ok(Desk {
            log: Log::new(alloc),
            view: V::empty(alloc),
            told,
        })
    }

    /// Appends an entry.
    fn append(&mut self, entry: Entry) -> Result<(), AllocError>
        requires few { length self.old.log.entries < 2 ^ 30 }
        requires admitted { IsTrue (admits (tree_of self.old.log.entries) entry) }
        requires quiet { IsTrue (is_quiet entry.what) }
        ensures ok { OnOk result (self.new.log.entries ≡ entry ∷ self.old.log.entries) }
        ensures told { self.new.told.items ≡ self.old.told.items }
        ensures count { vec_len self.new.told ≡ vec_len self.old.told }
    {
        self.log.reserve(1)?;
        self.view.apply(&entry)?;
        match self.log.push(entry) {
            Ok(()) => Ok(()),
            Err(_) => unreachable!(),
        }
    }

    /// Tells a renderer the log.
    fn tell(&mut self, alloc: Global, renderer: u16) -> Result<Told, AllocError>
        requires { renderer < vec_len self.old.told }
        ensures tells { IfOk result (λ told. Tells renderer self.old.told.items (ledger self.new.log.entries self.new.told.items) told) }
        ensures log { self.new.log.entries ≡ self.old.log.entries }
        ensures count { vec_len self.new.told ≡ vec_len self.old.told }
    {
        let upto = self.log.len();
        let news = copied(alloc, self.log.entries(), self.told[renderer as usize])?;
        self.told[renderer as usize] = upto;
        Ok(Told { upto, news })
    }

    /// Opens a start window that loads a URL.
    pub fn start(
        &mut self,
        alloc: Global,
        session: &Session,
        url: &PageUrl,
    ) -> Result<(), AllocError>
        requires some { 0 < session.now.renderers }
        requires few { length self.old.log.entries < 2 ^ 30 }
        ensures ok { OnOk result (self.new.log.entries ≡ start_entry (rules_of session.now) (tree_of self.old.log.entries) url.now ∷ self.old.log.entries) }
        ensures told { self.new.told.items ≡ self.old.told.items }
        ensures count { vec_len self.new.told ≡ vec_len self.old.told }
    {
        let entry = start_entry(alloc, &self.view, session, url)?;
        self.append(entry)
    }

    /// Takes the renderer's next task.
    pub fn next(&mut self, alloc: Global, renderer: u16) -> Result<NextReply, AllocError>
        requires { renderer < vec_len self.old.told }
        ensures serves { IfOk result (λ reply. ServesNext renderer (ledger self.old.log.entries self.old.told.items) reply (ledger self.new.log.entries self.new.told.items)) }
        ensures count { vec_len self.new.told ≡ vec_len self.old.told }
    {
        if self.log.len() > MOST_ENTRIES - 4 {
            return Ok(NextReply::Full);
        }
        match next_event(&self.log, &self.view, renderer) {
            None => Ok(NextReply::Nothing(self.tell(alloc, renderer)?)),
            Some(what) => {
                let place = self.log.len();
                self.append(Entry {
                    by: Some(renderer),
                    actor: None,
                    what,
                })?;
                let told = self.tell(alloc, renderer)?;
                Ok(NextReply::Task { place, told })
            }
        }
    }

    /// Whether a document has been active and is homed at a renderer.
    fn is_yours(&self, renderer: u16, doc: u32) -> bool
        ensures value { result ≡ is (home_if_active (tree_of self.now.log.entries) doc) renderer }
        ensures there { IsTrue result → doc < (V.tree self.now.view).docs }
    {
        if doc >= self.view.docs() {
            return false;
        }
        if !self.view.been_active(doc) {
            return false;
        }
        self.view.home_of(doc) == renderer
    }

    /// Decides on a request of a renderer's document.
    pub fn ask(
        &mut self,
        alloc: Global,
        session: &Session,
        renderer: u16,
        request: Request,
    ) -> Result<AskReply, AllocError>
        requires seat { renderer < vec_len self.old.told }
        requires some { 0 < session.now.renderers }
        requires made { IsTrue (is_made request) }
        ensures serves { IfOk result (λ reply. ServesAsk (rules_of session.now) renderer request (ledger self.old.log.entries self.old.told.items) reply (ledger self.new.log.entries self.new.told.items)) }
        ensures count { vec_len self.new.told ≡ vec_len self.old.told }
    {
        let asker = asker_of(&request);
        if !self.is_yours(renderer, asker) {
            return Ok(AskReply::NotYours);
        }
        if !self.view.is_active(asker) {
            let told = self.tell(alloc, renderer)?;
            return Ok(AskReply::Answered {
                reply: Replied::Unloaded,
                told,
            });
        }
        if self.log.len() > MOST_ENTRIES - 4 {
            return Ok(AskReply::Full);
        }
        let (what, reply) = decided(alloc, &self.view, session, request)?;
        self.append(Entry {
            by: Some(renderer),
            actor: Some(asker),
            what,
        })?;
        let told = self.tell(alloc, renderer)?;
        Ok(AskReply::Answered { reply, told })
    }
}
