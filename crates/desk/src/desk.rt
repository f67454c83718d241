ghost use Rattle.std.specs.Prelude.{◌≡◌, ◌<◌, ◌≤◌, ◌+◌, ◌∷◌, ◌++◌, [], length, true, false, All, OnOk, OnErr, IfOk, IsErr, IsTrue};
ghost use Rattle.agent_terms.specs.Limits.{most_entries, most_renderers, most_starts};
ghost use Rattle.desk.specs.Answering.{Answers};
ghost use Rattle.desk.specs.Books.{KeepsFit};
ghost use Rattle.desk.specs.History.{log_of, told_of};
ghost use Rattle.desk.specs.Serving.{answered, Coordinator, GivesUp, IsAt, IsServed};
ghost use Rattle.desk.specs.declared.item.Item.TheVariants.{Entered};
ghost use Rattle.exchange_laws.specs.Fit.{IsFitLog};
ghost use Rattle.exchange_laws.specs.Own.{IsOwn};
ghost use Rattle.log_rows.specs.Kept.{AreOf};
ghost use Rattle.single_agent.specs.LegalLog.{lost_entry};
ghost use Rattle.single_agent.specs.LegalRecord.{is_lost_on};
ghost use Rattle.single_agent.specs.Session.{start_entry};
ghost use Rattle.tree_log.specs.Admits.{admits, AreAdmitted};
ghost use Rattle.tree_log.specs.Tree.{tree_of};
ghost use Rattle.tree_log.specs.Urls.{url_of};

use crate::answering::{Answered, Seat};
use crate::ledger::Ledger;
use crate::starts::make_start_entry;
use log_rows::LogRows;
use origin_core::{HostText, PageUrl};
use std::alloc::{AllocError, Global};
use std::marker::Model;
use tree_log::{Entry, Log};
use tree_view::{PlainView, View};

/// The coordinator over the plain view.
pub type PlainDesk = Desk<PlainView>;

/// The coordinator: the log, what each renderer was told of it, and rows beside it that save a walk over it.
///
/// Contracts see it as the rules by which it decides, its history, and whether it ran out of memory. Once it did, every
/// later call that can answers that, and its log and what it told stay as they were.
#[derive(Drop)]
pub struct Desk<V: View + Drop> {
    alloc: Global,
    ledger: Ledger,
    rows: LogRows<V>,
    /// Whether memory ran out. The rows may then be those of no log.
    spent: bool,
}

impl<V: View + Drop> Model for Desk<V> {
    ghost use Rattle.std.specs.Prelude.{◌≡◌, false};
    ghost use Rattle.desk.specs.History.{log_of};
    ghost use Rattle.desk.specs.Serving.{Coordinator};
    ghost use Rattle.log_rows.specs.Kept.{AreOf};
    ghost use Rattle.plain_data.specs.contracts.data.Data as data_type;
    ghost use Rattle.std.specs.Coded.{codes};

    ghost Value = { Coordinator };

    ghost coded = { Prim.hlevel (codes, data_type.the_row.coded) };

    ghost view = { λ d. record { rules = d.ledger.rules; history = d.ledger.history; spent = d.spent } };

    ghost invariant = { λ d. d.spent ≡ false → AreOf V.tree V.urls d.ledger.rules.suffixes d.rows (log_of d.ledger.history) };
}

// What is decided on bytes of a renderer. Nothing is appended yet.
fn answer<V: View + Drop>(
    alloc: Global,
    ledger: &Ledger,
    rows: &mut LogRows<V>,
    renderer: u16,
    bytes: &[u8],
) -> Result<Answered, AllocError>
    requires rows { AreOf V.tree V.urls ledger.now.rules.suffixes rows.old (log_of ledger.now.history) }
    ensures rows { OnOk result (AreOf V.tree V.urls ledger.now.rules.suffixes rows.new ((answered ledger.now.rules (log_of ledger.now.history) renderer bytes.now).entries ++ log_of ledger.now.history)) }
    ensures answers { IfOk result (λ a. Answers renderer (log_of ledger.now.history) (told_of ledger.now.history renderer) (answered ledger.now.rules (log_of ledger.now.history) renderer bytes.now) a) }
{
    let seat = Seat {
        log: ledger.log(),
        renderers: ledger.renderers(),
        suffixes: ledger.suffixes(),
        renderer,
        told: ledger.told(renderer),
    };
    seat.answer_to(alloc, rows, bytes)
}

// Feeds one more entry to the rows.
fn feed<V: View + Drop>(
    alloc: Global,
    ledger: &Ledger,
    rows: &mut LogRows<V>,
    entry: &Entry,
) -> Result<(), AllocError>
    requires rows { AreOf V.tree V.urls ledger.now.rules.suffixes rows.old (log_of ledger.now.history) }
    requires admitted { AreAdmitted (entry.now ∷ log_of ledger.now.history) }
    ensures { OnOk result (AreOf V.tree V.urls ledger.now.rules.suffixes rows.new (entry.now ∷ log_of ledger.now.history)) }
{
    rows.feed(alloc, ledger.suffixes(), ledger.log(), entry)
}

// The entry of the next start window, which the rows have taken in.
fn started<V: View + Drop>(
    alloc: Global,
    ledger: &Ledger,
    rows: &mut LogRows<V>,
    url: PageUrl,
) -> Result<Entry, AllocError>
    requires rows { AreOf V.tree V.urls ledger.now.rules.suffixes rows.old (log_of ledger.now.history) }
    ensures entry { IfOk result (λ entry. entry ≡ start_entry ledger.now.rules (tree_of (log_of ledger.now.history)) url) }
    ensures admitted { IfOk result (λ entry. IsTrue (admits (tree_of (log_of ledger.now.history)) entry)) }
    ensures fit { IfOk result (λ entry. KeepsFit ledger.now.rules (entry ∷ []) (log_of ledger.now.history)) }
    ensures rows { IfOk result (λ entry. AreOf V.tree V.urls ledger.now.rules.suffixes rows.new (entry ∷ log_of ledger.now.history)) }
{
    let log = ledger.log();
    // By its type the URL is a page's.
    let _text = url.as_str();
    let entry = make_start_entry(
        alloc,
        &rows.view,
        &rows.homes,
        ledger.renderers(),
        ledger.suffixes(),
        url,
    )?;
    match rows.feed(alloc, ledger.suffixes(), log, &entry) {
        Ok(()) => Ok(entry),
        Err(e) => Err(e),
    }
}

impl Desk<PlainView> {
    /// A coordinator of 1 to 16 renderers, with the public suffixes, over an empty log.
    pub fn new(alloc: Global, renderers: u16, suffixes: Vec<HostText>) -> Result<Self, AllocError>
        requires some { 0 < renderers }
        requires not_many { renderers ≤ most_renderers }
        ensures { IfOk result (λ desk. desk ≡ record { rules = record { renderers = renderers; suffixes = suffixes.items }; history = []; spent = false }) }
    {
        Desk::over(alloc, PlainView::new(alloc), renderers, suffixes)
    }
}

impl<V: View + Drop> Desk<V> {
    /// The same over an empty view of any kind.
    pub fn over(
        alloc: Global,
        view: V,
        renderers: u16,
        suffixes: Vec<HostText>,
    ) -> Result<Self, AllocError>
        requires some { 0 < renderers }
        requires not_many { renderers ≤ most_renderers }
        requires tree { V.tree view ≡ tree_of [] }
        requires urls { V.urls view ≡ url_of [] }
        ensures { IfOk result (λ desk. desk ≡ record { rules = record { renderers = renderers; suffixes = suffixes.items }; history = []; spent = false }) }
    {
        let ledger = Ledger::new(alloc, renderers, suffixes)?;
        Ok(Desk {
            alloc,
            ledger,
            rows: LogRows::new(alloc, view),
            spent: false,
        })
    }

    /// The number of renderers. It takes no memory.
    pub fn renderers(&self) -> u16
        ensures { result ≡ self.now.rules.renderers }
    {
        self.ledger.renderers()
    }

    /// The log. It takes no memory.
    pub fn log(&self) -> &Log
        ensures entries { result.now.entries ≡ log_of self.now.history }
        ensures admitted { AreAdmitted (log_of self.now.history) }
        ensures few { length (log_of self.now.history) ≤ most_entries + most_renderers }
        // Frames can spell each of its entries.
        ensures fit { IsFitLog self.now.rules (log_of self.now.history) }
    {
        self.ledger.log()
    }

    /// How much of the log a renderer was told. It takes no memory.
    pub fn told(&self, renderer: u16) -> u32
        ensures value { result ≡ told_of self.now.history renderer }
        ensures within { result ≤ length (log_of self.now.history) }
    {
        self.ledger.told(renderer)
    }

    /// Whether a renderer was lost. It takes no memory.
    pub fn is_lost(&self, renderer: u16) -> bool
        ensures { result ≡ is_lost_on renderer (log_of self.now.history) }
    {
        self.ledger.is_lost(renderer)
    }

    /// Opens a start window that loads an http or https URL, and answers the number of its navigable.
    pub fn start(&mut self, url: PageUrl) -> Result<u32, AllocError>
        requires few { length (log_of self.old.history) < most_starts + most_renderers }
        ensures ok { OnOk result (IsAt (Entered (start_entry self.old.rules (tree_of (log_of self.old.history)) url) ∷ self.old.history) self.old self.new) }
        ensures nav { IfOk result (λ nav. nav ≡ (tree_of (log_of self.old.history)).navs) }
        ensures err { OnErr result (GivesUp self.old self.new) }
        ensures spent { self.old.spent ≡ true → IsErr result }
    {
        if self.spent {
            return Err(AllocError);
        }
        self.spent = true;
        self.ledger.reserve()?;
        let nav = self.rows.view.navs();
        let entry = started(self.alloc, &self.ledger, &mut self.rows, url)?;
        self.ledger.append(entry);
        self.spent = false;
        Ok(nav)
    }

    /// Answers the bytes that a renderer sent, whatever they are, with those of a reply.
    pub fn serve(
        &mut self,
        renderer: u16,
        request: &[u8],
        reply: &mut Vec<u8>,
    ) -> Result<(), AllocError>
        requires seat { renderer < self.old.rules.renderers }
        ensures ok { OnOk result (IsServed renderer request.now self.old reply.new.items self.new) }
        // Whatever the bytes are, each entry is the renderer's own.
        ensures own { All (IsOwn (log_of self.old.history) renderer) (answered self.old.rules (log_of self.old.history) renderer request.now).entries }
        ensures err { OnErr result (GivesUp self.old self.new) }
        ensures silent { OnErr result (reply.new.items ≡ []) }
        ensures spent { self.old.spent ≡ true → IsErr result }
    {
        reply.clear();
        if self.spent {
            return Err(AllocError);
        }
        self.spent = true;
        self.ledger.reserve()?;
        let Answered {
            decided,
            frame,
            upto,
        } = answer(self.alloc, &self.ledger, &mut self.rows, renderer, request)?;
        self.ledger.take_in(renderer, decided, upto);
        *reply = frame;
        self.spent = false;
        Ok(())
    }

    /// Appends that a renderer is lost.
    pub fn lose(&mut self, renderer: u16) -> Result<(), AllocError>
        requires seat { renderer < self.old.rules.renderers }
        requires there { is_lost_on renderer (log_of self.old.history) ≡ false }
        ensures ok { OnOk result (IsAt (Entered (lost_entry renderer) ∷ self.old.history) self.old self.new) }
        ensures err { OnErr result (GivesUp self.old self.new) }
        ensures spent { self.old.spent ≡ true → IsErr result }
    {
        if self.spent {
            return Err(AllocError);
        }
        self.spent = true;
        self.ledger.reserve()?;
        feed(
            self.alloc,
            &self.ledger,
            &mut self.rows,
            &self.ledger.loss(renderer),
        )?;
        self.ledger.lose(renderer);
        self.spent = false;
        Ok(())
    }
}
