ghost use Rattle.std.specs.Prelude.{◌≡◌, ◌≤◌, ◌<◌, ◌+◌, ◌++◌, ◌∷◌, [], List, length, reverse, true, false, IsTrue, IfOk, OnErr};
ghost use Rattle.std.specs.Option.{option_copied};
ghost use Rattle.tree_log.specs.Admits.{admits, AreAdmitted};
ghost use Rattle.tree_log.specs.Log.{entry_at};
ghost use Rattle.tree_log.specs.Tree.{tree_of};
ghost use Rattle.tree_log.specs.Urls.{url_of};
ghost use Rattle.exchange_laws.specs.Fit.{AreFit};
ghost use Rattle.frame_grammar.specs.Entries as grammar;
ghost use Rattle.link_wire.specs.Links.{are_admitted, most_heard};
ghost use Rattle.link_exchange.specs.Hearing.{Extends};

use crate::view::EmptyView;
use std::alloc::{AllocError, Global};
use std::marker::Model;
use tree_log::{Entry, Log};

/// The entries that a renderer heard, with a view of the tree that they make.
///
/// Contracts see the entries, the newest first. Each of them could follow those before it, and is in range of frames.
#[derive(Drop)]
pub struct Replica<V: EmptyView> {
    log: Log,
    view: V,
}

impl<V: EmptyView> Model for Replica<V> {
    ghost use Rattle.std.specs.Prelude.{List};
    ghost use Rattle.std.specs.Coded.{codes};
    ghost use Rattle.plain_data.specs.contracts.data.Data as data_type;
    ghost use Rattle.link_exchange.specs.Beginning.{IsViewOf};
    ghost use Rattle.tree_log.specs.declared.entry.Entry.{Entry};

    ghost Value = { List Entry };

    ghost coded = { Prim.hlevel (codes, data_type.the_row.coded) };

    ghost view = { λ r. r.log.entries };

    ghost invariant = { λ r. IsViewOf V.tree V.urls r.view r.log.entries };
}

impl<V: EmptyView> Replica<V> {
    ghost use Rattle.tree_log.specs.declared.entry.Entry.{Entry as EntryValue};

    /// Nothing was heard yet.
    pub fn new(alloc: Global) -> Self
        ensures { result ≡ [] }
    {
        Replica {
            log: Log::new(alloc),
            view: V::empty(alloc),
        }
    }

    /// The tree that the entries make.
    pub fn view(&self) -> &V
        ensures tree { V.tree result.now ≡ tree_of self.now }
        ensures urls { V.urls result.now ≡ url_of self.now }
        ensures admitted { AreAdmitted self.now }
        ensures fit { AreFit self.now }
    {
        &self.view
    }

    /// How many entries were heard.
    pub fn len(&self) -> u32
        ensures value { result ≡ length self.now }
        ensures few { length self.now ≤ most_heard }
    {
        self.log.len()
    }

    /// The entry at a place.
    pub fn at(&self, place: u32) -> Option<&Entry>
        ensures { option_copied result ≡ entry_at self.now place }
    {
        self.log.at(place)
    }

    /// Hears one more entry, if it can follow those before it.
    #[tactic(auto, using(crate::proofs::Joining::entry_ascends, tree_log::specs::Tree::tree_of_step))]
    pub fn hear(&mut self, entry: Entry) -> Result<bool, AllocError>
        requires few { length self.old < most_heard }
        requires fit { grammar.entry.Fits entry }
        ensures heard { IfOk result (λ follows. IsTrue follows → (self.new ≡ entry ∷ self.old)) }
        ensures follows { IfOk result (λ follows. follows ≡ admits (tree_of self.old) entry) }
        ensures refused { IfOk result (λ follows. follows ≡ false → self.new ≡ self.old) }
        ensures err { OnErr result (self.new ≡ self.old) }
    {
        if !self.view.admits(&entry) {
            return Ok(false);
        }
        self.log.reserve(1)?;
        self.view.apply(&entry)?;
        self.log.push(entry)?;
        Ok(true)
    }

    /// Hears the news of a reply, the oldest first, as far as each entry can follow those before it; and answers whether all
    /// can.
    pub fn hear_all(&mut self, news: Vec<Entry>) -> Result<bool, AllocError>
        requires room { length self.old + length news.items ≤ most_heard }
        requires fit { AreFit news.items }
        ensures heard { IfOk result (λ all. IsTrue all → (self.new ≡ reverse news.items ++ self.old)) }
        ensures follow { IfOk result (λ all. all ≡ are_admitted self.old news.items) }
        ensures grown { Extends self.old self.new }
    {
        for entry in news {
            if !self.hear(entry)? {
                return Ok(false);
            }
        }
        Ok(true)
    }
}
