// The writes to the rows, one for each kind of change. Each counts one more entry.
ghost use Rattle.std.specs.Option.{ForSome};
ghost use Rattle.std.specs.Prelude.{◌≡◌, ◌<◌, ◌≤◌, ◌+◌, vec_capacity, ◌++◌, [], ◌∷◌, length, set, get_or, true, Some, OnOk, OnErr};
ghost use Rattle.tree_view.specs.Closed.{FitsNew};
ghost use Rattle.tree_view.specs.Rows as spec;
ghost use Rattle.tree_view.specs.Rows.{no_nav, no_doc, new_docs, new_loads};

use crate::plain::rows::{DocRow, NewRows, PlainView};
use origin_core::{HostText, PageUrl};
use plain_data::Text;
use std::alloc::AllocError;

impl PlainView {
    /// A navigable was taken out of its document.
    pub(crate) fn write_drop(&mut self, nav: u32)
        requires nav { nav < length self.old.navs.items }
        requires room { self.old.len < 4294967295 }
        ensures navs { self.new.navs.items ≡ set self.old.navs.items nav (record (get_or self.old.navs.items nav no_nav) { dropped = true }) }
        ensures docs { self.new.docs.items ≡ self.old.docs.items }
        ensures groups { self.new.groups ≡ self.old.groups }
        ensures len { self.new.len ≡ self.old.len + 1 }
    {
        self.navs[nav as usize].dropped = true;
        self.len += 1;
    }

    /// A navigable closed.
    pub(crate) fn write_gone(&mut self, nav: u32)
        requires nav { nav < length self.old.navs.items }
        requires room { self.old.len < 4294967295 }
        ensures navs { self.new.navs.items ≡ set self.old.navs.items nav (record (get_or self.old.navs.items nav no_nav) { gone = true }) }
        ensures docs { self.new.docs.items ≡ self.old.docs.items }
        ensures groups { self.new.groups ≡ self.old.groups }
        ensures len { self.new.len ≡ self.old.len + 1 }
    {
        self.navs[nav as usize].gone = true;
        self.len += 1;
    }

    /// A navigable was asked to close.
    pub(crate) fn write_closing(&mut self, nav: u32)
        requires nav { nav < length self.old.navs.items }
        requires room { self.old.len < 4294967295 }
        ensures navs { self.new.navs.items ≡ set self.old.navs.items nav (record (get_or self.old.navs.items nav no_nav) { closing = true }) }
        ensures docs { self.new.docs.items ≡ self.old.docs.items }
        ensures groups { self.new.groups ≡ self.old.groups }
        ensures len { self.new.len ≡ self.old.len + 1 }
    {
        self.navs[nav as usize].closing = true;
        self.len += 1;
    }

    /// A navigable has another name.
    pub(crate) fn write_name(&mut self, nav: u32, name: Text)
        requires nav { nav < length self.old.navs.items }
        requires room { self.old.len < 4294967295 }
        ensures navs { self.new.navs.items ≡ set self.old.navs.items nav (record (get_or self.old.navs.items nav no_nav) { name = name }) }
        ensures docs { self.new.docs.items ≡ self.old.docs.items }
        ensures groups { self.new.groups ≡ self.old.groups }
        ensures len { self.new.len ≡ self.old.len + 1 }
    {
        self.navs[nav as usize].name = name;
        self.len += 1;
    }

    /// A navigable has another opener.
    pub(crate) fn write_opener(&mut self, nav: u32, to: Option<u32>)
        requires nav { nav < length self.old.navs.items }
        requires room { self.old.len < 4294967295 }
        requires to { ForSome to (λ n. n < length self.old.navs.items) }
        ensures navs { self.new.navs.items ≡ set self.old.navs.items nav (record (get_or self.old.navs.items nav no_nav) { opener = to }) }
        ensures docs { self.new.docs.items ≡ self.old.docs.items }
        ensures groups { self.new.groups ≡ self.old.groups }
        ensures len { self.new.len ≡ self.old.len + 1 }
    {
        self.navs[nav as usize].opener = to;
        self.len += 1;
    }

    /// A navigable begins to load a document.
    pub(crate) fn write_begin(&mut self, nav: u32, doc: u32, row: DocRow) -> Result<(), AllocError>
        requires nav { nav < length self.old.navs.items }
        requires doc { doc ≡ length self.old.docs.items }
        requires few { length self.old.docs.items < 4294967295 }
        requires row { row.nav ≡ nav }
        requires loaded { row.loaded ≡ true }
        requires room { self.old.len < 4294967295 }
        ensures navs { OnOk result (self.new.navs.items ≡ set self.old.navs.items nav (record (get_or self.old.navs.items nav no_nav) { last_load = Some doc })) }
        ensures docs { OnOk result (self.new.docs.items ≡ self.old.docs.items ++ row ∷ []) }
        ensures len { OnOk result (self.new.len ≡ self.old.len + 1) }
        ensures groups { self.new.groups ≡ self.old.groups }
        ensures err { OnErr result ((self.new.navs.items ≡ self.old.navs.items) × (self.new.docs.items ≡ self.old.docs.items) × (self.new.len ≡ self.old.len)) }
    {
        self.push_loaded(doc, row)?;
        self.write_load(nav, doc);
        Ok(())
    }

    #[tactic(auto, using(crate::proofs::Loads::loads_push))]
    fn push_loaded(&mut self, doc: u32, row: DocRow) -> Result<(), AllocError>
        requires nav { row.nav < length self.old.navs.items }
        requires doc { doc ≡ length self.old.docs.items }
        requires loaded { row.loaded ≡ true }
        requires few { length self.old.docs.items < 4294967295 }
        ensures docs { OnOk result (self.new.docs.items ≡ self.old.docs.items ++ row ∷ []) }
        ensures err { OnErr result (self.new.docs.items ≡ self.old.docs.items) }
        ensures navs { self.new.navs.items ≡ self.old.navs.items }
        ensures groups { self.new.groups ≡ self.old.groups }
        ensures len { self.new.len ≡ self.old.len }
    {
        self.loads.reserve(1)?;
        self.docs.push(row)?;
        self.loads.push_reserved(doc);
        Ok(())
    }

    fn write_load(&mut self, nav: u32, doc: u32)
        requires nav { nav < length self.old.navs.items }
        requires room { self.old.len < 4294967295 }
        requires doc { doc < length self.old.docs.items }
        ensures navs { self.new.navs.items ≡ set self.old.navs.items nav (record (get_or self.old.navs.items nav no_nav) { last_load = Some doc }) }
        ensures docs { self.new.docs.items ≡ self.old.docs.items }
        ensures groups { self.new.groups ≡ self.old.groups }
        ensures len { self.new.len ≡ self.old.len + 1 }
    {
        self.navs[nav as usize].last_load = Some(doc);
        self.len += 1;
    }

    /// A document is the active one of a navigable from here on.
    pub(crate) fn write_commit(&mut self, nav: u32, doc: u32)
        requires nav { nav < length self.old.navs.items }
        requires doc { doc < length self.old.docs.items }
        requires own { (get_or self.old.docs.items doc no_doc).nav ≡ nav }
        requires room { self.old.len < 4294967295 }
        ensures navs { self.new.navs.items ≡ set self.old.navs.items nav (record (get_or self.old.navs.items nav no_nav) { active = doc }) }
        ensures docs { self.new.docs.items ≡ set self.old.docs.items doc (record (get_or self.old.docs.items doc no_doc) { been_active = true }) }
        ensures groups { self.new.groups ≡ self.old.groups }
        ensures len { self.new.len ≡ self.old.len + 1 }
    {
        self.write_been_active(doc);
        self.write_active(nav, doc);
    }

    fn write_been_active(&mut self, doc: u32)
        requires doc { doc < length self.old.docs.items }
        ensures docs { self.new.docs.items ≡ set self.old.docs.items doc (record (get_or self.old.docs.items doc no_doc) { been_active = true }) }
        ensures navs { self.new.navs.items ≡ self.old.navs.items }
        ensures groups { self.new.groups ≡ self.old.groups }
        ensures len { self.new.len ≡ self.old.len }
    {
        self.docs[doc as usize].been_active = true;
    }

    fn write_active(&mut self, nav: u32, doc: u32)
        requires nav { nav < length self.old.navs.items }
        requires room { self.old.len < 4294967295 }
        requires doc { doc < length self.old.docs.items }
        requires own { (get_or self.old.docs.items doc no_doc).nav ≡ nav }
        ensures navs { self.new.navs.items ≡ set self.old.navs.items nav (record (get_or self.old.navs.items nav no_nav) { active = doc }) }
        ensures docs { self.new.docs.items ≡ self.old.docs.items }
        ensures groups { self.new.groups ≡ self.old.groups }
        ensures len { self.new.len ≡ self.old.len + 1 }
    {
        self.navs[nav as usize].active = doc;
        self.len += 1;
    }

    /// A document has another URL.
    pub(crate) fn write_url(&mut self, doc: u32, url: PageUrl)
        requires doc { doc < length self.old.docs.items }
        requires room { self.old.len < 4294967295 }
        ensures docs { self.new.docs.items ≡ set self.old.docs.items doc (record (get_or self.old.docs.items doc no_doc) { url = url }) }
        ensures navs { self.new.navs.items ≡ self.old.navs.items }
        ensures groups { self.new.groups ≡ self.old.groups }
        ensures len { self.new.len ≡ self.old.len + 1 }
    {
        self.docs[doc as usize].url = url;
        self.len += 1;
    }

    /// A document has set its domain.
    pub(crate) fn write_domain(&mut self, doc: u32, domain: HostText)
        requires doc { doc < length self.old.docs.items }
        requires room { self.old.len < 4294967295 }
        ensures docs { self.new.docs.items ≡ set self.old.docs.items doc (record (get_or self.old.docs.items doc no_doc) { domain = Some domain }) }
        ensures navs { self.new.navs.items ≡ self.old.navs.items }
        ensures groups { self.new.groups ≡ self.old.groups }
        ensures len { self.new.len ≡ self.old.len + 1 }
    {
        self.docs[doc as usize].domain = Some(domain);
        self.len += 1;
    }

    /// Nothing that the rows say has changed.
    pub(crate) fn write_nothing(&mut self)
        requires room { self.old.len < 4294967295 }
        ensures navs { self.new.navs.items ≡ self.old.navs.items }
        ensures docs { self.new.docs.items ≡ self.old.docs.items }
        ensures groups { self.new.groups ≡ self.old.groups }
        ensures len { self.new.len ≡ self.old.len + 1 }
    {
        self.len += 1;
    }

    /// A new navigable, with its initial document and the one that it loads.
    pub(crate) fn write_new(&mut self, new: NewRows) -> Result<(), AllocError>
        requires fits { FitsNew (length self.old.navs.items) (length self.old.docs.items) self.old.groups new }
        requires room { self.old.len < 4294967295 }
        ensures navs { OnOk result (self.new.navs.items ≡ self.old.navs.items ++ new.row ∷ []) }
        ensures docs { OnOk result (self.new.docs.items ≡ self.old.docs.items ++ new_docs new.initial new.loaded) }
        ensures groups { OnOk result (self.new.groups ≡ spec.grown self.old.groups new.row.made.group) }
        ensures len { OnOk result (self.new.len ≡ self.old.len + 1) }
        ensures err { OnErr result ((self.new.navs.items ≡ self.old.navs.items) × (self.new.docs.items ≡ self.old.docs.items) × (self.new.groups ≡ self.old.groups) × (self.new.len ≡ self.old.len)) }
    {
        self.docs.reserve(2)?;
        self.loads.reserve(1)?;
        let groups = grown(self.groups, new.row.made.group);
        self.navs.push(new.row)?;
        push_reserved(&mut self.docs, &mut self.loads, new.initial, new.loaded);
        self.groups = groups;
        self.len += 1;
        Ok(())
    }
}

// The documents that come with a new navigable.
fn push_reserved(
    docs: &mut Vec<DocRow>,
    loads: &mut Vec<u32>,
    initial: DocRow,
    loaded: Option<DocRow>,
)
    requires docs { length docs.old.items + 2 ≤ vec_capacity docs.old }
    requires loads { length loads.old.items + 1 ≤ vec_capacity loads.old }
    requires few { length docs.old.items + length (new_docs initial loaded) < 4294967296 }
    ensures docs { docs.new.items ≡ docs.old.items ++ new_docs initial loaded }
    ensures loads { loads.new.items ≡ loads.old.items ++ new_loads (length docs.old.items) loaded }
{
    docs.push_reserved(initial);
    if let Some(loaded) = loaded {
        loads.push_reserved(docs.len() as u32);
        docs.push_reserved(loaded);
    }
}

// How many groups there are with that of a new navigable.
fn grown(groups: u32, group: Option<u32>) -> u32
    requires { ForSome group (λ g. g ≡ groups → g < 4294967295) }
    ensures { result ≡ spec.grown groups group }
{
    match group {
        None => groups,
        Some(group) => { if group == groups { groups + 1 } else { groups } }
    }
}
