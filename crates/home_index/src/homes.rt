ghost use Rattle.std.specs.Prelude.{◌≡◌, ◌<◌, ℕ, List, [], ◌∷◌, OnOk, OnErr};

use crate::key::{Key, Resident, add, home_at, place_for};
use indexmap::{IndexMap, IndexSet};
use origin_core::Site;
use std::alloc::{AllocError, Global};
use std::marker::Model;

/// The groups and sites of the loaded documents, with the home of each.
///
/// A contract sees the rows, in the order of the first loads.
#[derive(Drop)]
pub struct Homes {
    alloc: Global,
    /// Each host that a site was of. Its place is its number.
    hosts: IndexSet<String>,
    rows: IndexMap<Key, Resident>,
}

impl Model for Homes {
    ghost use Rattle.std.specs.Prelude.{List};
    ghost use Rattle.home_index.specs.Rows.{Row};
    ghost use Rattle.home_index.specs.Keyed.{rows_in, ArePlaced};

    ghost Value = { List Row };

    ghost view = { λ h. rows_in h.rows.entries };

    ghost invariant = { λ h. ArePlaced h.hosts.keys h.rows.entries };
}

impl Homes {
    ghost use Rattle.home_index.specs.Rows.{row, with_row, home_in, IsFed, BeginsLoad};
    ghost use Rattle.tree_log.specs.declared.entry.Entry.{Entry};
    ghost use Rattle.tree_log.specs.Admits.{AreAdmitted};
    ghost use Rattle.tree_log.specs.Homes.{home_for};
    ghost use Rattle.tree_log.specs.Tree.{tree_of};

    /// The rows of an empty log. It takes no memory.
    pub fn new(alloc: Global) -> Homes
        ensures empty { result ≡ [] }
        ensures fed { (suffixes : List (List ℕ)) → IsFed suffixes result [] }
    {
        Homes {
            alloc,
            hosts: IndexSet::new(alloc),
            rows: IndexMap::new(alloc),
        }
    }

    /// The renderer that is to hold a new document of a group and a site: the one that holds the first loaded document
    /// of them, or else the next renderer (HTML Standard, 7.3.2.3, agent clusters keyed by sites).
    ///
    /// The group and the site may be new. It takes no memory.
    pub fn home_for(&self, group: u32, site: &Site, renderers: u16) -> u16
        requires { 0 < renderers }
        ensures row { result ≡ home_in renderers self.now group site.now }
        ensures definition { (suffixes : List (List ℕ)) (log : List Entry) → AreAdmitted log → IsFed suffixes self.now log →
            result ≡ home_for renderers suffixes (tree_of log) group site.now }
    {
        match home_at(&self.hosts, &self.rows, group, site) {
            Some(home) => home,
            None => (self.rows.len() % usize::from(renderers)) as u16,
        }
    }

    /// Notes the group, the site and the home of a document whose load joins the log. A pair of group and site that was
    /// noted before keeps its home.
    ///
    /// It fails only where there is no memory, and then the rows stay as they were.
    pub fn note(&mut self, group: u32, site: Site, home: u16) -> Result<(), AllocError>
        ensures noted { OnOk result (self.new ≡ with_row self.old (row group site home)) }
        ensures fed { OnOk result ((suffixes : List (List ℕ)) (entry : Entry) (log : List Entry) → AreAdmitted (entry ∷ log) →
            BeginsLoad suffixes log entry (row group site home) → IsFed suffixes self.old log → IsFed suffixes self.new (entry ∷ log)) }
        ensures err { OnErr result (self.new ≡ self.old) }
    {
        let place = place_for(self.alloc, &mut self.hosts, &site)?;
        add(
            &mut self.rows,
            Key { group, place },
            Resident { site, home },
        )
    }
}
