ghost use Rattle.std.specs.Prelude.{◌≡◌, Some, IfOk, OnOk, OnErr, option_map, find};
ghost use Rattle.home_index.specs.Keyed as spec;
ghost use Rattle.home_index.specs.Keyed.{KeepsPlaces, ArePlaced, rows_in};
ghost use Rattle.home_index.specs.Rows.{is_row_of};

use indexmap::{IndexMap, IndexSet};
use origin_core::{Scheme, Site};
use std::alloc::{AllocError, Global};

/// A site, with a number for its host.
#[derive(Clone, Copy, Debug, PartialEq, Eq, Hash)]
pub enum Place {
    Http(usize),
    Https(usize),
    Opaque(u32),
}

/// What a row is found by.
#[derive(Clone, Copy, Debug, PartialEq, Eq, Hash)]
pub struct Key {
    pub group: u32,
    pub place: Place,
}

/// A site, and the home of its documents in one group.
#[derive(Drop)]
pub struct Resident {
    pub site: Site,
    pub home: u16,
}

fn named_place(scheme: Scheme, host: usize) -> Place
    ensures { result ≡ spec.named_place scheme host }
{
    match scheme {
        Scheme::Http => Place::Http(host),
        Scheme::Https => Place::Https(host),
    }
}

/// The place of a site, if its host has a number. It takes no memory.
pub fn place_of(hosts: &IndexSet<String>, site: &Site) -> Option<Place>
    ensures { result ≡ spec.place_of hosts.now.keys site.now }
{
    match site {
        Site::Named(scheme, host) => match hosts.get_index_of(host.as_str()) {
            Some(number) => Some(named_place(*scheme, number)),
            None => None,
        },
        Site::Opaque(doc) => Some(Place::Opaque(*doc)),
    }
}

/// The place of a site, whose host has a number from here on.
pub fn place_for(
    alloc: Global,
    hosts: &mut IndexSet<String>,
    site: &Site,
) -> Result<Place, AllocError>
    ensures placed { IfOk result (λ place. spec.place_of hosts.new.keys site.now ≡ Some place) }
    ensures kept { KeepsPlaces hosts.old.keys hosts.new.keys }
{
    match site {
        Site::Named(scheme, host) => {
            let (number, _) = hosts.insert_full(String::from_str(alloc, host.as_str())?)?;
            Ok(named_place(*scheme, number))
        }
        Site::Opaque(doc) => Ok(Place::Opaque(*doc)),
    }
}

/// The home of a group and a site, if there is a row. It takes no memory.
pub fn home_at(
    hosts: &IndexSet<String>,
    rows: &IndexMap<Key, Resident>,
    group: u32,
    site: &Site,
) -> Option<u16>
    requires { ArePlaced hosts.now.keys rows.now.entries }
    ensures { result ≡ option_map (λ r. r.home) (find (is_row_of group site.now) (rows_in rows.now.entries)) }
{
    match place_of(hosts, site) {
        Some(place) => match rows.get(&Key { group, place }) {
            Some(resident) => Some(resident.home),
            None => None,
        },
        None => None,
    }
}

/// Adds an entry, unless its key is there.
pub fn add(
    rows: &mut IndexMap<Key, Resident>,
    key: Key,
    resident: Resident,
) -> Result<(), AllocError>
    ensures added { OnOk result (rows.new.entries ≡ spec.with_entry rows.old.entries (key, resident)) }
    ensures err { OnErr result (rows.new.entries ≡ rows.old.entries) }
{
    if rows.contains_key(&key) {
        return Ok(());
    }
    rows.insert(key, resident)?;
    Ok(())
}
