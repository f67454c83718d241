// The children of each document.
ghost use Rattle.std.specs.Prelude.{◌≡◌, ◌≤◌, ◌<◌, ◌&&◌, ◌==◌, ℕ, List, length, OnOk, if◌then◌else◌, vec_capacity};
ghost use Rattle.std.specs.Option.{ForSome};
ghost use Rattle.tree_log.specs.Tree.{is};
ghost use Rattle.indexed_view.specs.Lists.{is_in, with_one, without};
ghost use Rattle.indexed_view.specs.Live.{is_name};
ghost use Rattle.indexed_view.specs.Families.{children_in, named_in, renamed, AreAscending, HasRoomIn};

use crate::lists::{is_there, put, take_out};
use crate::names::{make_room, put_name, rename, take_name};
use indexmap::IndexMap;
use std::alloc::{AllocError, Global};

/// The children of a document that were not dropped, all of them and those of each name, each list ascending.
#[derive(Drop)]
pub struct Family {
    pub(crate) children: Vec<u32>,
    pub(crate) names: IndexMap<String, Vec<u32>>,
}

/// Adds documents without children until there are so many.
pub(crate) fn grow_to(alloc: Global, families: &mut Vec<Family>, docs: u32)
    requires room { docs ≤ vec_capacity families.old }
    requires fewer { length families.old.items ≤ docs }
    ensures len { length families.new.items ≡ docs }
    ensures children { (d : ℕ) → children_in families.new.items d ≡ children_in families.old.items d }
    ensures names { (d : ℕ) (q : List ℕ) → named_in families.new.items d q ≡ named_in families.old.items d q }
{
    for _ in families.len()..docs as usize {
        families.push_reserved(Family {
            children: Vec::new(alloc),
            names: IndexMap::new(alloc),
        });
    }
}

/// Makes room for one more child of a document and of a name. Even after an `Err` the families say what they said.
pub(crate) fn make_room_in(
    alloc: Global,
    families: &mut Vec<Family>,
    doc: u32,
    name: &str,
) -> Result<(), AllocError>
    requires { doc < length families.old.items }
    ensures len { length families.new.items ≡ length families.old.items }
    ensures capacity { vec_capacity families.new ≡ vec_capacity families.old }
    ensures children { (d : ℕ) → children_in families.new.items d ≡ children_in families.old.items d }
    ensures names { (d : ℕ) (q : List ℕ) → named_in families.new.items d q ≡ named_in families.old.items d q }
    ensures room { OnOk result (HasRoomIn families.new.items doc name.now) }
{
    let family = &mut families[doc as usize];
    family.children.reserve(1)?;
    make_room(alloc, &mut family.names, name)
}

/// Puts a child among those of a document and of its name. There is room for it.
pub(crate) fn put_child(families: &mut Vec<Family>, doc: u32, name: &str, nav: u32)
    requires doc { doc < length families.old.items }
    requires ascending { AreAscending families.old.items doc }
    requires room { HasRoomIn families.old.items doc name.now }
    ensures len { length families.new.items ≡ length families.old.items }
    ensures capacity { vec_capacity families.new ≡ vec_capacity families.old }
    ensures children { (d : ℕ) → children_in families.new.items d ≡ (if doc == d then with_one nav (children_in families.old.items d) else children_in families.old.items d) }
    ensures names { (d : ℕ) (q : List ℕ) → named_in families.new.items d q ≡
        (if doc == d && is_name name.now q then with_one nav (named_in families.old.items d q) else named_in families.old.items d q) }
{
    let family = &mut families[doc as usize];
    put(&mut family.children, nav);
    put_name(&mut family.names, name, nav);
}

/// Takes a child out of those of a document and of its name.
pub(crate) fn take_child(families: &mut Vec<Family>, doc: u32, name: &str, nav: u32)
    requires doc { doc < length families.old.items }
    requires ascending { AreAscending families.old.items doc }
    ensures len { length families.new.items ≡ length families.old.items }
    ensures children { (d : ℕ) → children_in families.new.items d ≡ (if doc == d then without nav (children_in families.old.items d) else children_in families.old.items d) }
    ensures names { (d : ℕ) (q : List ℕ) → named_in families.new.items d q ≡
        (if doc == d && is_name name.now q then without nav (named_in families.old.items d q) else named_in families.old.items d q) }
{
    let family = &mut families[doc as usize];
    take_out(&mut family.children, nav);
    take_name(&mut family.names, name, nav);
}

/// Gives a child another name, if it is there. There is room for it.
pub(crate) fn rename_child(families: &mut Vec<Family>, doc: u32, from: &str, to: &str, nav: u32)
    requires doc { doc < length families.old.items }
    requires ascending { AreAscending families.old.items doc }
    requires room { HasRoomIn families.old.items doc to.now }
    ensures len { length families.new.items ≡ length families.old.items }
    ensures children { (d : ℕ) → children_in families.new.items d ≡ children_in families.old.items d }
    ensures names { (d : ℕ) (q : List ℕ) → named_in families.new.items d q ≡
        (if doc == d && is_in nav (children_in families.old.items d) then renamed nav from.now to.now q (named_in families.old.items d q) else named_in families.old.items d q) }
{
    let family = &mut families[doc as usize];
    if is_there(&family.children, nav) {
        rename(&mut family.names, from, to, nav);
    }
}

/// Makes room for one more child of an embedder, if there is one, and of a name. Even after an `Err` the families say
/// what they said.
pub(crate) fn make_room_if_any(
    alloc: Global,
    families: &mut Vec<Family>,
    embedder: Option<u32>,
    name: &str,
) -> Result<(), AllocError>
    requires { ForSome embedder (λ doc. doc < length families.old.items) }
    ensures len { length families.new.items ≡ length families.old.items }
    ensures children { (d : ℕ) → children_in families.new.items d ≡ children_in families.old.items d }
    ensures names { (d : ℕ) (q : List ℕ) → named_in families.new.items d q ≡ named_in families.old.items d q }
    ensures room { OnOk result (ForSome embedder (λ doc. HasRoomIn families.new.items doc name.now)) }
{
    match embedder {
        None => Ok(()),
        Some(doc) => make_room_in(alloc, families, doc, name),
    }
}

/// Takes a child out of those of its embedder, if it has one, and of its name.
pub(crate) fn take_if_any(families: &mut Vec<Family>, embedder: Option<u32>, name: &str, nav: u32)
    requires doc { ForSome embedder (λ doc. doc < length families.old.items) }
    requires ascending { (d : ℕ) → AreAscending families.old.items d }
    ensures len { length families.new.items ≡ length families.old.items }
    ensures children { (d : ℕ) → children_in families.new.items d ≡ (if is embedder d then without nav (children_in families.old.items d) else children_in families.old.items d) }
    ensures names { (d : ℕ) (q : List ℕ) → named_in families.new.items d q ≡
        (if is embedder d && is_name name.now q then without nav (named_in families.old.items d q) else named_in families.old.items d q) }
{
    match embedder {
        None => {}
        Some(doc) => take_child(families, doc, name, nav),
    }
}

/// Gives a child of an embedder, if it has one, another name. There is room for it.
pub(crate) fn rename_if_any(
    families: &mut Vec<Family>,
    embedder: Option<u32>,
    from: &str,
    to: &str,
    nav: u32,
)
    requires doc { ForSome embedder (λ doc. doc < length families.old.items) }
    requires ascending { (d : ℕ) → AreAscending families.old.items d }
    requires room { ForSome embedder (λ doc. HasRoomIn families.old.items doc to.now) }
    ensures len { length families.new.items ≡ length families.old.items }
    ensures children { (d : ℕ) → children_in families.new.items d ≡ children_in families.old.items d }
    ensures names { (d : ℕ) (q : List ℕ) → named_in families.new.items d q ≡
        (if is embedder d && is_in nav (children_in families.old.items d) then renamed nav from.now to.now q (named_in families.old.items d q) else named_in families.old.items d q) }
{
    match embedder {
        None => {}
        Some(doc) => rename_child(families, doc, from, to, nav),
    }
}
