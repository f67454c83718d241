// One more entry: the rows of the view have it first, and then the index follows. What can fail comes before that.
ghost use Rattle.std.specs.Prelude.{◌≡◌, ◌+◌, ◌≤◌, ◌++◌, [], ◌∷◌, ℕ, List, IsTrue, OnOk, OnErr, true, false, Some, vec_capacity, length};
ghost use Rattle.indexed_view.specs.Families.{children_in, named_in};
ghost use Rattle.indexed_view.specs.Index.{IsIndexOf, is_quiet, is_opening, is_beginning, framed_name, committed_nav};
ghost use Rattle.tree_log.specs.Admits.{admits};
ghost use Rattle.tree_log.specs.Tree.{tree_after};
ghost use Rattle.tree_log.specs.Urls.{urls_after};
ghost use Rattle.tree_log.specs.declared.entry.What.TheVariants.{Drop, Name, Gone};

use crate::families::{
    grow_to, make_room_if_any, make_room_in, put_child, rename_if_any, take_if_any,
};
use crate::index::{Index, Place};
use crate::marks::mark_cuts;
use crate::reads::{embedder_of, root};
use std::alloc::AllocError;
use tree_log::{Entry, What};
use tree_view::View;

/// Makes room for one more navigable beside so many, and for its documents. Even after an `Err` the index says what it
/// said.
fn make_room_for_nav(index: &mut Index, navs: u32) -> Result<(), AllocError>
    requires { navs ≤ vec_capacity index.old.queue }
    ensures places { index.new.places.items ≡ index.old.places.items }
    ensures marks { index.new.marks.items ≡ index.old.marks.items }
    ensures families { index.new.families.items ≡ index.old.families.items }
    ensures queue { navs ≤ vec_capacity index.new.queue }
    ensures room_places { OnOk result (length index.new.places.items + 1 ≤ vec_capacity index.new.places) }
    ensures room_marks { OnOk result (length index.new.marks.items + 1 ≤ vec_capacity index.new.marks) }
    ensures room_families { OnOk result (length index.new.families.items + 2 ≤ vec_capacity index.new.families) }
    ensures room_queue { OnOk result (navs + 1 ≤ vec_capacity index.new.queue) }
{
    index.places.reserve(1)?;
    index.marks.reserve(1)?;
    index.families.reserve(2)?;
    index.queue.clear();
    index.queue.reserve(navs as usize + 1)
}

/// Notes a new navigable, which was not discarded.
fn push_nav(index: &mut Index, place: Place, docs: u32)
    requires room_places { length index.old.places.items + 1 ≤ vec_capacity index.old.places }
    requires room_marks { length index.old.marks.items + 1 ≤ vec_capacity index.old.marks }
    requires room_families { docs ≤ vec_capacity index.old.families }
    requires fewer { length index.old.families.items ≤ docs }
    ensures places { index.new.places.items ≡ index.old.places.items ++ place ∷ [] }
    ensures marks { index.new.marks.items ≡ index.old.marks.items ++ false ∷ [] }
    ensures queue { index.new.queue ≡ index.old.queue }
    ensures docs { length index.new.families.items ≡ docs }
    ensures children { (d : ℕ) → children_in index.new.families.items d ≡ children_in index.old.families.items d }
    ensures names { (d : ℕ) (q : List ℕ) → named_in index.new.families.items d q ≡ named_in index.old.families.items d q }
{
    index.places.push_reserved(place);
    index.marks.push_reserved(false);
    grow_to(index.alloc, &mut index.families, docs);
}

/// An entry that makes nothing, names nothing and discards nothing.
fn follow_quiet<V: View>(view: &mut V, index: &mut Index, entry: &Entry) -> Result<(), AllocError>
    requires admitted { IsTrue (admits (V.tree view.old) entry.now) }
    requires indexed { IsIndexOf (V.tree view.old) index.old }
    requires quiet { is_quiet entry.now.what ≡ true }
    ensures indexed { IsIndexOf (V.tree view.new) index.new }
    ensures ok { OnOk result (V.tree view.new ≡ tree_after (V.tree view.old) entry.now) }
    ensures urls_ok { OnOk result (V.urls view.new ≡ urls_after (V.urls view.old) entry.now) }
    ensures err { OnErr result (V.tree view.new ≡ V.tree view.old) }
    ensures urls_err { OnErr result (V.urls view.new ≡ V.urls view.old) }
{
    view.apply(entry)?;
    let _navs = view.navs();
    Ok(())
}

/// A navigable begins to load a document.
fn follow_begin<V: View>(view: &mut V, index: &mut Index, entry: &Entry) -> Result<(), AllocError>
    requires admitted { IsTrue (admits (V.tree view.old) entry.now) }
    requires indexed { IsIndexOf (V.tree view.old) index.old }
    requires kind { is_beginning entry.now.what ≡ true }
    ensures indexed { IsIndexOf (V.tree view.new) index.new }
    ensures ok { OnOk result (V.tree view.new ≡ tree_after (V.tree view.old) entry.now) }
    ensures urls_ok { OnOk result (V.urls view.new ≡ urls_after (V.urls view.old) entry.now) }
    ensures err { OnErr result (V.tree view.new ≡ V.tree view.old) }
    ensures urls_err { OnErr result (V.urls view.new ≡ V.urls view.old) }
{
    index.families.reserve(1)?;
    view.apply(entry)?;
    let _navs = view.navs();
    grow_to(index.alloc, &mut index.families, view.docs());
    Ok(())
}

/// A child navigable was taken out of its document.
fn follow_drop<V: View>(
    view: &mut V,
    index: &mut Index,
    entry: &Entry,
    nav: u32,
) -> Result<(), AllocError>
    requires admitted { IsTrue (admits (V.tree view.old) entry.now) }
    requires indexed { IsIndexOf (V.tree view.old) index.old }
    requires kind { entry.now.what ≡ Drop nav }
    ensures indexed { IsIndexOf (V.tree view.new) index.new }
    ensures ok { OnOk result (V.tree view.new ≡ tree_after (V.tree view.old) entry.now) }
    ensures urls_ok { OnOk result (V.urls view.new ≡ urls_after (V.urls view.old) entry.now) }
    ensures err { OnErr result (V.tree view.new ≡ V.tree view.old) }
    ensures urls_err { OnErr result (V.urls view.new ≡ V.urls view.old) }
{
    let embedder = embedder_of(view, index, nav);
    view.apply(entry)?;
    let _navs = view.navs();
    take_if_any(&mut index.families, embedder, view.name(nav), nav);
    mark_cuts(
        view,
        &index.families,
        &mut index.marks,
        &mut index.queue,
        &[nav],
    );
    Ok(())
}

/// A navigable closed.
fn follow_gone<V: View>(
    view: &mut V,
    index: &mut Index,
    entry: &Entry,
    nav: u32,
) -> Result<(), AllocError>
    requires admitted { IsTrue (admits (V.tree view.old) entry.now) }
    requires indexed { IsIndexOf (V.tree view.old) index.old }
    requires kind { entry.now.what ≡ Gone nav }
    ensures indexed { IsIndexOf (V.tree view.new) index.new }
    ensures ok { OnOk result (V.tree view.new ≡ tree_after (V.tree view.old) entry.now) }
    ensures urls_ok { OnOk result (V.urls view.new ≡ urls_after (V.urls view.old) entry.now) }
    ensures err { OnErr result (V.tree view.new ≡ V.tree view.old) }
    ensures urls_err { OnErr result (V.urls view.new ≡ V.urls view.old) }
{
    view.apply(entry)?;
    let _navs = view.navs();
    mark_cuts(
        view,
        &index.families,
        &mut index.marks,
        &mut index.queue,
        &[nav],
    );
    Ok(())
}

/// Another document of a navigable is active: what the earlier one embeds is discarded.
fn follow_commit<V: View>(
    view: &mut V,
    index: &mut Index,
    entry: &Entry,
    nav: u32,
) -> Result<(), AllocError>
    requires admitted { IsTrue (admits (V.tree view.old) entry.now) }
    requires indexed { IsIndexOf (V.tree view.old) index.old }
    requires kind { committed_nav entry.now.what ≡ Some nav }
    ensures indexed { IsIndexOf (V.tree view.new) index.new }
    ensures ok { OnOk result (V.tree view.new ≡ tree_after (V.tree view.old) entry.now) }
    ensures urls_ok { OnOk result (V.urls view.new ≡ urls_after (V.urls view.old) entry.now) }
    ensures err { OnErr result (V.tree view.new ≡ V.tree view.old) }
    ensures urls_err { OnErr result (V.urls view.new ≡ V.urls view.old) }
{
    let replaced = view.active(nav);
    view.apply(entry)?;
    let _navs = view.navs();
    let cuts = &index.families[replaced as usize].children;
    mark_cuts(
        view,
        &index.families,
        &mut index.marks,
        &mut index.queue,
        cuts,
    );
    Ok(())
}

/// A navigable has another target name.
fn follow_name<V: View>(
    view: &mut V,
    index: &mut Index,
    entry: &Entry,
    nav: u32,
    name: &str,
) -> Result<(), AllocError>
    requires admitted { IsTrue (admits (V.tree view.old) entry.now) }
    requires indexed { IsIndexOf (V.tree view.old) index.old }
    requires kind { entry.now.what ≡ Name nav name.now }
    ensures indexed { IsIndexOf (V.tree view.new) index.new }
    ensures ok { OnOk result (V.tree view.new ≡ tree_after (V.tree view.old) entry.now) }
    ensures urls_ok { OnOk result (V.urls view.new ≡ urls_after (V.urls view.old) entry.now) }
    ensures err { OnErr result (V.tree view.new ≡ V.tree view.old) }
    ensures urls_err { OnErr result (V.urls view.new ≡ V.urls view.old) }
{
    let embedder = embedder_of(view, index, nav);
    let from = String::from_str(index.alloc, view.name(nav))?;
    make_room_if_any(index.alloc, &mut index.families, embedder, name)?;
    view.apply(entry)?;
    let _navs = view.navs();
    rename_if_any(&mut index.families, embedder, from.as_str(), name, nav);
    Ok(())
}

/// A new top-level navigable.
fn follow_open<V: View>(view: &mut V, index: &mut Index, entry: &Entry) -> Result<(), AllocError>
    requires admitted { IsTrue (admits (V.tree view.old) entry.now) }
    requires indexed { IsIndexOf (V.tree view.old) index.old }
    requires kind { is_opening entry.now.what ≡ true }
    ensures indexed { IsIndexOf (V.tree view.new) index.new }
    ensures ok { OnOk result (V.tree view.new ≡ tree_after (V.tree view.old) entry.now) }
    ensures urls_ok { OnOk result (V.urls view.new ≡ urls_after (V.urls view.old) entry.now) }
    ensures err { OnErr result (V.tree view.new ≡ V.tree view.old) }
    ensures urls_err { OnErr result (V.urls view.new ≡ V.urls view.old) }
{
    let nav = view.navs();
    make_room_for_nav(index, nav)?;
    view.apply(entry)?;
    let _navs = view.navs();
    let place = Place {
        embedder: None,
        top: nav,
    };
    push_nav(index, place, view.docs());
    Ok(())
}

/// A new child navigable of a document.
fn follow_frame<V: View>(
    view: &mut V,
    index: &mut Index,
    entry: &Entry,
    doc: u32,
    name: &str,
) -> Result<(), AllocError>
    requires admitted { IsTrue (admits (V.tree view.old) entry.now) }
    requires indexed { IsIndexOf (V.tree view.old) index.old }
    requires actor { entry.now.actor ≡ Some doc }
    requires kind { framed_name entry.now.what ≡ Some name.now }
    ensures indexed { IsIndexOf (V.tree view.new) index.new }
    ensures ok { OnOk result (V.tree view.new ≡ tree_after (V.tree view.old) entry.now) }
    ensures urls_ok { OnOk result (V.urls view.new ≡ urls_after (V.urls view.old) entry.now) }
    ensures err { OnErr result (V.tree view.new ≡ V.tree view.old) }
    ensures urls_err { OnErr result (V.urls view.new ≡ V.urls view.old) }
{
    let nav = view.navs();
    let place = Place {
        embedder: Some(doc),
        top: root(view, index, view.nav_of(doc)),
    };
    make_room_for_nav(index, nav)?;
    make_room_in(index.alloc, &mut index.families, doc, name)?;
    view.apply(entry)?;
    let _navs = view.navs();
    put_child(&mut index.families, doc, name, nav);
    push_nav(index, place, view.docs());
    Ok(())
}

/// Applies one more entry. After an `Err` the view is as before.
pub(crate) fn follow<V: View>(
    view: &mut V,
    index: &mut Index,
    entry: &Entry,
) -> Result<(), AllocError>
    requires admitted { IsTrue (admits (V.tree view.old) entry.now) }
    requires indexed { IsIndexOf (V.tree view.old) index.old }
    ensures indexed { IsIndexOf (V.tree view.new) index.new }
    ensures ok { OnOk result (V.tree view.new ≡ tree_after (V.tree view.old) entry.now) }
    ensures urls_ok { OnOk result (V.urls view.new ≡ urls_after (V.urls view.old) entry.now) }
    ensures err { OnErr result (V.tree view.new ≡ V.tree view.old) }
    ensures urls_err { OnErr result (V.urls view.new ≡ V.urls view.old) }
{
    match &entry.what {
        What::Open { .. } => follow_open(view, index, entry),
        What::Frame { name, .. } => match entry.actor {
            Some(doc) => follow_frame(view, index, entry, doc, name.as_str()),
            None => unreachable!(),
        },
        What::Begin { .. } => follow_begin(view, index, entry),
        What::Drop { nav } => follow_drop(view, index, entry, *nav),
        What::Gone { nav } => follow_gone(view, index, entry, *nav),
        What::Commit { nav, .. } => follow_commit(view, index, entry, *nav),
        What::Name { nav, name } => follow_name(view, index, entry, *nav, name.as_str()),
        _ => follow_quiet(view, index, entry),
    }
}
