ghost use Rattle.std.specs.Prelude.{◌≡◌, true, OnOk, OnErr};
ghost use Rattle.std.specs.BTreeMap as map_spec;
ghost use Rattle.std.specs.Ordering.{nat_cmp};
ghost use Rattle.task_index.specs.Fed.{has, Stands, Ends, Asks, DueLoad, DueMove, IsKept, IsTaken, Joins};

use crate::ends::{end_message, set_over};
use crate::places::put_place;
use crate::waiting::Waiting;
use std::alloc::AllocError;
use std::collections::BTreeMap;
use tree_log::{Load, Log, What};
use tree_view::View;

/// Takes in what happened at a place. The log is the one before it, and the view one of the log with it.
pub fn feed_what<V: View>(
    waiting: &mut Waiting,
    log: &Log,
    view: &V,
    place: u32,
    what: &What,
) -> Result<(), AllocError>
    requires { Stands (V.tree view.now) what.now }
    ensures ok { OnOk result (IsTaken log.now.entries (V.tree view.now) place what.now waiting.old waiting.new) }
    ensures err { OnErr result (IsKept waiting.old waiting.new) }
{
    match what {
        What::Open { load, .. } => feed_load(waiting, place, load),
        What::Frame { load, .. } => feed_load(waiting, place, load),
        What::Begin { load, .. } => feed_place(waiting, load.home, place),
        What::Post { to, .. } => feed_message(waiting, view.home_of(*to), place, *to),
        What::Fire { doc, post } => feed_end(waiting, log, *doc, *post),
        What::Lapse { doc, post, .. } => feed_end(waiting, log, *doc, *post),
        What::Closing { nav } => {
            feed_closing(waiting, view.home_of(view.active(*nav)), place, *nav)
        }
        What::Commit { nav, doc, .. } => move_closing(waiting, view.home_of(*doc), *nav),
        _ => Ok(()),
    }
}

fn feed_place(waiting: &mut Waiting, renderer: u16, place: u32) -> Result<(), AllocError>
    ensures kept { IsKept waiting.old waiting.new }
    ensures due { OnOk result (has waiting.new.rows.items renderer place ≡ true) }
{
    put_place(waiting.alloc, &mut waiting.rows, renderer, place)
}

fn feed_load(waiting: &mut Waiting, place: u32, load: &Option<Load>) -> Result<(), AllocError>
    ensures kept { IsKept waiting.old waiting.new }
    ensures due { OnOk result (DueLoad waiting.new.rows.items place load.now) }
{
    match load {
        Some(load) => feed_place(waiting, load.home, place),
        None => Ok(()),
    }
}

/// A message to a document joins. Where its end came before it, it is over.
fn feed_message(waiting: &mut Waiting, renderer: u16, place: u32, to: u32) -> Result<(), AllocError>
    ensures ok { OnOk result (Joins renderer place to waiting.old waiting.new) }
    ensures err { OnErr result (IsKept waiting.old waiting.new) }
{
    feed_place(waiting, renderer, place)?;
    if waiting.early.contains(&(to, place)) {
        set_over(&mut waiting.over, place)?;
    }
    Ok(())
}

/// The message to a document that stands at the place `post` fired or lapsed.
fn feed_end(waiting: &mut Waiting, log: &Log, doc: u32, post: u32) -> Result<(), AllocError>
    ensures ok { OnOk result (Ends log.now.entries doc post waiting.old waiting.new) }
    ensures err { OnErr result (IsKept waiting.old waiting.new) }
{
    match log.at(post) {
        Some(entry) => end_message(&mut waiting.over, &entry.what, doc, post),
        None => {
            waiting.early.insert((doc, post))?;
            Ok(())
        }
    }
}

/// A navigable was asked to close, which has its active document at the renderer `home`. Only the first time counts.
fn feed_closing(waiting: &mut Waiting, home: u16, place: u32, nav: u32) -> Result<(), AllocError>
    ensures ok { OnOk result (Asks home place nav waiting.old waiting.new) }
    ensures err { OnErr result (IsKept waiting.old waiting.new) }
{
    if closing_of(&waiting.closings, nav).is_some() {
        return Ok(());
    }
    feed_place(waiting, home, place)?;
    waiting.closings.insert(nav, place)?;
    Ok(())
}

/// A navigable has a new active document, whose home is the renderer `home`: there it waits to close, if it was asked to.
fn move_closing(waiting: &mut Waiting, home: u16, nav: u32) -> Result<(), AllocError>
    ensures kept { IsKept waiting.old waiting.new }
    ensures due { OnOk result (DueMove home nav waiting.old waiting.new) }
{
    match closing_of(&waiting.closings, nav) {
        Some(place) => feed_place(waiting, home, place),
        None => Ok(()),
    }
}

fn closing_of(closings: &BTreeMap<u32, u32>, nav: u32) -> Option<u32>
    ensures { result ≡ map_spec.get nat_cmp closings.now nav }
{
    closings.get(&nav).copied()
}
