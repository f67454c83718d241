// A tree, made by the commands of a row.
ghost use Rattle.std.specs.Prelude.{◌<◌};

use crate::making::{begin, frame, name_of, number, window};
use plain_data::Text;
use std::alloc::{AllocError, Global};
use tree_log::{Entry, What};
use tree_view::View;

/// Makes the tree: how many navigables and documents it has, and how many navigables were not discarded, or the first
/// command that no rule allows.
pub fn build<V: View>(alloc: Global, view: &mut V, commands: &str) -> Result<String, AllocError> {
    for command in commands.split(';') {
        if !obey(alloc, view, command.trim())? {
            return format!(in alloc; "can't {}", command.trim());
        }
    }
    format!(in alloc;
        "{} navigables, {} documents, {} not discarded",
        view.navs(),
        view.docs(),
        kept(view)
    )
}

// How many navigables were not discarded.
fn kept<V: View>(view: &V) -> u32 {
    let mut count = 0;
    for nav in 0..view.navs() {
        if !view.discarded(nav) {
            count += 1;
        }
    }
    count
}

// Obeys one command. Whether it could.
fn obey<V: View>(alloc: Global, view: &mut V, command: &str) -> Result<bool, AllocError> {
    let (word, rest) = command.split_once(' ').unwrap_or((command, ""));
    let (first, name) = rest.split_once(' ').unwrap_or((rest, ""));
    if word == "window" {
        let what = window(alloc, view)?;
        return hear(view, None, None, what);
    }
    if word == "nest" {
        return nest(alloc, view, number(first));
    }
    let nav = number(first);
    if nav >= view.navs() {
        return Ok(false);
    }
    act(alloc, view, word, nav, name_of(name))
}

// Obeys a command about a navigable.
fn act<V: View>(
    alloc: Global,
    view: &mut V,
    word: &str,
    nav: u32,
    name: &str,
) -> Result<bool, AllocError>
    requires { nav < (V.tree view.old).navs }
{
    let own = Some(view.active(nav));
    match word {
        "frame" => {
            let what = frame(alloc, view, name)?;
            hear(view, Some(0), own, what)
        }
        "drop" => {
            let above = view.parent(nav).unwrap_or(nav);
            let by = Some(view.active(above));
            hear(view, Some(0), by, What::Drop { nav })
        }
        "name" => {
            let name = Text::copy_of(alloc, name)?;
            hear(view, Some(0), own, What::Name { nav, name })
        }
        "gone" => hear(view, Some(0), None, What::Gone { nav }),
        "load" => load(alloc, view, nav),
        _ => Ok(false),
    }
}

// Loads a document, which is active from then on.
fn load<V: View>(alloc: Global, view: &mut V, nav: u32) -> Result<bool, AllocError>
    requires { nav < (V.tree view.old).navs }
{
    let own = Some(view.active(nav));
    let place = view.len();
    let doc = view.docs();
    let what = begin(alloc, view, nav)?;
    if !hear(view, Some(0), own, what)? {
        return Ok(false);
    }
    let what = What::Commit {
        nav,
        doc,
        begin: place,
    };
    hear(view, Some(0), None, what)
}

// So many frames, each in the last navigable.
fn nest<V: View>(alloc: Global, view: &mut V, frames: u32) -> Result<bool, AllocError> {
    for _ in 0..frames {
        if view.navs() == 0 {
            return Ok(false);
        }
        let own = Some(view.active(view.navs() - 1));
        let what = frame(alloc, view, "")?;
        if !hear(view, Some(0), own, what)? {
            return Ok(false);
        }
    }
    Ok(true)
}

// Applies an entry, if it can follow.
fn hear<V: View>(
    view: &mut V,
    by: Option<u16>,
    actor: Option<u32>,
    what: What,
) -> Result<bool, AllocError> {
    let entry = Entry { by, actor, what };
    if !view.admits(&entry) {
        return Ok(false);
    }
    view.apply(&entry)?;
    Ok(true)
}
