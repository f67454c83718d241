// A tree, made by the commands of a row.
ghost use Rattle.std.specs.Prelude.{◌<◌};
ghost use Rattle.tree_view.specs.Shown.{tree_shown};

use crate::making;
use crate::pages::number;
use origin_core::HostText;
use plain_data::Text;
use std::alloc::{AllocError, Global};
use tree_log::{Entry, What};
use tree_view::{PlainView, View};

/// Makes the tree: how many navigables and documents it has, or the first command that no rule allows.
pub fn build(alloc: Global, view: &mut PlainView, commands: &str) -> Result<String, AllocError> {
    for command in commands.split(';') {
        if !obey(alloc, view, command.trim())? {
            return format!(in alloc; "can't {}", command.trim());
        }
    }
    format!(in alloc; "{} navigables, {} documents", view.navs(), view.docs())
}

// Obeys one command. Whether it could.
fn obey(alloc: Global, view: &mut PlainView, command: &str) -> Result<bool, AllocError> {
    let (word, rest) = command.split_once(' ').unwrap_or((command, ""));
    let (first, options) = rest.split_once(' ').unwrap_or((rest, ""));
    if word == "start" {
        let what = making::start(alloc, view, first, options)?;
        return hear_and_load(view, None, what);
    }
    let nav = number(first);
    if nav >= view.navs() {
        return Ok(false);
    }
    act(alloc, view, word, nav, options)
}

// Obeys a command that a document gives.
fn act(
    alloc: Global,
    view: &mut PlainView,
    word: &str,
    nav: u32,
    rest: &str,
) -> Result<bool, AllocError>
    requires { nav < (tree_shown view.old).navs }
{
    let own = Some(view.active(nav));
    let (page, options) = rest.split_once(' ').unwrap_or((rest, ""));
    match word {
        "frame" => {
            let what = making::frame(alloc, view, nav, page, options)?;
            hear_and_load(view, own, what)
        }
        "open" => {
            let what = making::window(alloc, view, nav, page, options)?;
            hear_and_load(view, own, what)
        }
        "load" => match making::begin(alloc, view, nav, page, options)? {
            Some(what) => hear_and_load(view, own, what),
            None => Ok(false),
        },
        "begin" => match making::begin(alloc, view, nav, page, options)? {
            Some(what) => hear(view, Some(0), own, what),
            None => Ok(false),
        },
        "drop" => {
            let above = view.parent(nav).unwrap_or(nav);
            let by = Some(view.active(above));
            hear(view, Some(0), by, What::Drop { nav })
        }
        "name" => {
            let name = Text::copy_of(alloc, page)?;
            hear(view, Some(0), own, What::Name { nav, name })
        }
        "domain" => {
            let doc = view.active(nav);
            let domain = HostText::copy_of(alloc, page)?;
            hear(view, Some(0), own, What::Domain { doc, domain })
        }
        "opener" => hear(view, Some(0), own, making::opener(nav, page)),
        "closing" => hear(view, Some(0), own, What::Closing { nav }),
        "gone" => hear(view, Some(0), None, What::Gone { nav }),
        _ => Ok(false),
    }
}

// Applies an entry, if it can follow.
fn hear(
    view: &mut PlainView,
    by: Option<u16>,
    actor: Option<u32>,
    what: What,
) -> Result<bool, AllocError> {
    let entry = Entry { by, actor, what };
    if !view.admits(&entry) {
        return Ok(false);
    }
    view.apply(&entry)?;
    Ok(true)
}

// The same, and then the document that was to be loaded is shown.
fn hear_and_load(view: &mut PlainView, actor: Option<u32>, what: What) -> Result<bool, AllocError> {
    let loaded = loading(&what);
    let by = match actor {
        None => None,
        Some(_) => Some(0),
    };
    let begin = view.len();
    if !hear(view, by, actor, what)? {
        return Ok(false);
    }
    match loaded {
        None => Ok(true),
        Some((nav, doc)) => hear(view, Some(0), None, What::Commit { nav, doc, begin }),
    }
}

// The navigable and the document of a load.
fn loading(what: &What) -> Option<(u32, u32)> {
    match what {
        What::Open {
            nav,
            load: Some(load),
            ..
        } => Some((*nav, load.doc)),
        What::Frame {
            nav,
            load: Some(load),
            ..
        } => Some((*nav, load.doc)),
        What::Begin { nav, load } => Some((*nav, load.doc)),
        _ => None,
    }
}
