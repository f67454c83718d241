// Questions about a tree.
ghost use Rattle.std.specs.Prelude.{◌<◌};

use crate::making::{name_of, number};
use std::alloc::{AllocError, Global};
use tree_view::View;

/// The answer to a row: a number, `yes` or `no`, or `none`.
pub fn answer<V: View>(alloc: Global, view: &V, row: &str) -> Result<String, AllocError> {
    let (question, _rule) = row.split_once('|').unwrap_or((row, ""));
    let (word, rest) = cut(question.trim());
    let (first, second) = cut(rest);
    let nav = number(first);
    if nav >= view.navs() {
        return String::from_str(alloc, "no such navigable");
    }
    read(alloc, view, word, nav, second)
}

fn cut(words: &str) -> (&str, &str) {
    words.split_once(' ').unwrap_or((words, ""))
}

fn read<V: View>(
    alloc: Global,
    view: &V,
    word: &str,
    nav: u32,
    second: &str,
) -> Result<String, AllocError>
    requires { nav < (V.tree view.now).navs }
{
    let doc = view.active(nav);
    match word {
        "discarded" => truth(alloc, view.discarded(nav)),
        "active" => truth(alloc, view.is_active(doc)),
        "parent" => found(alloc, view.parent(nav)),
        "top" => found(alloc, view.top(nav)),
        "next" => found(alloc, view.next_sibling(nav)),
        "count" => format!(in alloc; "{}", view.child_count(doc)),
        "child" => found(alloc, view.child_at(doc, number(second))),
        "named" => found(alloc, view.child_named(doc, name_of(second))),
        "group" => format!(in alloc; "{}", view.group(nav)),
        _ => String::from_str(alloc, "no such question"),
    }
}

fn truth(alloc: Global, holds: bool) -> Result<String, AllocError> {
    String::from_str(alloc, if holds { "yes" } else { "no" })
}

fn found(alloc: Global, nav: Option<u32>) -> Result<String, AllocError> {
    match nav {
        Some(nav) => format!(in alloc; "{nav}"),
        None => String::from_str(alloc, "none"),
    }
}
