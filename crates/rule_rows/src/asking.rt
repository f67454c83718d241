// Questions about a tree.
use crate::pages::{has_word, number, page};
use nav_rules::{Choice, choose, familiar, home_for, may_close, may_navigate};
use origin_core::{HostText, Site, site_of, url_origin};
use std::alloc::{AllocError, Global};
use tree_view::{PlainView, View};

/// The answer to a row: `yes` or `no`, a choice, or a renderer.
pub fn answer(alloc: Global, view: &PlainView, row: &str) -> Result<String, AllocError> {
    let (question, _rule) = row.split_once('|').unwrap_or((row, ""));
    let (word, rest) = cut(question.trim());
    let (first, rest) = cut(rest);
    let (second, options) = cut(rest);
    if word == "home" {
        return home(alloc, view, number(first), second, options);
    }
    let nav = number(first);
    if nav >= view.navs() {
        return String::from_str(alloc, "no such navigable");
    }
    let user = has_word(options, "user");
    if word == "choose" {
        let name = if second == "empty" { "" } else { second };
        let choice = choose(view, nav, name, has_word(options, "noopener"), user);
        return chosen(alloc, choice);
    }
    let other = number(second);
    if other >= view.navs() {
        return String::from_str(alloc, "no such navigable");
    }
    match word {
        "navigate" => truth(alloc, may_navigate(view, nav, other, user)),
        "close" => truth(alloc, may_close(view, nav, other, user)),
        "familiar" => truth(alloc, familiar(view, nav, other)),
        _ => String::from_str(alloc, "no such question"),
    }
}

fn cut(words: &str) -> (&str, &str) {
    words.split_once(' ').unwrap_or((words, ""))
}

fn truth(alloc: Global, holds: bool) -> Result<String, AllocError> {
    String::from_str(alloc, if holds { "yes" } else { "no" })
}

fn chosen(alloc: Global, choice: Choice) -> Result<String, AllocError> {
    match choice {
        Choice::Existing(nav) => format!(in alloc; "n{nav}"),
        Choice::New => String::from_str(alloc, "new"),
        Choice::Nothing => String::from_str(alloc, "nothing"),
    }
}

// The home of a document of a group and a page's site, or of an opaque one, among so many renderers, by public suffixes.
fn home(
    alloc: Global,
    view: &PlainView,
    group: u32,
    page: &str,
    rest: &str,
) -> Result<String, AllocError> {
    let (count, listed) = cut(rest);
    let renderers = count.parse::<u16>().unwrap_or(0);
    let suffixes = suffixes(alloc, listed)?;
    let Some(site) = site(alloc, page, &suffixes)? else {
        return String::from_str(alloc, "no such page");
    };
    if renderers == 0 {
        return String::from_str(alloc, "no renderers");
    }
    let home = home_for(alloc, view, group, &site, &suffixes, renderers)?;
    format!(in alloc; "r{home}")
}

fn site(alloc: Global, word: &str, suffixes: &[HostText]) -> Result<Option<Site>, AllocError> {
    if let Some(doc) = word.strip_prefix("opaque:") {
        return Ok(Some(Site::Opaque(number(doc))));
    }
    let Some(url) = page(alloc, word)? else {
        return Ok(None);
    };
    match url_origin(alloc, &url)? {
        None => Ok(None),
        Some(origin) => Ok(Some(site_of(alloc, &origin, suffixes)?)),
    }
}

fn suffixes(alloc: Global, listed: &str) -> Result<Vec<HostText>, AllocError> {
    let mut suffixes = Vec::new(alloc);
    for suffix in listed.split(' ') {
        if !suffix.is_empty() {
            suffixes.push(HostText::copy_of(alloc, suffix)?)?;
        }
    }
    Ok(suffixes)
}
