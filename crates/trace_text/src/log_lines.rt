ghost use Rattle.std.specs.Prelude.{◌≡◌, ◌++◌, Some, OnOk, IfOk, string_bytes, encode_utf8};
ghost use Rattle.trace_text.specs.LogText.{numbered, load_words, begin_words, target_words, cause_words, front_words, back_words, what_words, entry_words, entry_line, log_words};

use plain_data::{Text, quote, text_of};
use std::alloc::{AllocError, Global};
use std::fmt;
use tree_log::{Cause, Entry, Load, Log, Target, What};

/// A number after its letter, as in `n1`, or a dash where there is none.
#[derive(Clone, Copy)]
struct Numbered(char, Option<u32>);

impl fmt::Display for Numbered {
    ghost output = { λ n. Some (numbered (encode_utf8 n.0) n.1) };

    fn fmt<W: fmt::Write>(&self, f: &mut fmt::Formatter<W>) -> fmt::Result {
        let letter = self.0;
        match self.1 {
            None => write!(f, "-"),
            Some(n) => write!(f, "{letter}{n}"),
        }
    }
}

/// The text of a log: `log` and the number of entries, and then a line for each entry, the oldest first. A line is
/// the place of the entry, its renderer (`r0`, or `-`), its acting document (`d1`, or `-`), the kind and the fields.
pub fn log_text(alloc: Global, log: &Log) -> Result<Text, AllocError>
    ensures { IfOk result (λ text. text ≡ log_words log.now.entries) }
{
    let mut out = String::new(alloc);
    let count = log.len();
    writeln!(out, "log {count}")?;
    for (place, entry) in log.entries().iter().enumerate() {
        push_entry(alloc, &mut out, place, entry)?;
    }
    Ok(Text::from_string(out))
}

/// The line of an entry that stands at a place, as the text of a log has it, without its line feed.
pub fn entry_text(alloc: Global, place: u32, entry: &Entry) -> Result<Text, AllocError>
    ensures { IfOk result (λ text. text ≡ entry_words place entry.now) }
{
    let mut out = String::new(alloc);
    push_words(alloc, &mut out, place as usize, entry)?;
    Ok(Text::from_string(out))
}

#[tactic(auto, unfolding(crate::specs::LogText::entry_line))]
fn push_entry(
    alloc: Global,
    out: &mut String,
    place: usize,
    entry: &Entry,
) -> Result<(), AllocError>
    ensures { OnOk result (string_bytes out.new ≡ string_bytes out.old ++ entry_line place entry.now) }
{
    push_words(alloc, out, place, entry)?;
    out.push_str("\n")
}

// The line of an entry without its line feed.
#[tactic(auto, unfolding(crate::specs::LogText::entry_words))]
fn push_words(
    alloc: Global,
    out: &mut String,
    place: usize,
    entry: &Entry,
) -> Result<(), AllocError>
    ensures { OnOk result (string_bytes out.new ≡ string_bytes out.old ++ entry_words place entry.now) }
{
    let by = Numbered('r', widened(entry.by));
    let actor = Numbered('d', entry.actor);
    write!(out, "{place} {by} {actor} ")?;
    push_what(alloc, out, &entry.what)
}

fn widened(number: Option<u16>) -> Option<u32>
    ensures { result ≡ number }
{
    number.map(u32::from)
}

fn push_what(alloc: Global, out: &mut String, what: &What) -> Result<(), AllocError>
    ensures { OnOk result (string_bytes out.new ≡ string_bytes out.old ++ what_words what.now) }
{
    push_front(out, what)?;
    push_back(alloc, out, what)
}

// What happened, and the numbers and the origin that it is about.
#[tactic(auto, unfolding(crate::specs::LogText::front_words))]
fn push_front(out: &mut String, what: &What) -> Result<(), AllocError>
    ensures { OnOk result (string_bytes out.new ≡ string_bytes out.old ++ front_words what.now) }
{
    match what {
        What::Open {
            nav,
            doc,
            group,
            home,
            origin,
            ..
        } => write!(
            out,
            "open n{nav} d{doc} g{group} home={home} origin={origin}"
        ),
        What::Frame {
            nav,
            doc,
            home,
            origin,
            ..
        } => write!(out, "frame n{nav} d{doc} home={home} origin={origin}"),
        What::Drop { nav } => write!(out, "drop n{nav}"),
        What::Name { nav, .. } => write!(out, "name n{nav}"),
        What::Begin { nav, .. } => write!(out, "begin n{nav}"),
        What::Commit { nav, doc, begin } => write!(out, "commit n{nav} d{doc} begin={begin}"),
        What::Fragment { nav, doc, .. } => write!(out, "fragment n{nav} d{doc}"),
        What::Opener { nav, to } => {
            let to = Numbered('n', *to);
            write!(out, "opener n{nav} to={to}")
        }
        What::Post {
            to,
            from,
            origin,
            ..
        } => write!(out, "post to=d{to} from=n{from} origin={origin}"),
        What::Fire { doc, post } => write!(out, "fire d{doc} post={post}"),
        What::Lapse { doc, post, cause } => {
            let cause = cause_text(*cause);
            write!(out, "lapse d{doc} post={post} cause={cause}")
        }
        What::Closing { nav } => write!(out, "closing n{nav}"),
        What::Gone { nav } => write!(out, "gone n{nav}"),
        What::Lost { renderer } => write!(out, "lost r{renderer}"),
        What::Sync => out.push_str("sync"),
        What::Hidden => out.push_str("hidden"),
        What::Domain { doc, .. } => write!(out, "domain d{doc}"),
    }
}

// Names, URLs, flags, loads, messages and domains.
#[tactic(auto, unfolding(crate::specs::LogText::back_words))]
fn push_back(alloc: Global, out: &mut String, what: &What) -> Result<(), AllocError>
    ensures { OnOk result (string_bytes out.new ≡ string_bytes out.old ++ back_words what.now) }
{
    match what {
        What::Open {
            name,
            opener,
            flags,
            navigator,
            load,
            ..
        } => {
            let name = quote(alloc, name.as_str())?;
            let opener = Numbered('n', *opener);
            let navigator = Numbered('n', *navigator);
            let load = load_text(alloc, load)?;
            write!(
                out,
                " name={name} opener={opener} flags={flags} navigator={navigator} {load}"
            )
        }
        What::Frame {
            name,
            flags,
            load,
            ..
        } => {
            let name = quote(alloc, name.as_str())?;
            let load = load_text(alloc, load)?;
            write!(out, " name={name} flags={flags} {load}")
        }
        What::Name { name, .. } => {
            let name = quote(alloc, name.as_str())?;
            write!(out, " {name}")
        }
        What::Begin { load, .. } => push_begin(alloc, out, load),
        What::Fragment { url, .. } => {
            let url = quote(alloc, url.as_str())?;
            write!(out, " url={url}")
        }
        What::Post { target, body, .. } => {
            let target = target_text(alloc, target)?;
            let body = text_of(alloc, body)?;
            let body = body.as_str();
            write!(out, " target={target} data={body}")
        }
        What::Domain { domain, .. } => {
            let domain = quote(alloc, domain.as_str())?;
            write!(out, " {domain}")
        }
        _ => Ok(()),
    }
}

// What a new navigable loads.
fn load_text(alloc: Global, load: &Option<Load>) -> Result<String, AllocError>
    ensures { IfOk result (λ text. string_bytes text ≡ load_words load.now) }
{
    match load {
        None => String::from_str(alloc, "load=-"),
        Some(load) => {
            let url = quote(alloc, load.url.as_str())?;
            let (doc, home) = (load.doc, load.home);
            let origin = &load.origin;
            format!(in alloc; "load=d{doc} lhome={home} lorigin={origin} lurl={url}")
        }
    }
}

// The origins that a message is for: `*`, `never`, or the origin.
fn target_text(alloc: Global, target: &Target) -> Result<String, AllocError>
    ensures { IfOk result (λ text. string_bytes text ≡ target_words target.now) }
{
    match target {
        Target::Any => String::from_str(alloc, "*"),
        Target::Never => String::from_str(alloc, "never"),
        Target::Origin(origin) => format!(in alloc; "{origin}"),
    }
}

fn cause_text(cause: Cause) -> &'static str
    ensures { result.now ≡ cause_words cause }
{
    match cause {
        Cause::Inactive => "inactive",
        Cause::Origin => "origin",
    }
}

// What an existing navigable begins to load.
fn push_begin(alloc: Global, out: &mut String, load: &Load) -> Result<(), AllocError>
    ensures { OnOk result (string_bytes out.new ≡ string_bytes out.old ++ begin_words load.now) }
{
    let url = quote(alloc, load.url.as_str())?;
    let (doc, home) = (load.doc, load.home);
    let origin = &load.origin;
    write!(out, " d{doc} home={home} origin={origin} url={url}")
}
