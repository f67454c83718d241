ghost use Rattle.std.specs.Prelude.{◌≡◌, ◌<◌, false, IfOk, if◌then◌else◌};
ghost use Rattle.origin_core.specs.Origin.{blank_text};
ghost use Rattle.tree_log.specs.Blanking as spec;
ghost use Rattle.tree_log.specs.Blanking.{blank};
ghost use Rattle.reply_writing.specs.Telling.{IsTold};
ghost use Rattle.told_replies.specs.Telling.{told_as};
ghost use Rattle.told_replies.specs.declared.telling.Telling.TheVariants.{Whole, WithUrl, Nothing};
ghost use Rattle.told_replies.specs.Within.{IsWithin};

use origin_core::{Origin, PageUrl, blank_url};
use reply_writing::{ReplyWriter, Told};
use std::alloc::{AllocError, Global};
use tree_log::{Entry, What};
use tree_view::View;

/// How a renderer is told an entry.
#[derive(Drop)]
pub enum Telling {
    Whole,
    /// With this URL in place of the one that it may not know.
    WithUrl(PageUrl),
    /// That there is one, and no word of what it says.
    Nothing,
}

/// Tells a renderer one more entry, as it may know it. After an `Err` the writer is gone.
pub fn tell<V: View>(
    alloc: Global,
    writer: ReplyWriter,
    view: &V,
    renderer: u16,
    entry: &Entry,
) -> Result<Told, AllocError>
    requires whole { writer.more ≡ false }
    requires within { IsWithin (V.tree view.now).docs entry.now.what }
    ensures { IfOk result (λ x. IsTold (blank (spec.is_homed (V.tree view.now) renderer) entry.now) x.told writer x.writer) }
{
    let telling = telling_of(alloc, view, renderer, entry)?;
    tell_as(writer, entry, &telling)
}

fn tell_as(writer: ReplyWriter, entry: &Entry, telling: &Telling) -> Result<Told, AllocError>
    requires whole { writer.more ≡ false }
    ensures { IfOk result (λ x. IsTold (told_as telling.now entry.now) x.told writer x.writer) }
{
    match telling {
        Telling::Whole => writer.tell(entry, None),
        Telling::WithUrl(url) => writer.tell(entry, Some(url)),
        Telling::Nothing => {
            let hidden = Entry {
                by: None,
                actor: None,
                what: What::Hidden,
            };
            writer.tell(&hidden, None)
        }
    }
}

/// A load and a navigation to a fragment without the URL of a document that lives elsewhere, and nothing of a message, or
/// of the end of one, for such a document. All else is told as it is.
fn telling_of<V: View>(
    alloc: Global,
    view: &V,
    renderer: u16,
    entry: &Entry,
) -> Result<Telling, AllocError>
    requires { IsWithin (V.tree view.now).docs entry.now.what }
    ensures { IfOk result (λ telling. told_as telling entry.now ≡ blank (spec.is_homed (V.tree view.now) renderer) entry.now) }
{
    match &entry.what {
        What::Open {
            load: Some(load),
            ..
        }
        | What::Frame {
            load: Some(load),
            ..
        }
        | What::Begin { load, .. } => url_of(alloc, view, renderer, load.doc, &load.origin),
        What::Fragment { doc, .. } => url_of(alloc, view, renderer, *doc, &Origin::Opaque(*doc)),
        What::Post { to: doc, .. } | What::Fire { doc, .. } | What::Lapse { doc, .. } => {
            Ok(message(view, renderer, *doc))
        }
        _ => Ok(Telling::Whole),
    }
}

/// Whole, or with the root of an origin in place of the URL of a document that lives elsewhere.
fn url_of<V: View>(
    alloc: Global,
    view: &V,
    renderer: u16,
    doc: u32,
    origin: &Origin,
) -> Result<Telling, AllocError>
    requires { doc < (V.tree view.now).docs }
    ensures { IfOk result (λ telling. telling ≡ (if spec.is_homed (V.tree view.now) renderer doc then Whole else WithUrl (blank_text origin.now))) }
{
    if view.home_of(doc) == renderer {
        Ok(Telling::Whole)
    } else {
        Ok(Telling::WithUrl(blank_url(alloc, origin)?))
    }
}

/// Whole, or nothing of a message for a document that lives elsewhere.
fn message<V: View>(view: &V, renderer: u16, doc: u32) -> Telling
    requires { doc < (V.tree view.now).docs }
    ensures { result ≡ (if spec.is_homed (V.tree view.now) renderer doc then Whole else Nothing) }
{
    if view.home_of(doc) == renderer {
        Telling::Whole
    } else {
        Telling::Nothing
    }
}
