ghost use Rattle.std.specs.Prelude.{◌≡◌, ◌<◌, ◌+◌, ◌^◌, ℕ, IfOk, IfSome, IsTrue, Some};
ghost use Rattle.origin_core.specs.Flags as flags_spec;
ghost use Rattle.tree_log.specs.Tree.{nav_of, origin_of, children_of};
ghost use Rattle.agent_terms.specs.Built.{is_made};
ghost use Rattle.coordinator_rules.specs.Decision as spec;
ghost use Rattle.coordinator_rules.specs.Decision.{rules_of};
ghost use Rattle.coordinator_rules.specs.Navigation.{is_in};
ghost use Rattle.single_agent.specs.Session as session_spec;
ghost use Rattle.session_player.specs.Serves.{Decides};

use agent_terms::{Request, Session};
use nav_rules::home_for;
use origin_core::{Flags, Origin, PageUrl, frame_origin, loaded_origin, site_of};
use plain_data::Text;
use std::alloc::{AllocError, Global};
use tree_log::{Entry, Load, What};
use tree_view::View;

/// What the coordinator replies to a document of the renderer that asks.
#[derive(Clone, Copy, Debug)]
pub enum Replied {
    Done,
    /// The navigable was made.
    Made { nav: u32 },
    /// The document is no longer active.
    Unloaded,
}

/// A load of a URL in a group, for a document with that number and origin.
fn load_of<V: View>(
    alloc: Global,
    view: &V,
    session: &Session,
    group: u32,
    doc: u32,
    origin: Origin,
    url: PageUrl,
) -> Result<Load, AllocError>
    requires some { 0 < session.now.renderers }
    ensures { IfOk result (λ load. load ≡ spec.load_of (rules_of session.now) (V.tree view.now) group doc origin url) }
{
    let site = site_of(alloc, &origin, session.suffixes.as_slice())?;
    let home = home_for(
        alloc,
        view,
        group,
        &site,
        session.suffixes.as_slice(),
        session.renderers,
    )?;
    Ok(Load {
        doc,
        home,
        origin,
        url,
    })
}

/// The load that a frame begins with: none at `about:blank`.
fn frame_load<V: View>(
    alloc: Global,
    view: &V,
    session: &Session,
    asker: u32,
    flags: Flags,
    url: Option<PageUrl>,
) -> Result<Option<Load>, AllocError>
    requires some { 0 < session.now.renderers }
    requires asker { asker < (V.tree view.now).docs }
    requires few { (V.tree view.now).docs < 2 ^ 31 }
    ensures { IfOk result (λ load. load ≡ spec.frame_load (rules_of session.now) (V.tree view.now) asker flags url) }
{
    let Some(url) = url else {
        return Ok(None);
    };
    if !url.is_web() {
        return Ok(None);
    }
    let doc = view.docs() + 1;
    let group = view.group(view.nav_of(asker));
    let origin = loaded_origin(alloc, flags.origin(), doc, view.origin_of(asker), &url)?;
    Ok(Some(load_of(alloc, view, session, group, doc, origin, url)?))
}

/// A new frame in a document.
fn framed<V: View>(
    alloc: Global,
    view: &V,
    session: &Session,
    asker: u32,
    name: Text,
    flags: Flags,
    url: Option<PageUrl>,
) -> Result<What, AllocError>
    requires some { 0 < session.now.renderers }
    requires asker { asker < (V.tree view.now).docs }
    requires few { (V.tree view.now).docs < 2 ^ 31 }
    ensures { IfOk result (λ what. what ≡ spec.frame_entry (rules_of session.now) (V.tree view.now) asker name flags url) }
{
    let load = frame_load(alloc, view, session, asker, flags, url)?;
    let origin = frame_origin(flags.origin(), view.docs(), view.origin_of(asker))?;
    Ok(What::Frame {
        nav: view.navs(),
        doc: view.docs(),
        home: view.home_of(asker),
        origin,
        name,
        flags,
        load,
    })
}

/// Whether a navigable is a child of a document.
fn is_child<V: View>(view: &V, doc: u32, nav: u32) -> bool
    requires { doc < (V.tree view.now).docs }
    ensures value { result ≡ is_in nav (children_of (V.tree view.now) doc) }
    ensures within { IsTrue result → nav < (V.tree view.now).navs }
{
    for index in 0..view.child_count(doc) {
        match view.child_at(doc, index) {
            Some(child) => {
                if child == nav {
                    return true;
                }
            }
            None => return false,
        }
    }
    false
}

/// What a request comes to, for a document that is active.
#[tactic(auto, unfolding(agent_terms::specs::Built::is_made))]
pub fn decided<V: View>(
    alloc: Global,
    view: &V,
    session: &Session,
    request: Request,
) -> Result<(What, Replied), AllocError>
    requires some { 0 < session.now.renderers }
    requires asker { spec.asker_of request < (V.tree view.now).docs }
    requires few { (V.tree view.now).docs < 2 ^ 31 }
    requires made { IsTrue (is_made request) }
    ensures { IfOk result (λ d. Decides (rules_of session.now) (V.tree view.now) request d.0 d.1) }
{
    match request {
        Request::Sync { .. } => Ok((What::Sync, Replied::Done)),
        Request::Frame {
            asker,
            name,
            flags,
            url,
        } => {
            let flags = flags.union(view.flags(view.nav_of(asker)));
            let nav = view.navs();
            let what = framed(alloc, view, session, asker, name, flags, url)?;
            Ok((what, Replied::Made { nav }))
        }
        Request::Drop { asker, nav } => {
            if is_child(view, asker, nav) {
                Ok((What::Drop { nav }, Replied::Done))
            } else {
                Ok((What::Sync, Replied::Done))
            }
        }
        _ => unreachable!(),
    }
}

/// The document that asks; 0 where none does.
pub fn asker_of(request: &Request) -> u32
    ensures { result ≡ spec.asker_of request.now }
{
    match request {
        Request::Next | Request::More => 0,
        Request::Sync { asker }
        | Request::Frame { asker, .. }
        | Request::Drop { asker, .. }
        | Request::Open { asker, .. }
        | Request::Link { asker, .. }
        | Request::Go { asker, .. }
        | Request::Name { asker, .. }
        | Request::Disown { asker, .. }
        | Request::Close { asker, .. }
        | Request::Post { asker, .. }
        | Request::Domain { asker, .. } => *asker,
    }
}

/// The next start window, which loads a URL: the entry that opens it, in a new group.
pub fn start_entry<V: View>(
    alloc: Global,
    view: &V,
    session: &Session,
    url: &PageUrl,
) -> Result<Entry, AllocError>
    requires some { 0 < session.now.renderers }
    requires few { (V.tree view.now).docs < 2 ^ 31 }
    ensures { IfOk result (λ entry. entry ≡ session_spec.start_entry (rules_of session.now) (V.tree view.now) url.now) }
{
    let doc = view.docs() + 1;
    let group = view.groups();
    let origin = loaded_origin(alloc, false, doc, &Origin::Opaque(doc), url)?;
    let load = load_of(alloc, view, session, group, doc, origin, url.clone()?)?;
    Ok(Entry {
        by: None,
        actor: None,
        what: What::Open {
            nav: view.navs(),
            doc: view.docs(),
            group,
            home: load.home,
            origin: Origin::Opaque(view.docs()),
            name: Text::copy_of(alloc, "")?,
            opener: None,
            flags: Flags::NONE,
            navigator: None,
            load: Some(load),
        },
    })
}
