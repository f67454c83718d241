ghost use Rattle.std.specs.Prelude.{◌≡◌, ◌<◌, MatchOption, None, Some, find, bytes_eq, IfSome, All};
ghost use Rattle.std.specs.Option.{option_copied};
ghost use Rattle.origin_core.specs.Page.{without_fragment};
ghost use Rattle.agent_terms.specs.declared.session.Page.{Page as PageValue};
ghost use Rattle.single_agent.specs.Session.{steps_in, steps_at, steps_of};
ghost use Rattle.single_agent.specs.Running.{made_before, left_at, left_on};

use agent_terms::{Page, Point, Running, Session, Step};
use origin_core::PageUrl;
use tree_view::View;

fn page_of<'a>(session: &'a Session, url: &PageUrl) -> Option<&'a Page>
    ensures { option_copied result ≡ find (λ (page : PageValue). bytes_eq page.url (without_fragment url.now)) session.now.pages }
{
    let address = url.without_fragment();
    session
        .pages
        .as_slice()
        .iter()
        .find(|page| page.url.as_str() == address)
}

/// The steps of a page that a point is in: its script, or its handler of messages.
fn steps_in<'a>(page: &'a Page, point: Point) -> &'a [Step]
    ensures { result.now ≡ steps_in point (Some page.now) }
{
    match point {
        Point::Script(_) => page.script.as_slice(),
        Point::Handler(_, _) => page.handler.as_slice(),
    }
}

/// Those of the page that a URL names.
#[tactic(auto, unfolding(single_agent::specs::Session::steps_at))]
fn steps_at<'a>(session: &'a Session, url: &PageUrl, point: Point) -> &'a [Step]
    ensures { result.now ≡ steps_at session.now url.now point }
{
    match page_of(session, url) {
        Some(page) => steps_in(page, point),
        None => &[],
    }
}

/// Those of a document: none where its sandbox forbids scripts.
#[tactic(auto, unfolding(single_agent::specs::Session::steps_of))]
fn steps_of<'a, V: View>(view: &V, session: &'a Session, doc: u32, point: Point) -> &'a [Step]
    requires { doc < (V.tree view.now).docs }
    ensures { result.now ≡ steps_of session.now (V.tree view.now) (V.urls view.now) doc point }
{
    if view.flags(view.nav_of(doc)).scripts() {
        return &[];
    }
    steps_at(session, view.url_of(doc), point)
}

/// How many steps were made before a point.
fn made_before(point: Point) -> u32
    ensures { result ≡ made_before point }
{
    match point {
        Point::Script(made) => made,
        Point::Handler(_, made) => made,
    }
}

/// The step of a script or a handler that runs that is to be made next.
pub fn left_on<'a, V: View>(view: &V, session: &'a Session, run: Running) -> Option<&'a Step>
    requires { run.doc < (V.tree view.now).docs }
    ensures { MatchOption result (left_on session.now (V.tree view.now) (V.urls view.now) run ≡ None)
        (λ step. left_on session.now (V.tree view.now) (V.urls view.now) run ≡ Some (left_at run step.now)) }
{
    if !view.is_active(run.doc) {
        return None;
    }
    steps_of(view, session, run.doc, run.point).get(made_before(run.point) as usize)
}
