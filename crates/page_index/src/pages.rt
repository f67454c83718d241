ghost use Rattle.std.specs.Prelude.{◌≡◌, ◌<◌, ◌++◌, List, [], ◌∷◌, MatchOption, None, Some, find, bytes_eq, IfOk, OnOk, IfSome, true};
ghost use Rattle.std.specs.Option.{option_copied};
ghost use Rattle.origin_core.specs.Page.{without_fragment};
ghost use Rattle.agent_terms.specs.declared.session.Page.{Page as PageValue};
ghost use Rattle.agent_terms.specs.declared.session.Session.{Session};
ghost use Rattle.agent_terms.specs.Limits.{most_steps};
ghost use Rattle.single_agent.specs.Session.{steps_in, steps_of};
ghost use Rattle.single_agent.specs.Running.{made_before, left_at, left_on};
ghost use Rattle.step_ranges.specs.Ranges.{is_step_short, is_page_short, are_steps_short, are_pages_short};
ghost use Rattle.page_index.specs.Pages.{page_at, FindsFirst};

use agent_terms::{Page, Point, Running, Step};
use indexmap::IndexMap;
use origin_core::PageUrl;
use std::alloc::{AllocError, Global};
use std::marker::Model;
use tree_view::View;

/// The pages of a session, found by URL without a look at each of them.
///
/// A contract sees the pages, in order. Of two pages with one URL the first counts.
#[derive(Drop)]
pub struct Pages<'a> {
    pages: &'a [Page],
    /// The first page of each URL.
    firsts: IndexMap<&'a str, &'a Page>,
}

impl<'a> Model for Pages<'a> {
    ghost use Rattle.std.specs.Prelude.{List};
    ghost use Rattle.std.specs.Coded.{codes};
    ghost use Rattle.agent_terms.specs.declared.session.Page.{Page as PageValue};
    ghost use Rattle.plain_data.specs.contracts.data.Data as data_type;
    ghost use Rattle.page_index.specs.Pages.{page_at, FindsFirst};

    ghost Value = { List PageValue };

    ghost coded = { Prim.hlevel (codes, data_type.the_row.coded) };

    ghost view = { λ p. p.pages.now };

    ghost invariant = { λ p. FindsFirst p.pages.now (page_at p.firsts) };
}

impl<'a> Pages<'a> {
    /// The pages. It fails only where there is no memory.
    pub fn new(alloc: Global, pages: &'a [Page]) -> Result<Self, AllocError>
        ensures { IfOk result (λ p. p ≡ pages.now) }
    {
        let mut firsts = IndexMap::with_capacity(alloc, pages.len())?;
        for page in pages {
            note(&mut firsts, page)?;
        }
        Ok(Pages { pages, firsts })
    }

    /// The page that a URL names, whatever its fragment. It takes no memory.
    pub fn find(&self, url: &PageUrl) -> Option<&'a Page>
        ensures { option_copied result ≡ find (λ (page : PageValue). bytes_eq page.url (without_fragment url.now)) self.now }
    {
        let address = url.without_fragment();
        self.firsts.get(address).copied()
    }

    /// The step of a script or a handler that runs that is to be made next. It takes no memory.
    pub fn step_left<V: View>(&self, view: &V, run: Running) -> Option<&'a Step>
        requires { run.doc < (V.tree view.now).docs }
        ensures left { (s : Session) → s.pages ≡ self.now → MatchOption result
            (left_on s (V.tree view.now) (V.urls view.now) run ≡ None)
            (λ step. left_on s (V.tree view.now) (V.urls view.now) run ≡ Some (left_at run step.now)) }
        ensures short { are_pages_short self.now ≡ true → IfSome result (λ step. is_step_short step.now ≡ true) }
        ensures made { are_pages_short self.now ≡ true → IfSome result (λ _. made_before run.point < most_steps) }
    {
        if !view.is_active(run.doc) {
            return None;
        }
        self.steps_of(view, run.doc, run.point)
            .get(made_before(run.point) as usize)
    }

    /// The steps of a document that a point is in: none where its sandbox forbids scripts.
    #[tactic(auto, unfolding(single_agent::specs::Session::steps_of, single_agent::specs::Session::steps_at))]
    fn steps_of<V: View>(&self, view: &V, doc: u32, point: Point) -> &'a [Step]
        requires { doc < (V.tree view.now).docs }
        ensures steps { (s : Session) → s.pages ≡ self.now → result.now ≡ steps_of s (V.tree view.now) (V.urls view.now) doc point }
        ensures short { are_pages_short self.now ≡ true → are_steps_short result.now ≡ true }
    {
        if view.flags(view.nav_of(doc)).scripts() {
            return &[];
        }
        match self.find(view.url_of(doc)) {
            Some(page) => steps_in(page, point),
            None => &[],
        }
    }
}

/// Notes a page as the one of its URL, unless there is one before it.
fn note<'a>(firsts: &mut IndexMap<&'a str, &'a Page>, page: &'a Page) -> Result<(), AllocError>
    ensures { OnOk result ((pages : List PageValue) → FindsFirst pages (page_at firsts.old) → FindsFirst (pages ++ page.now ∷ []) (page_at firsts.new)) }
{
    let url = page.url.as_str();
    if firsts.contains_key(url) {
        return Ok(());
    }
    firsts.insert(url, page)?;
    Ok(())
}

/// The steps of a page that a point is in: its script, or its handler of messages.
fn steps_in<'a>(page: &'a Page, point: Point) -> &'a [Step]
    ensures steps { result.now ≡ steps_in point (Some page.now) }
    ensures short { is_page_short page.now ≡ true → are_steps_short result.now ≡ true }
{
    match point {
        Point::Script(_) => page.script.as_slice(),
        Point::Handler(_, _) => page.handler.as_slice(),
    }
}

/// How many steps were made before a point.
fn made_before(point: Point) -> u32
    ensures { result ≡ made_before point }
{
    match point {
        Point::Script(made) => made,
        Point::Handler(_, made) => made,
    }
}
