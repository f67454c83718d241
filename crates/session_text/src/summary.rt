// The line on a session.
ghost use Rattle.std.specs.Prelude.{◌≡◌, ◌<◌, ◌^◌, IfOk, string_bytes};
ghost use Rattle.session_text.specs.Range.{IsInRange};
ghost use Rattle.session_text.specs.Summary as spec;

use agent_terms::{Page, Session};
use std::alloc::{AllocError, Global};

/// The line on a session: `session ok renderers=R start=S pages=P steps=T` and a line feed, where T counts the steps of
/// all scripts and handlers.
pub fn summary_text(alloc: Global, session: &Session) -> Result<String, AllocError>
    requires { IsInRange session.now }
    ensures { IfOk result (λ s. string_bytes s ≡ spec.summary_words session.now) }
{
    let renderers = session.renderers;
    let start = session.start.len();
    let pages = session.pages.len();
    let steps = step_count(session.pages.as_slice());
    format!(in alloc;
        "session ok renderers={renderers} start={start} pages={pages} steps={steps}\n"
    )
}

#[tactic(auto, unfolding(crate::specs::Summary::step_count))]
fn step_count(pages: &[Page]) -> usize
    requires { spec.step_count pages.now < 2 ^ 64 }
    ensures { result ≡ spec.step_count pages.now }
{
    let mut count = 0;
    for page in pages {
        count += page.script.len() + page.handler.len();
    }
    count
}
