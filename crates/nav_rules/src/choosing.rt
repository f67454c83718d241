ghost use Rattle.std.specs.Prelude.{◌≡◌, ◌<◌, IfSome};
ghost use Rattle.coordinator_rules.specs.Navigation as spec;
ghost use Rattle.coordinator_rules.specs.Navigation.{choice, found_or_new};
ghost use Rattle.nav_rules.specs.Chosen.{chosen, IsThere};

use crate::searching::find_named;
use tree_view::View;

/// The navigable that is chosen by a name.
#[derive(Clone, Copy, Debug, PartialEq, Eq)]
pub enum Choice {
    /// One that is there.
    Existing(u32),
    /// A new top-level one is to be made.
    New,
    /// None, since the sandbox keeps new ones from being made.
    Nothing,
}

/// The choice of a navigable by a name (HTML Standard, 7.3.1.7, the rules for choosing a navigable).
///
/// The keywords `_self`, `_parent`, `_top` and `_blank` count in any ASCII case, other names as they are. A choice with
/// `noopener` looks for no name. It takes no memory; a search that fails comes to each navigable of the group once.
#[tactic(auto, unfolding(coordinator_rules::specs::Navigation::choice))]
pub fn choose<V: View>(view: &V, current: u32, name: &str, noopener: bool, user: bool) -> Choice
    requires { current < (V.tree view.now).navs }
    ensures value { chosen result ≡ choice (V.tree view.now) current name.now noopener user }
    ensures within { IsThere (V.tree view.now) result }
{
    if name.is_empty() || is_word("_self", name) {
        return Choice::Existing(current);
    }
    if is_word("_parent", name) {
        return Choice::Existing(view.parent(current).unwrap_or(current));
    }
    if is_word("_top", name) {
        return Choice::Existing(view.top(current).unwrap_or(current));
    }
    if is_word("_blank", name) || noopener {
        return found_or_new(view, current, None);
    }
    found_or_new(view, current, find_named(view, current, name, user))
}

// The navigable that was found; or else a new one, where sandboxing allows it.
fn found_or_new<V: View>(view: &V, current: u32, found: Option<u32>) -> Choice
    requires current_there { current < (V.tree view.now).navs }
    requires found_there { IfSome found (λ nav. nav < (V.tree view.now).navs) }
    ensures value { chosen result ≡ found_or_new (V.tree view.now) current found }
    ensures within { IsThere (V.tree view.now) result }
{
    match found {
        Some(nav) => Choice::Existing(nav),
        None => {
            if view.flags(current).auxiliary() {
                Choice::Nothing
            } else {
                Choice::New
            }
        }
    }
}

// Whether the name is this keyword, in any ASCII case.
fn is_word(word: &str, name: &str) -> bool
    ensures { result ≡ spec.is_word word.now name.now }
{
    name.as_bytes().eq_ignore_ascii_case(word.as_bytes())
}
