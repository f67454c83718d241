ghost use Rattle.std.specs.Prelude.{◌≡◌};
ghost use Rattle.window_props.specs.Platform.{key_of};
ghost use Rattle.agent_terms.specs.Built.{asks_where_set, asks_where_called, is_built};

use agent_terms::Step;
use window_props::{Key, Platform};

// Whether a set under the key may ask the coordinator.
fn asks_where_set(key: &Key) -> bool
    ensures { result ≡ asks_where_set key.now }
{
    Platform::Location.is_key(key)
        || Platform::Name.is_key(key)
        || Platform::Opener.is_key(key)
        || Platform::Href.is_key(key)
}

// Whether a call of the method under the key may ask the coordinator.
fn asks_where_called(key: &Key) -> bool
    ensures { result ≡ asks_where_called key.now }
{
    Platform::Close.is_key(key)
        || Platform::PostMessage.is_key(key)
        || Platform::Assign.is_key(key)
        || Platform::Replace.is_key(key)
}

/// Whether sessions may have the step so far: it doesn't navigate, name, close or post, and sets no
/// domain. It takes no memory.
#[tactic(auto, unfolding(agent_terms::specs::Built::is_built))]
pub fn built(step: &Step) -> bool
    ensures { result ≡ is_built step.now }
{
    match step {
        Step::Set { key, .. } => !asks_where_set(key),
        Step::Call { key, .. } => !asks_where_called(key),
        Step::Open { .. } | Step::Link { .. } | Step::Domain { .. } => false,
        _ => true,
    }
}
