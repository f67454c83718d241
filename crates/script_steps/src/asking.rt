//! Requests to the coordinator.
ghost use Rattle.std.specs.Prelude.{◌≡◌};
ghost use Rattle.object_access.specs.StepAnswer as spec;

use agent_terms::{Ask, Outcome, Performed, Request};

// Who wants it, and whether a person caused it.
fn request_of(asker: u32, user: bool, ask: Ask) -> Request
    ensures { result ≡ spec.request_for asker user ask }
{
    match ask {
        Ask::Go { doc, url } => Request::Go {
            asker,
            doc,
            url,
            user,
        },
        Ask::Name { doc, name } => Request::Name { asker, doc, name },
        Ask::Disown { doc } => Request::Disown { asker, doc },
        Ask::Close { doc } => Request::Close { asker, doc, user },
        Ask::Post { doc, target, body } => Request::Post {
            asker,
            doc,
            target,
            body,
        },
    }
}

/// What is performed of an outcome.
pub(crate) fn performed(asker: u32, user: bool, outcome: Outcome) -> Performed
    ensures { result ≡ spec.performed asker user outcome }
{
    match outcome {
        Outcome::Ask(ask) => Performed::Ask(request_of(asker, user, ask)),
        other => Performed::Answer(other),
    }
}
