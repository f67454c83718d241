ghost use Rattle.std.specs.Prelude.{◌≡◌, IfOk};
ghost use Rattle.object_access.specs.Methods as spec;

use origin_core::{Origin, UrlError, read_origin};
use std::alloc::Global;
use thiserror::Error;
use tree_log::Target;

/// Why a text names no origins.
#[derive(Clone, Copy, Debug, PartialEq, Eq, Error)]
pub enum TargetError {
    /// The text is no URL, or its origin's serialization is over 1,024 bytes.
    #[error("not a URL")]
    Syntax,
    #[error("out of memory")]
    NoMemory,
}

/// The origins that the target's text of a message means (HTML Standard, 9.3.3, window post message steps): `/` that of
/// the sender, `*` any, and a URL that of the URL. An origin that is neither http nor https is one that no document has.
///
/// `Syntax` comes exactly where the text is another one and no URL, or the URL's origin is over 1,024 bytes long.
#[tactic(auto, unfolding(object_access::specs::Methods::target_of))]
pub fn target_of(alloc: Global, text: &str, sender: &Origin) -> Result<Target, TargetError>
    ensures ok { IfOk result (λ target. spec.target_of sender.now text.now ≡ Some target) }
    ensures syntax { result ≡ Err TargetError.Syntax → spec.target_of sender.now text.now ≡ None }
{
    if text == "/" {
        return match sender.clone() {
            Ok(origin) => Ok(Target::Origin(origin)),
            Err(_) => Err(TargetError::NoMemory),
        };
    }
    if text == "*" {
        return Ok(Target::Any);
    }
    match read_origin(alloc, text) {
        Ok(None) => Ok(Target::Never),
        Ok(Some(origin)) => Ok(Target::Origin(origin)),
        Err(UrlError::NoMemory) => Err(TargetError::NoMemory),
        Err(_) => Err(TargetError::Syntax),
    }
}
