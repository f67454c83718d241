ghost use Rattle.std.specs.Prelude.{◌≡◌, ◌<◌, IfOk, map, Some, None, option_copied};
ghost use Rattle.std.specs.Char.{to_ascii_lowercase};
ghost use Rattle.coordinator_rules.specs.Decision as spec;
ghost use Rattle.coordinator_rules.specs.Decision.{effective_domain};
ghost use Rattle.request_decisions.specs.Asked.{CanAsk, rules};
ghost use Rattle.request_decisions.specs.Made.{decision_of};
ghost use Rattle.tree_log.specs.Tree.{origin_of, domain_of};

use crate::asking::Asking;
use crate::decisions::Decided;
use agent_terms::ReplyOutcome;
use origin_core::{HostText, Origin, fits};
use plain_data::Text;
use std::alloc::AllocError;
use tree_log::What;
use tree_view::View;

impl<'a, V: View> Asking<'a, V> {
    // The domain of a document with an effective domain, whose host is an IP address or not.
    fn domain_set(&self, value: &str, effective: Option<&HostText>) -> Result<Decided, AllocError>
        requires { CanAsk self.now.renderers self.now.suffixes.now (V.tree self.now.view.now) self.now.homes.now self.now.asker }
        ensures { IfOk result (λ d. decision_of d ≡ spec.domain_set (rules self.now.renderers self.now.suffixes.now) (V.tree self.now.view.now) self.now.renderer self.now.asker value.now (option_copied effective.entry)) }
    {
        match effective {
            None => Ok(self.refused(10)),
            Some(effective) => {
                if fits(value, effective, self.is_address(), self.suffixes) {
                    let domain = HostText::copy_of(self.alloc, value)?;
                    let doc = self.asker;
                    Ok(self.one(What::Domain { doc, domain }, ReplyOutcome::Done))
                } else {
                    Ok(self.refused(11))
                }
            }
        }
    }

    // Whether the asker's host is an IP address.
    fn is_address(&self) -> bool
        requires { CanAsk self.now.renderers self.now.suffixes.now (V.tree self.now.view.now) self.now.homes.now self.now.asker }
        ensures { result ≡ spec.is_address (origin_of (V.tree self.now.view.now) self.now.asker) }
    {
        match self.view.origin_of(self.asker) {
            Origin::Tuple(tuple) => tuple.ip,
            Origin::Opaque(_) => false,
        }
    }

    // The asker's effective domain.
    fn effective_domain(&self) -> Option<&HostText>
        requires { CanAsk self.now.renderers self.now.suffixes.now (V.tree self.now.view.now) self.now.homes.now self.now.asker }
        ensures { option_copied result ≡ effective_domain (origin_of (V.tree self.now.view.now) self.now.asker) (domain_of (V.tree self.now.view.now) self.now.asker) }
    {
        match self.view.origin_of(self.asker) {
            Origin::Tuple(tuple) => match self.view.domain_of(self.asker) {
                Some(domain) => Some(domain),
                None => Some(&tuple.host),
            },
            Origin::Opaque(_) => None,
        }
    }

    /// The asker has a domain, given in ASCII letters of either case (HTML Standard, 7.1.1.2).
    pub(crate) fn domain(&self, value: Text) -> Result<Decided, AllocError>
        requires { CanAsk self.now.renderers self.now.suffixes.now (V.tree self.now.view.now) self.now.homes.now self.now.asker }
        ensures { IfOk result (λ d. decision_of d ≡ spec.domain_decision (rules self.now.renderers self.now.suffixes.now) (V.tree self.now.view.now) self.now.renderer self.now.asker (map to_ascii_lowercase value)) }
    {
        if self.view.flags(self.nav()).domain() {
            return Ok(self.refused(9));
        }
        let value = value.as_str().to_ascii_lowercase(self.alloc)?;
        self.domain_set(value.as_str(), self.effective_domain())
    }
}
