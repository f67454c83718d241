ghost use Rattle.std.specs.Prelude.{◌≡◌};
ghost use Rattle.object_access.specs.Verdict as spec;

use crate::access::foreign::foreign_property;
use crate::met::Met;
use agent_terms::{Op, Rule, Ruling};
use window_props::{Body, Descriptor, Key};

fn ruled_get(property: &Descriptor) -> Ruling
    ensures { result ≡ spec.ruled_get property.now }
{
    match property.body {
        Body::Value { .. } => Ruling::Allowed,
        Body::Accessor { get, .. } => if get {
            Ruling::Allowed
        } else {
            Ruling::Refused(Rule::S3)
        },
    }
}

fn ruled_set(property: &Descriptor) -> Ruling
    ensures { result ≡ spec.ruled_set property.now }
{
    match property.body {
        Body::Value { .. } => Ruling::Refused(Rule::S4),
        Body::Accessor { set, .. } => if set {
            Ruling::Allowed
        } else {
            Ruling::Refused(Rule::S4)
        },
    }
}

fn ruled_foreign(op: Op, found: Result<Descriptor, Rule>) -> Ruling
    ensures { result ≡ spec.ruled_foreign op found }
{
    match op {
        Op::Define => return Ruling::Refused(Rule::S5),
        Op::Delete => return Ruling::Refused(Rule::S6),
        Op::Keys | Op::Prototype => return Ruling::Allowed,
        _ => {}
    }
    match found {
        Err(rule) => Ruling::Refused(rule),
        Ok(property) => match op {
            Op::Get => ruled_get(&property),
            Op::Set => ruled_set(&property),
            _ => Ruling::Allowed,
        },
    }
}

/// Whether an operation is allowed, and else by which rule it is refused. It takes no memory.
#[tactic(auto, unfolding(object_access::specs::Verdict::verdict))]
pub fn verdict<M: Met>(met: &M, op: Op, key: &Key) -> Ruling
    requires { M.fits met.now }
    ensures { result ≡ spec.verdict (M.seen met.now) op key.now }
{
    if met.is_own() {
        return Ruling::Allowed;
    }
    ruled_foreign(op, foreign_property(met, key))
}
