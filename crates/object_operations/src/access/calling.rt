ghost use Rattle.std.specs.Prelude.{◌≡◌, option_copied, IfOk};
ghost use Rattle.window_props.specs.Shown.{store_in};
ghost use Rattle.object_access.specs.Methods as spec;

use crate::access::reading::get;
use crate::met::Met;
use agent_terms::Outcome;
use std::alloc::{AllocError, Global};
use window_props::{Key, Method, Object, Props, Value, named, same_method, same_object};

/// The object's own built-in method of a key, if the value is it.
#[tactic(auto, unfolding(object_access::specs::Methods::built_in))]
pub fn built_in(object: Object, key: &Key, value: &Value) -> Option<Method>
    ensures { result ≡ spec.built_in object key.now value.now }
{
    match value {
        Value::Function(method, of) => match named(object, key) {
            None => None,
            Some(name) => match name.method() {
                None => None,
                Some(own) => {
                    if same_method(*method, own) && same_object(*of, object) {
                        return Some(own);
                    }
                    None
                }
            },
        },
        _ => None,
    }
}

fn run_got<M: Met>(
    alloc: Global,
    met: &M,
    key: &Key,
    args: &[Value],
    got: Outcome,
) -> Result<Outcome, AllocError>
    requires { M.fits met.now }
    ensures { IfOk result (λ o. o ≡ spec.run_got (M.tree met.now) (M.urls met.now) (M.asker met.now) (M.seen met.now).object key.now args.now got) }
{
    match got {
        Outcome::Value(value) => match built_in(met.object(), key, &value) {
            None => Ok(Outcome::TypeFault),
            Some(method) => met.run(alloc, method, args),
        },
        other => Ok(other),
    }
}

/// What a call of the method under a key answers. A value there that isn't the object's own method of that key is
/// `TypeFault`.
#[tactic(auto, unfolding(object_access::specs::Methods::called))]
pub fn call<M: Met>(
    alloc: Global,
    met: &M,
    props: Option<&Props>,
    key: &Key,
    args: &[Value],
) -> Result<Outcome, AllocError>
    requires { M.fits met.now }
    ensures { IfOk result (λ o. o ≡ spec.called (M.tree met.now) (M.urls met.now) (M.asker met.now) (M.seen met.now) (store_in (M.seen met.now).object (option_copied props.entry)) key.now args.now) }
{
    let got = get(alloc, met, props, key)?;
    run_got(alloc, met, key, args, got)
}
