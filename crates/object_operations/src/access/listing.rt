ghost use Rattle.std.specs.Prelude.{◌≡◌, option_copied, IfOk};
ghost use Rattle.window_props.specs.Shown.{store_in};
ghost use Rattle.window_props.specs.Cross.{list_keys, fallback_keys};
ghost use Rattle.object_access.specs.Access as spec;

use crate::met::Met;
use agent_terms::Outcome;
use plain_data::{Items, Text};
use std::alloc::{AllocError, Global};
use window_props::{Key, Object, Props, cross_names, keys_of};

// The keys of the indices, in order.
#[tactic(auto, unfolding(object_access::specs::Access::index_keys), using(crate::proofs::KeyLaws::next_index))]
fn index_keys(alloc: Global, count: u32) -> Result<Items<Key>, AllocError>
    ensures { IfOk result (λ keys. keys ≡ spec.index_keys count) }
{
    let mut keys = Items::new(alloc);
    for index in 0..count {
        keys.push(Key::Text(Text::from_string(format!(in alloc; "{index}")?)))?;
    }
    Ok(keys)
}

// The keys of the list of properties that others see.
#[tactic(auto, unfolding(window_props::specs::Cross::list_keys))]
fn list_keys(alloc: Global, object: Object) -> Result<Items<Key>, AllocError>
    ensures { IfOk result (λ keys. keys ≡ list_keys object) }
{
    let mut keys = Items::new(alloc);
    for name in cross_names(object) {
        keys.push(Key::Text(Text::copy_of(alloc, name.text())?))?;
    }
    Ok(keys)
}

#[tactic(auto, unfolding(window_props::specs::Cross::fallback_keys, window_props::specs::Cross::then_key))]
fn fallback_keys(alloc: Global) -> Result<Items<Key>, AllocError>
    ensures { IfOk result (λ keys. keys ≡ fallback_keys) }
{
    let mut keys = Items::new(alloc);
    keys.push(Key::Text(Text::copy_of(alloc, "then")?))?;
    keys.push(Key::ToStringTag)?;
    keys.push(Key::HasInstance)?;
    keys.push(Key::IsConcatSpreadable)?;
    Ok(keys)
}

/// The keys of the own properties, in order.
#[tactic(auto, unfolding(object_access::specs::Access::keys))]
pub fn own_keys<M: Met>(
    alloc: Global,
    met: &M,
    props: Option<&Props>,
) -> Result<Outcome, AllocError>
    requires { M.fits met.now }
    ensures { IfOk result (λ o. o ≡ spec.keys (M.seen met.now) (store_in (M.seen met.now).object (option_copied props.entry))) }
{
    let mut keys = index_keys(alloc, met.count())?;
    if met.is_own() {
        keys.append(keys_of(alloc, met.object(), props)?)?;
        return Ok(Outcome::Keys(keys));
    }
    keys.append(list_keys(alloc, met.object())?)?;
    keys.append(fallback_keys(alloc)?)?;
    Ok(Outcome::Keys(keys))
}
