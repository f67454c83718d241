//! What is read of an object's properties where a store may be kept of it, or none: an object on which nothing was called
//! yet has the platform's properties, and needs no store.
ghost use Rattle.std.specs.Prelude.{◌≡◌, option_copied, IfOk};
ghost use Rattle.window_props.specs.Shown.{store_in};

use crate::descriptor::Descriptor;
use crate::key::Key;
use crate::platform::{Object, named};
use crate::props::Props;
use plain_data::Items;
use std::alloc::{AllocError, Global};

/// The property of the object at the key (ECMA-262, [[GetOwnProperty]]).
#[tactic(auto, unfolding(crate::specs::History::store_of, crate::specs::Platform::platform))]
pub fn own_of(
    object: Object,
    props: Option<&Props>,
    key: &Key,
) -> Result<Option<Descriptor>, AllocError>
    ensures { IfOk result (λ d. d ≡ (store_in object (option_copied props.entry)).at key.now) }
{
    match props {
        Some(props) => props.own(key),
        None => match named(object, key) {
            Some(name) => Ok(Some(name.made(object))),
            None => Ok(None),
        },
    }
}

/// The keys that have a property, in order (ECMA-262, [[OwnPropertyKeys]]).
pub fn keys_of(
    alloc: Global,
    object: Object,
    props: Option<&Props>,
) -> Result<Items<Key>, AllocError>
    ensures { IfOk result (λ keys. keys ≡ (store_in object (option_copied props.entry)).keys) }
{
    match props {
        Some(props) => props.keys(),
        None => Props::new(alloc, object)?.keys(),
    }
}
