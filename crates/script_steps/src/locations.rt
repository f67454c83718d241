//! What a script asks of a Location, and does on it.
ghost use Rattle.std.specs.Prelude.{◌≡◌, option_copied, IsTrue, IfOk, OnErr};
ghost use Rattle.window_props.specs.Shown.{store_in};
ghost use Rattle.window_props.specs.Holding.{can_hold};
ghost use Rattle.window_props.specs.declared.platform.Object.TheVariants.{Location};
ghost use Rattle.object_access.specs.Access.{store_left};
ghost use Rattle.object_access.specs.LocationAccess.{location};
ghost use Rattle.object_operations.specs.There.{HasLocation};
ghost use Rattle.script_steps.specs.Asked.{asked, act_of, done};

use crate::agent::Agent;
use crate::operation::{Changing, Reading};
use agent_terms::Outcome;
use std::alloc::AllocError;
use tree_view::View;
use window_props::{Key, Props};

impl<'a, V: View> Agent<'a, V> {
    /// What is asked of the Location of a document.
    pub(crate) fn read_location(
        &self,
        props: Option<&Props>,
        of: u32,
        reading: Reading<'_>,
    ) -> Result<Outcome, AllocError>
        requires { HasLocation (V.tree self.now.view.now) self.now.doc of }
        ensures { let seen = location (V.tree self.now.view.now) (V.urls self.now.view.now) self.now.doc of in
            IfOk result (λ o. o ≡ asked (V.tree self.now.view.now) (V.urls self.now.view.now) self.now.doc reading.entry seen (store_in seen.object (option_copied props.entry))) }
    {
        let (view, doc) = (self.view, self.doc);
        match reading {
            Reading::Get(key) => location_object::get(self.alloc, view, props, doc, of, key),
            Reading::Has(key) => location_object::has(view, props, doc, of, key),
            Reading::Describe(key) => location_object::own_property(view, props, doc, of, key),
            Reading::Keys => location_object::own_keys(self.alloc, view, props, doc, of),
            Reading::Proto => Ok(location_object::prototype(view, doc, of)),
            Reading::SetProto => Ok(location_object::set_prototype(view, doc, of)),
            Reading::Extensible => Ok(location_object::is_extensible(view, doc, of)),
            Reading::Prevent => Ok(location_object::prevent_extensions(view, doc, of)),
            Reading::Call(key, args) => {
                location_object::call(self.alloc, view, props, doc, of, key, args)
            }
        }
    }

    /// What is done on a property of the Location of a document. After an `Err` the properties are as before.
    pub(crate) fn change_location(
        &self,
        props: &mut Option<Props>,
        of: u32,
        key: &Key,
        changing: Changing,
    ) -> Result<Outcome, AllocError>
        requires there { HasLocation (V.tree self.now.view.now) self.now.doc of }
        requires store { IsTrue (can_hold (store_in (Location of) props.old).object key.now) }
        ensures ok { let seen = location (V.tree self.now.view.now) (V.urls self.now.view.now) self.now.doc of in
            IfOk result (λ o. o ≡ done changing seen (store_in seen.object props.old) key.now) }
        ensures left { let seen = location (V.tree self.now.view.now) (V.urls self.now.view.now) self.now.doc of in
            IfOk result (λ _. store_in seen.object props.new ≡ store_left seen (store_in seen.object props.old) key.now (act_of changing)) }
        ensures err { let seen = location (V.tree self.now.view.now) (V.urls self.now.view.now) self.now.doc of in
            OnErr result (store_in seen.object props.new ≡ store_in seen.object props.old) }
    {
        let (alloc, view, doc) = (self.alloc, self.view, self.doc);
        match changing {
            Changing::Set(value) => location_object::set(alloc, view, props, doc, of, key, value),
            Changing::Define(change) => {
                location_object::define(alloc, view, props, doc, of, key, change)
            }
            Changing::Delete => location_object::delete(alloc, view, props, doc, of, key),
        }
    }
}
