//! What a script asks of a Window through its WindowProxy, and does on it.
ghost use Rattle.std.specs.Prelude.{◌≡◌, option_copied, IfOk, OnErr};
ghost use Rattle.window_props.specs.Shown.{store_in};
ghost use Rattle.object_access.specs.Access.{store_left};
ghost use Rattle.object_access.specs.WindowAccess.{window};
ghost use Rattle.object_operations.specs.There.{HasWindow};
ghost use Rattle.script_steps.specs.Asked.{asked, act_of, done};

use crate::agent::Agent;
use crate::operation::{Changing, Reading};
use agent_terms::Outcome;
use std::alloc::AllocError;
use tree_view::View;
use window_props::{Key, Props};

impl<'a, V: View> Agent<'a, V> {
    /// What is asked of the Window of a navigable.
    pub(crate) fn read_window(
        &self,
        props: Option<&Props>,
        nav: u32,
        reading: Reading<'_>,
    ) -> Result<Outcome, AllocError>
        requires { HasWindow (V.tree self.now.view.now) self.now.doc nav }
        ensures { let seen = window (V.tree self.now.view.now) (V.urls self.now.view.now) self.now.doc nav in
            IfOk result (λ o. o ≡ asked (V.tree self.now.view.now) (V.urls self.now.view.now) self.now.doc reading.entry seen (store_in seen.object (option_copied props.entry))) }
    {
        let (view, doc) = (self.view, self.doc);
        match reading {
            Reading::Get(key) => window_proxy::get(self.alloc, view, props, doc, nav, key),
            Reading::Has(key) => window_proxy::has(view, props, doc, nav, key),
            Reading::Describe(key) => window_proxy::own_property(view, props, doc, nav, key),
            Reading::Keys => window_proxy::own_keys(self.alloc, view, props, doc, nav),
            Reading::Proto => Ok(window_proxy::prototype(view, doc, nav)),
            Reading::SetProto => Ok(window_proxy::set_prototype(view, doc, nav)),
            Reading::Extensible => Ok(window_proxy::is_extensible(view, doc, nav)),
            Reading::Prevent => Ok(window_proxy::prevent_extensions(view, doc, nav)),
            Reading::Call(key, args) => {
                window_proxy::call(self.alloc, view, props, doc, nav, key, args)
            }
        }
    }

    /// What is done on a property of the Window of a navigable. After an `Err` the properties are as before.
    pub(crate) fn change_window(
        &self,
        props: &mut Option<Props>,
        nav: u32,
        key: &Key,
        changing: Changing,
    ) -> Result<Outcome, AllocError>
        requires { HasWindow (V.tree self.now.view.now) self.now.doc nav }
        ensures ok { let seen = window (V.tree self.now.view.now) (V.urls self.now.view.now) self.now.doc nav in
            IfOk result (λ o. o ≡ done changing seen (store_in seen.object props.old) key.now) }
        ensures left { let seen = window (V.tree self.now.view.now) (V.urls self.now.view.now) self.now.doc nav in
            IfOk result (λ _. store_in seen.object props.new ≡ store_left seen (store_in seen.object props.old) key.now (act_of changing)) }
        ensures err { let seen = window (V.tree self.now.view.now) (V.urls self.now.view.now) self.now.doc nav in
            OnErr result (store_in seen.object props.new ≡ store_in seen.object props.old) }
    {
        let (alloc, view, doc) = (self.alloc, self.view, self.doc);
        match changing {
            Changing::Set(value) => window_proxy::set(alloc, view, props, doc, nav, key, value),
            Changing::Define(change) => {
                window_proxy::define(alloc, view, props, doc, nav, key, change)
            }
            Changing::Delete => window_proxy::delete(alloc, view, props, doc, nav, key),
        }
    }
}
