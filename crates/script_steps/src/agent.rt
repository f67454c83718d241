ghost use Rattle.std.specs.Prelude.{◌≡◌, ◌<◌, IfOk, OnErr};
ghost use Rattle.window_props.specs.declared.platform.Object.{Object};
ghost use Rattle.window_props.specs.History.{Store};
ghost use Rattle.object_access.specs.StepAnswer as spec;
ghost use Rattle.object_access.specs.WindowAccess.{window};
ghost use Rattle.object_access.specs.LocationAccess.{location};
ghost use Rattle.object_operations.specs.There.{HasWindow, HasLocation};
ghost use Rattle.script_steps.specs.Kept.{kept};
ghost use Rattle.script_steps.specs.Stored.{stored};
ghost use Rattle.script_steps.specs.Reached.{sight, Fits};
ghost use Rattle.script_steps.specs.Asked.{outcome_of, stores_left, stores_after};

use crate::asking::performed;
use crate::operation::Operation;
use crate::registers::Registers;
use crate::stores::Stores;
use agent_terms::{Operand, Outcome, Performed};
use plain_data::Data;
use std::alloc::{AllocError, Global};
use tree_view::View;
use window_props::{Object, Value};

/// A document whose script runs, with what its steps go by.
#[derive(Drop)]
pub(crate) struct Agent<'a, V> {
    pub alloc: Global,
    pub view: &'a V,
    pub registers: &'a Registers,
    pub doc: u32,
}

impl<'a, V: View> Agent<'a, V> {
    // What a register holds.
    #[tactic(auto, unfolding(object_access::specs::StepAnswer::held))]
    fn held(&self, name: &str) -> Result<Value, AllocError>
        requires { Fits (V.tree self.now.view.now) (kept self.now.registers.now) self.now.doc }
        ensures { IfOk result (λ v. (stores : Object → Store) → v ≡ spec.held (sight (V.tree self.now.view.now) (V.urls self.now.view.now) (kept self.now.registers.now) stores) self.now.doc name.now) }
    {
        if name == "window" {
            return Ok(Value::Window(self.view.nav_of(self.doc)));
        }
        if name == "undefined" {
            return Ok(Value::Plain(Data::Undefined));
        }
        self.registers.get(self.doc, name)
    }

    /// What an operand comes to.
    #[tactic(auto, unfolding(object_access::specs::StepAnswer::operand_value))]
    pub(crate) fn operand(&self, given: &Operand) -> Result<Value, AllocError>
        requires { Fits (V.tree self.now.view.now) (kept self.now.registers.now) self.now.doc }
        ensures { IfOk result (λ v. (stores : Object → Store) → v ≡ spec.operand_value (sight (V.tree self.now.view.now) (V.urls self.now.view.now) (kept self.now.registers.now) stores) self.now.doc given.now) }
    {
        match given {
            Operand::Register(name) => self.held(name.as_str()),
            Operand::Plain(plain) => Ok(Value::Plain(plain.clone()?)),
        }
    }

    // The Window of a navigable, by its active document.
    #[tactic(auto, unfolding(object_access::specs::WindowAccess::window_of))]
    fn window_of(&self, nav: u32) -> Object
        requires { HasWindow (V.tree self.now.view.now) self.now.doc nav }
        ensures { result ≡ (window (V.tree self.now.view.now) (V.urls self.now.view.now) self.now.doc nav).object }
    {
        Object::Window(self.view.active(nav))
    }

    // What comes of an operation on the Window of a navigable.
    fn on_window(
        &self,
        stores: &mut Stores,
        nav: u32,
        operation: Operation<'_>,
    ) -> Result<Outcome, AllocError>
        requires { HasWindow (V.tree self.now.view.now) self.now.doc nav }
        ensures ok { let seen = window (V.tree self.now.view.now) (V.urls self.now.view.now) self.now.doc nav in
            IfOk result (λ o. o ≡ outcome_of (V.tree self.now.view.now) (V.urls self.now.view.now) self.now.doc operation.entry seen (stored stores.old seen.object)) }
        ensures left { let seen = window (V.tree self.now.view.now) (V.urls self.now.view.now) self.now.doc nav in
            IfOk result (λ _. stored stores.new ≡ stores_left operation.entry seen (stored stores.old)) }
        ensures err { OnErr result (stored stores.new ≡ stored stores.old) }
    {
        let object = self.window_of(nav);
        match operation {
            Operation::Read(reading) => self.read_window(stores.get(object), nav, reading),
            Operation::Change(key, changing) => {
                let mut props = stores.take(object)?;
                let outcome = self.change_window(&mut props, nav, key, changing);
                stores.put(object, props);
                outcome
            }
        }
    }

    // What comes of an operation on the Location of a document.
    #[tactic(auto, unfolding(object_access::specs::LocationAccess::location))]
    fn on_location(
        &self,
        stores: &mut Stores,
        of: u32,
        operation: Operation<'_>,
    ) -> Result<Outcome, AllocError>
        requires { HasLocation (V.tree self.now.view.now) self.now.doc of }
        ensures ok { let seen = location (V.tree self.now.view.now) (V.urls self.now.view.now) self.now.doc of in
            IfOk result (λ o. o ≡ outcome_of (V.tree self.now.view.now) (V.urls self.now.view.now) self.now.doc operation.entry seen (stored stores.old seen.object)) }
        ensures left { let seen = location (V.tree self.now.view.now) (V.urls self.now.view.now) self.now.doc of in
            IfOk result (λ _. stored stores.new ≡ stores_left operation.entry seen (stored stores.old)) }
        ensures err { OnErr result (stored stores.new ≡ stored stores.old) }
    {
        let object = Object::Location(of);
        match operation {
            Operation::Read(reading) => self.read_location(stores.get(object), of, reading),
            Operation::Change(key, changing) => {
                let mut props = stores.take(object)?;
                let outcome = self.change_location(&mut props, of, key, changing);
                stores.put(object, props);
                outcome
            }
        }
    }

    /// What comes of an operation on the object that a register holds, a Window or a Location: a TypeError where it holds
    /// none. After an `Err` what is stored is as before.
    #[tactic(auto, unfolding(object_access::specs::StepAnswer::held, object_access::specs::StepAnswer::on_object))]
    pub(crate) fn on_object(
        &self,
        stores: &mut Stores,
        of: &str,
        operation: Operation<'_>,
        user: bool,
    ) -> Result<Performed, AllocError>
        requires { Fits (V.tree self.now.view.now) (kept self.now.registers.now) self.now.doc }
        ensures ok { IfOk result (λ p. p ≡ spec.on_object (sight (V.tree self.now.view.now) (V.urls self.now.view.now) (kept self.now.registers.now) (stored stores.old)) self.now.doc user of.now (λ seen. outcome_of (V.tree self.now.view.now) (V.urls self.now.view.now) self.now.doc operation.entry seen (stored stores.old seen.object))) }
        ensures left { IfOk result (λ _. stored stores.new ≡ stores_after operation.entry (sight (V.tree self.now.view.now) (V.urls self.now.view.now) (kept self.now.registers.now) (stored stores.old)) self.now.doc of.now) }
        ensures err { OnErr result (stored stores.new ≡ stored stores.old) }
    {
        let doc = self.doc;
        if of == "window" {
            let outcome = self.on_window(stores, self.view.nav_of(doc), operation)?;
            return Ok(performed(doc, user, outcome));
        }
        if of == "undefined" {
            return Ok(Performed::Answer(Outcome::TypeFault));
        }
        match self.registers.find(doc, of) {
            Some(Value::Window(nav)) => {
                let outcome = self.on_window(stores, *nav, operation)?;
                Ok(performed(doc, user, outcome))
            }
            Some(Value::Location(of)) => {
                let outcome = self.on_location(stores, *of, operation)?;
                Ok(performed(doc, user, outcome))
            }
            _ => Ok(Performed::Answer(Outcome::TypeFault)),
        }
    }
}
