ghost use Rattle.std.specs.Prelude.{◌≡◌, map, false, IfOk, OnErr};
ghost use Rattle.std.specs.Option.{option_map};
ghost use Rattle.window_props.specs.declared.platform.Object.{Object};
ghost use Rattle.window_props.specs.History.{Store};
ghost use Rattle.window_props.specs.Ordinary.{Define, Set};
ghost use Rattle.object_access.specs.Access as access;
ghost use Rattle.object_access.specs.Methods.{called};
ghost use Rattle.object_access.specs.StepAnswer as spec;
ghost use Rattle.script_steps.specs.Kept.{kept};
ghost use Rattle.script_steps.specs.Stored.{stored};
ghost use Rattle.script_steps.specs.Asked.{asked};
ghost use Rattle.script_steps.specs.Reached.{sight, Fits};

use crate::agent::Agent;
use crate::operation::{Changing, Operation, Reading};
use crate::registers::Registers;
use crate::stores::Stores;
use agent_terms::{Operand, Outcome, Performed, Request, Step};
use plain_data::{Items, Text};
use std::alloc::{AllocError, Global};
use tree_view::View;
use window_props::{Change, Key, Value};

impl<'a, V: View> Agent<'a, V> {
    fn operands(&self, given: &[Operand]) -> Result<Items<Value>, AllocError>
        requires { Fits (V.tree self.now.view.now) (kept self.now.registers.now) self.now.doc }
        ensures { IfOk result (λ vs. (stores : Object → Store) → vs ≡ map (spec.operand_value (sight (V.tree self.now.view.now) (V.urls self.now.view.now) (kept self.now.registers.now) stores) self.now.doc) given.now) }
    {
        let mut values = Items::new(self.alloc);
        for operand in given {
            values.push(self.operand(operand)?)?;
        }
        Ok(values)
    }

    fn operand_if_any(&self, given: &Option<Operand>) -> Result<Option<Value>, AllocError>
        requires { Fits (V.tree self.now.view.now) (kept self.now.registers.now) self.now.doc }
        ensures { IfOk result (λ v. (stores : Object → Store) → v ≡ option_map (spec.operand_value (sight (V.tree self.now.view.now) (V.urls self.now.view.now) (kept self.now.registers.now) stores) self.now.doc) given.now) }
    {
        match given {
            Some(operand) => Ok(Some(self.operand(operand)?)),
            None => Ok(None),
        }
    }

    fn read(
        &self,
        stores: &mut Stores,
        of: &Text,
        reading: Reading<'_>,
        user: bool,
    ) -> Result<Performed, AllocError>
        requires { Fits (V.tree self.now.view.now) (kept self.now.registers.now) self.now.doc }
        ensures ok { let s = sight (V.tree self.now.view.now) (V.urls self.now.view.now) (kept self.now.registers.now) (stored stores.old) in
            IfOk result (λ p. p ≡ spec.on_object s self.now.doc user of.now (λ seen. asked s.tree s.urls self.now.doc reading.entry seen (s.stores seen.object))) }
        ensures same { stored stores.new ≡ stored stores.old }
    {
        self.on_object(stores, of.as_str(), Operation::Read(reading), user)
    }

    fn call(
        &self,
        stores: &mut Stores,
        of: &Text,
        key: &Key,
        args: &Items<Operand>,
        user: bool,
    ) -> Result<Performed, AllocError>
        requires { Fits (V.tree self.now.view.now) (kept self.now.registers.now) self.now.doc }
        ensures ok { let s = sight (V.tree self.now.view.now) (V.urls self.now.view.now) (kept self.now.registers.now) (stored stores.old) in
            IfOk result (λ p. p ≡ spec.on_object s self.now.doc user of.now (λ seen. called s.tree s.urls self.now.doc seen (s.stores seen.object) key.now (map (spec.operand_value s self.now.doc) args.now))) }
        ensures same { stored stores.new ≡ stored stores.old }
    {
        let args = self.operands(args.as_slice())?;
        self.read(stores, of, Reading::Call(key, args.as_slice()), user)
    }

    fn set(
        &self,
        stores: &mut Stores,
        of: &Text,
        key: &Key,
        value: &Operand,
        user: bool,
    ) -> Result<Performed, AllocError>
        requires { Fits (V.tree self.now.view.now) (kept self.now.registers.now) self.now.doc }
        ensures ok { let s = sight (V.tree self.now.view.now) (V.urls self.now.view.now) (kept self.now.registers.now) (stored stores.old) in
            IfOk result (λ p. p ≡ spec.on_object s self.now.doc user of.now (λ seen. access.set seen (s.stores seen.object) key.now (spec.operand_value s self.now.doc value.now))) }
        ensures left { let s = sight (V.tree self.now.view.now) (V.urls self.now.view.now) (kept self.now.registers.now) (stored stores.old) in
            IfOk result (λ _. stored stores.new ≡ spec.changed_at s self.now.doc of.now key.now (Set (spec.operand_value s self.now.doc value.now))) }
        ensures err { OnErr result (stored stores.new ≡ stored stores.old) }
    {
        let value = self.operand(value)?;
        self.on_object(
            stores,
            of.as_str(),
            Operation::Change(key, Changing::Set(value)),
            user,
        )
    }

    fn define(
        &self,
        stores: &mut Stores,
        of: &Text,
        key: &Key,
        given: &Given<'_>,
    ) -> Result<Performed, AllocError>
        requires { Fits (V.tree self.now.view.now) (kept self.now.registers.now) self.now.doc }
        ensures ok { let s = sight (V.tree self.now.view.now) (V.urls self.now.view.now) (kept self.now.registers.now) (stored stores.old) in
            IfOk result (λ p. p ≡ spec.on_object s self.now.doc false of.now (λ seen. access.defined seen (s.stores seen.object) key.now (spec.change_of s self.now.doc given.now.value.now given.now.writable given.now.enumerable given.now.configurable))) }
        ensures left { let s = sight (V.tree self.now.view.now) (V.urls self.now.view.now) (kept self.now.registers.now) (stored stores.old) in
            IfOk result (λ _. stored stores.new ≡ spec.changed_at s self.now.doc of.now key.now (Define (spec.change_of s self.now.doc given.now.value.now given.now.writable given.now.enumerable given.now.configurable))) }
        ensures err { OnErr result (stored stores.new ≡ stored stores.old) }
    {
        let change = Change {
            value: self.operand_if_any(given.value)?,
            writable: given.writable,
            enumerable: given.enumerable,
            configurable: given.configurable,
        };
        self.on_object(
            stores,
            of.as_str(),
            Operation::Change(key, Changing::Define(change)),
            false,
        )
    }
}

// The parts that a define gives.
#[derive(Drop)]
struct Given<'a> {
    value: &'a Option<Operand>,
    writable: Option<bool>,
    enumerable: Option<bool>,
    configurable: Option<bool>,
}

/// What a step of a document's script is on what its renderer heard: an answer, or a request to the coordinator. It
/// leaves the registers; the caller writes the step's `to`.
///
/// Only a set, a define or a delete on the document's own objects changes what is stored. After an `Err` it is as before.
#[tactic(auto, unfolding(object_access::specs::StepAnswer::perform, object_access::specs::StepAnswer::step_stores))]
pub fn local<V: View>(
    alloc: Global,
    step: &Step,
    view: &V,
    stores: &mut Stores,
    registers: &Registers,
    doc: u32,
) -> Result<Performed, AllocError>
    requires { Fits (V.tree view.now) (kept registers.now) doc }
    ensures ok { IfOk result (λ p. p ≡ spec.perform (sight (V.tree view.now) (V.urls view.now) (kept registers.now) (stored stores.old)) doc step.now) }
    ensures left { IfOk result (λ _. stored stores.new ≡ spec.step_stores (sight (V.tree view.now) (V.urls view.now) (kept registers.now) (stored stores.old)) doc step.now) }
    ensures err { OnErr result (stored stores.new ≡ stored stores.old) }
{
    let agent = Agent {
        alloc,
        view,
        registers,
        doc,
    };
    match step {
        Step::Let { value, .. } => Ok(Performed::Answer(Outcome::Value(agent.operand(value)?))),
        Step::Get { of, key, .. } => agent.read(stores, of, Reading::Get(key), false),
        Step::Has { of, key } => agent.read(stores, of, Reading::Has(key), false),
        Step::Describe { of, key } => agent.read(stores, of, Reading::Describe(key), false),
        Step::Keys { of } => agent.read(stores, of, Reading::Keys, false),
        Step::Proto { of } => agent.read(stores, of, Reading::Proto, false),
        Step::SetProto { of } => agent.read(stores, of, Reading::SetProto, false),
        Step::Extensible { of } => agent.read(stores, of, Reading::Extensible, false),
        Step::Prevent { of } => agent.read(stores, of, Reading::Prevent, false),
        Step::Set {
            of,
            key,
            value,
            user,
        } => agent.set(stores, of, key, value, *user),
        Step::Define {
            of,
            key,
            value,
            writable,
            enumerable,
            configurable,
        } => {
            let given = Given {
                value,
                writable: *writable,
                enumerable: *enumerable,
                configurable: *configurable,
            };
            agent.define(stores, of, key, &given)
        }
        Step::Delete { of, key } => {
            let operation = Operation::Change(key, Changing::Delete);
            agent.on_object(stores, of.as_str(), operation, false)
        }
        Step::Call {
            of,
            key,
            args,
            user,
            ..
        } => agent.call(stores, of, key, args, *user),
        Step::Sync => Ok(Performed::Ask(Request::Sync { asker: doc })),
        Step::Frame {
            url,
            name,
            sandbox,
            ..
        } => agent.frame(url, name, sandbox),
        Step::Drop { index } => Ok(agent.drop_frame(*index)),
        Step::Open {
            url,
            target,
            noopener,
            user,
            ..
        } => agent.open(url, target, *noopener, *user),
        Step::Link {
            url,
            target,
            rel,
            user,
        } => agent.link(url, target, rel, *user),
        Step::Domain { value } => Ok(Performed::Ask(Request::Domain {
            asker: doc,
            value: value.clone()?,
        })),
    }
}
