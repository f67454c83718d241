ghost use Rattle.std.specs.Prelude.{◌≡◌, ℕ, true, false, option_copied, IsTrue, IfOk, OnOk, OnErr, if◌then◌else◌};
ghost use Rattle.window_props.specs.Shown.{store_in};
ghost use Rattle.window_props.specs.Values.{same_object};
ghost use Rattle.window_props.specs.declared.platform.Object.{Object};
ghost use Rattle.window_props.specs.declared.platform.Object.TheVariants.{Location};
ghost use Rattle.object_access.specs.StepAnswer.{first_stores};
ghost use Rattle.script_steps.specs.Slots.{slot};
ghost use Rattle.script_steps.specs.Kind.{suits};

use crate::slots::Slots;
use std::alloc::{AllocError, Global};
use window_props::{Object, Props};

/// The properties of Windows and Locations.
///
/// Contracts see `stored stores`, a store for each object: what the platform makes where nothing was changed. An object's
/// properties are kept from its first change on, and are found by its document's number.
#[derive(Drop)]
pub struct Stores {
    windows: Slots<Props>,
    locations: Slots<Props>,
    ghost suiting: { (d : ℕ) → suits (Location d) (slot locations.slots.items d) ≡ true },
}

impl Stores {
    ghost use Rattle.script_steps.specs.Stored.{stored, placed, props_at, HasRoom};

    /// The properties that the platform makes.
    pub fn new(alloc: Global) -> Stores
        ensures { stored result ≡ first_stores }
    {
        Stores {
            windows: Slots::new(alloc),
            locations: Slots::new(alloc),
        }
    }

    /// What is kept of an object's properties.
    pub(crate) fn get(&self, object: Object) -> Option<&Props>
        ensures { option_copied result ≡ props_at self.now object }
    {
        match object {
            Object::Window(doc) => self.windows.get(doc),
            Object::Location(doc) => self.locations.get(doc),
        }
    }

    fn make_room(&mut self, object: Object) -> Result<(), AllocError>
        ensures room { OnOk result (HasRoom self.new object) }
        ensures same { (other : Object) → props_at self.new other ≡ props_at self.old other }
    {
        match object {
            Object::Window(doc) => self.windows.make_room(doc),
            Object::Location(doc) => self.locations.make_room(doc),
        }
    }

    fn take_kept(&mut self, object: Object) -> Option<Props>
        requires { HasRoom self.old object }
        ensures value { result ≡ props_at self.old object }
        ensures rest { (other : Object) → same_object other object ≡ false → props_at self.new other ≡ props_at self.old other }
        ensures room { HasRoom self.new object }
    {
        match object {
            Object::Window(doc) => self.windows.take(doc),
            Object::Location(doc) => self.locations.take(doc),
        }
    }

    fn put_kept(&mut self, object: Object, props: Option<Props>)
        requires room { HasRoom self.old object }
        requires suits { IsTrue (suits object props) }
        ensures { (other : Object) → props_at self.new other ≡ (if same_object other object then props else props_at self.old other) }
    {
        match object {
            Object::Window(doc) => self.windows.put(doc, props),
            Object::Location(doc) => self.locations.put(doc, props),
        }
    }

    /// Takes what is kept of an object's properties out, so that it can be changed and put back. What is stored of other
    /// objects stays, and after an `Err` of all.
    pub(crate) fn take(&mut self, object: Object) -> Result<Option<Props>, AllocError>
        ensures value { IfOk result (λ props. store_in object props ≡ stored self.old object) }
        ensures suits { IfOk result (λ props. IsTrue (suits object props)) }
        ensures rest { OnOk result ((other : Object) → same_object other object ≡ false → stored self.new other ≡ stored self.old other) }
        ensures room { OnOk result (HasRoom self.new object) }
        ensures err { OnErr result (stored self.new ≡ stored self.old) }
    {
        self.make_room(object)?;
        Ok(self.take_kept(object))
    }

    /// Puts what is kept of an object's properties back.
    pub(crate) fn put(&mut self, object: Object, props: Option<Props>)
        requires room { HasRoom self.old object }
        requires suits { IsTrue (suits object props) }
        ensures { stored self.new ≡ placed object (store_in object props) (stored self.old) }
    {
        self.put_kept(object, props);
    }
}
