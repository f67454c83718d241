ghost use Rattle.std.specs.Prelude.{◌≡◌, IfOk};
ghost use Rattle.serde_json.specs.View.{view};
ghost use Rattle.session_reading.specs.Refusing.{Gives};
ghost use Rattle.session_reading.specs.Forms as spec;

use crate::error::{SessionError, wrong_kind};
use crate::name::Name;
use crate::reading::{Reads, field, field_or, no_others, optional};
use plain_data::Items;
use serde_json::Value;
use std::alloc::Global;

/// An object whose fields are read one after the other. It keeps the names of those that were read, so that
/// [`Form::ends`] can refuse all others.
#[derive(Drop)]
pub struct Form<'a> {
    object: &'a Value,
    known: Items<Name>,
}

impl<'a> Form<'a> {
    /// The object that the value is, of which nothing was read.
    #[tactic(auto, unfolding(crate::specs::Forms::fields_of))]
    pub fn of(alloc: Global, value: &'a Value) -> Result<Form<'a>, SessionError>
        ensures { Gives (spec.begun result) (spec.fields_of (view value.now)) }
    {
        if !value.is_object() {
            return Err(wrong_kind(alloc));
        }
        Ok(Form {
            object: value,
            known: Items::new(alloc),
        })
    }

    /// The allocator that all is read with.
    pub fn allocator(&self) -> Global {
        self.known.allocator()
    }

    /// What the field of the name holds.
    #[tactic(auto, unfolding(crate::specs::Forms::read_field))]
    pub fn field<R: Reads>(&mut self, name: Name, reader: &R) -> Result<R::Out, SessionError>
        ensures given { spec.Leaves result (spec.fields self.new) (spec.read_field name (R.reads reader.now) (spec.fields self.old)) }
        ensures held { IfOk result R.holds }
    {
        self.known.push(name)?;
        match field(self.allocator(), name, reader, self.object) {
            Ok(out) => Ok(out),
            Err(e) => Err(e),
        }
    }

    /// What the field of the name holds, or the default where the object has no such field.
    #[tactic(auto, unfolding(crate::specs::Forms::read_field_or))]
    pub fn field_or<R: Reads>(
        &mut self,
        name: Name,
        absent: R::Out,
        reader: &R,
    ) -> Result<R::Out, SessionError>
        ensures { spec.Leaves result (spec.fields self.new) (spec.read_field_or name absent (R.reads reader.now) (spec.fields self.old)) }
    {
        self.known.push(name)?;
        match field_or(self.allocator(), name, absent, reader, self.object) {
            Ok(out) => Ok(out),
            Err(e) => Err(e),
        }
    }

    /// What the field of the name holds, where the object has such a field.
    #[tactic(auto, unfolding(crate::specs::Forms::read_optional))]
    pub fn optional<R: Reads>(
        &mut self,
        name: Name,
        reader: &R,
    ) -> Result<Option<R::Out>, SessionError>
        ensures { spec.Leaves result (spec.fields self.new) (spec.read_optional name (R.reads reader.now) (spec.fields self.old)) }
    {
        self.known.push(name)?;
        match optional(self.allocator(), name, reader, self.object) {
            Ok(out) => Ok(out),
            Err(e) => Err(e),
        }
    }

    /// Refuses the first field, by bytes, that wasn't read.
    pub fn ends(&self) -> Result<(), SessionError>
        ensures { Gives result (spec.ends (spec.fields self.now)) }
    {
        no_others(self.allocator(), self.known.as_slice(), self.object)
    }
}
