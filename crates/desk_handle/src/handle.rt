ghost use Rattle.std.specs.Prelude.{◌≡◌, Option, Some, None, is_some, is_none, IsTrue};
ghost use Rattle.desk.specs.Serving.{Coordinator};
ghost use Rattle.desk_handle.specs.Owning.{handle_owns};
ghost use Rattle.plain_data.specs.contracts.data.Data as data_type;
ghost use Rattle.std.specs.Coded.{codes};

use crate::loose::Loose;
use desk::PlainDesk;
use std::alloc::Global;
use std::marker::Model;
use std::mem;
use std::ptr::null_mut;

/// What a handle points to.
#[derive(Drop)]
pub(crate) struct Boxed {
    pub desk: PlainDesk,
}

/// A coordinator, or none yet or any more. In C it is a struct of one pointer, which is null before the first call that
/// makes a coordinator, and again once it is freed. A handle that is dropped with a coordinator doesn't free it:
/// [`crate::free`] does.
///
/// Contracts see the coordinator.
#[repr(C)]
#[derive(Drop)]
pub struct Handle {
    at: *mut u8,
    pub ghost desk: { Option Coordinator } by { Prim.hlevel (codes, data_type.the_row.coded) },
}

impl Model for Handle {
    ghost also_owns = { λ h. handle_owns h.at h.desk };
}

impl Handle {
    /// A handle without a coordinator.
    pub fn none() -> Handle
        ensures { result.desk ≡ None }
    {
        Handle { at: null_mut() }
    }

    // The handle of a box.
    fn of_loose(loose: Loose<Boxed, Global>) -> Handle
        ensures { result.desk ≡ Some loose.value.desk }
    {
        let Loose { at, alloc: _ } = loose;
        Handle { at: at as *mut u8 }
    }

    // The box of a handle.
    fn into_loose(self, alloc: Global) -> Loose<Boxed, Global>
        requires there { IsTrue (is_some self.desk) }
        ensures { self.desk ≡ Some result.value.desk }
    {
        let Handle { at } = self;
        Loose {
            at: at as *mut Boxed,
            alloc,
        }
    }

    /// Takes the coordinator, which leaves none.
    pub(crate) fn take(&mut self, alloc: Global) -> Box<Boxed>
        requires there { IsTrue (is_some self.old.desk) }
        ensures taken { self.old.desk ≡ Some result.value.desk }
        ensures left { self.new.desk ≡ None }
    {
        mem::replace(self, Handle::none())
            .into_loose(alloc)
            .into_box()
    }

    /// Puts a coordinator where there is none.
    pub(crate) fn put(&mut self, boxed: Box<Boxed>)
        requires none { IsTrue (is_none self.old.desk) }
        ensures { self.new.desk ≡ Some boxed.value.desk }
    {
        *self = Handle::of_loose(Loose::of(boxed));
    }
}
