//! Handles: a pointer that C keeps to an object that Rattle code made.
ghost use base.Fml.{ftrue};
ghost use Rattle.std.specs.Prelude.{◌≡◌, ◌≢◌, ◌⊎◌};
ghost use Rattle.framehop_c.specs.declared.object.Object.{Object};
ghost use Rattle.framehop_c.specs.Handle.{object_coded, owns_object};
ghost use Rattle.framehop_c.specs.Status.{ok, out_of_memory};

mod raw_box;

use crate::object::Object;
use crate::status::{FRAMEHOP_OK, FRAMEHOP_OUT_OF_MEMORY};
use raw_box::RawBox;
use std::alloc::Global;
use std::marker::Model;

/// The place to which a new handle is written.
#[repr(C)]
#[derive(Drop)]
pub struct HandlePlace {
    address: *mut u8,
    pub ghost object: { Object } by { object_coded },
}

impl Model for HandlePlace {
    // the object is C's until it passes the handle
    ghost also_owns = { λ place. ftrue };
}

impl HandlePlace {
    fn of(raw: RawBox<Object, Global>) -> HandlePlace
        ensures { result.object ≡ raw.value }
    {
        let RawBox { pointer, alloc: _ } = raw;
        HandlePlace {
            address: pointer as *mut u8,
        }
    }
}

/// A handle that C passes: the address of an object, which it owns.
#[repr(C)]
pub struct Handle {
    address: *mut u8,
    alloc: Global,
    pub ghost object: { Object } by { object_coded },
}

impl Model for Handle {
    ghost also_owns = { λ handle. owns_object handle.alloc handle.address handle.object };
}

impl Handle {
    ghost use Rattle.std.specs.Prelude.{◌≡◌};
    ghost use types.Logic.{sem};
    ghost use Rattle.framehop_c.specs.Lending.{LendsObject};

    /// Lends the object.
    pub(crate) fn object_mut(&mut self) -> &mut Object
        ensures* writes_back { sem 𝓛 (LendsObject self.entry result) }
        ensures object { result.now ≡ self.old.object }
    {
        unsafe { &mut *(self.address as *mut Object) }
    }

    fn into_raw(self) -> RawBox<Object, Global>
        ensures { result.value ≡ self.object }
    {
        let Handle { address, alloc } = self;
        RawBox {
            pointer: address as *mut Object,
            alloc,
        }
    }

    /// Frees the object and its memory.
    pub fn free(self) {
        drop(self.into_raw().into_box());
    }
}

/// Puts an object into memory of its own, and writes a handle to it. Where memory runs out, the place
/// is as it was.
pub(crate) fn hand_out(alloc: Global, object: Object, place: &mut HandlePlace) -> i32
    ensures written { result ≡ ok → place.new.object ≡ object }
    ensures kept { result ≢ ok → place.new ≡ place.old }
    ensures statuses { (result ≡ ok) ⊎ (result ≡ out_of_memory) }
{
    match Box::new(alloc, object) {
        Ok(boxed) => {
            *place = HandlePlace::of(RawBox::of(boxed));
            FRAMEHOP_OK
        }
        Err(_) => FRAMEHOP_OUT_OF_MEMORY,
    }
}
