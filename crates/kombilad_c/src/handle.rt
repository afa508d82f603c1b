//! What C holds from call to call.

ghost use Rattle.std.specs.Prelude.{◌≡◌, ◌⊎◌, Option, Some, None, IsSome};
ghost use Rattle.std.specs.Option.{ForNone, ForSome};
ghost use Rattle.kombilad_c.specs.declared.held.Held.{Held};
ghost use Rattle.kombilad_c.specs.Handle.{place_owns, held_coded};

use crate::box_parts::BoxParts;
use crate::held::Held;
use crate::status::{MEMORY, OK};
use std::alloc::Global;
use std::marker::Model;
use std::{mem, ptr};

/// The place of what a handle holds, if it holds anything. It owns that.
#[repr(C)]
#[derive(Drop)]
pub struct Place {
    pub(crate) at: *mut u8,
    pub(crate) ghost held: { Option Held } by { held_coded },
}

impl Model for Place {
    ghost also_owns = { λ p. place_owns p.at p.held };
}

impl Place {
    // Returns a place that holds nothing.
    fn none() -> Place
        ensures { result.held ≡ None }
    {
        Place {
            at: ptr::null_mut(),
        }
    }

    // Returns the place of what the box holds.
    fn of_parts(parts: BoxParts<Held, Global>) -> Place
        ensures { result.held ≡ Some parts.value }
    {
        let BoxParts { ptr, alloc: _ } = parts;
        Place { at: ptr as *mut u8 }
    }

    // Returns what it holds.
    fn into_parts(self, alloc: Global) -> BoxParts<Held, Global>
        requires { IsSome self.held }
        ensures { self.held ≡ Some result.value }
    {
        let Place { at } = self;
        BoxParts {
            ptr: at as *mut Held,
            alloc,
        }
    }
}

/// A handle for C. If all its bytes are zero, it holds nothing.
#[repr(C)]
#[derive(Drop)]
pub struct Handle {
    /// 1 if it holds something, and otherwise 0.
    pub is_open: u64,
    /// The place of what it holds.
    pub place: Place,
    ghost closed: { ForNone place.held (is_open ≡ 0) },
    ghost opened: { ForSome place.held (λ _. is_open ≡ 1) },
}

impl Handle {
    ghost use Rattle.std.specs.Prelude.{option_map};

    // Takes what the handle holds. It holds nothing after that.
    pub(crate) fn take(&mut self, alloc: Global) -> Option<Box<Held>>
        ensures taken { option_map (λ held. held.value) result ≡ self.old.place.held }
        ensures closed { self.new.place.held ≡ None }
    {
        let closed = Handle {
            is_open: 0,
            place: Place::none(),
        };
        let old = mem::replace(self, closed);
        if old.is_open == 0 {
            return None;
        }
        Some(old.place.into_parts(alloc).into_box())
    }

    // Puts this into the handle.
    pub(crate) fn put(&mut self, held: Box<Held>)
        ensures { self.new.place.held ≡ Some held.value }
    {
        *self = Handle {
            is_open: 1,
            place: Place::of_parts(BoxParts::of(held)),
        };
    }

    // Has the handle hold this, and frees what it held. If an allocation fails, it is as before.
    pub(crate) fn hold(&mut self, alloc: Global, held: Held) -> u32
        ensures { ((result ≡ 0) × (self.new.place.held ≡ Some held))
            ⊎ ((result ≡ 1) × (self.new.place.held ≡ self.old.place.held)) }
    {
        match Box::new(alloc, held) {
            Ok(held) => {
                drop(self.take(alloc));
                self.put(held);
                OK
            }
            Err(_) => MEMORY,
        }
    }
}
