//! What C has of a client: where it lies, or null.

ghost use Rattle.std.specs.Prelude.{◌≡◌, Option, None, Some};
ghost use Rattle.std.specs.Option.{MatchOption};
ghost use Rattle.bolt_c.specs.declared.held.Held.{Held as AnyHeld};
ghost use Rattle.bolt_c.specs.Owning.{on_heap, lies, stored};

use crate::held::Held;
use std::alloc::Global;
use std::marker::Model;
use std::mem;
use std::ptr::null_mut;

/// A client or none. `{0}` in C is none.
#[repr(C)]
pub struct Handle {
    at: *mut u8,
    pub(crate) ghost held: { Option AnyHeld } by { stored },
}

impl Model for Handle {
    ghost also_owns = { λ h. lies h.held h.at };
}

/// Where the value of a box lies, which stays there.
struct Place<T> {
    at: *mut T,
    ghost value: { T },
}

impl<T> Model for Place<T> {
    ghost also_owns = { λ p. on_heap T.row p.at p.value };
}

impl<T: Drop> Place<T> {
    fn of(boxed: Box<T>) -> Place<T>
        ensures { result.value ≡ boxed.value }
    {
        Place {
            at: Box::into_raw(boxed),
        }
    }

    fn into_box(self, alloc: Global) -> Box<T>
        ensures { result.value ≡ self.value }
    {
        let Place { at } = self;
        unsafe { Box::from_raw(alloc, at) }
    }
}

impl Handle {
    fn null() -> Handle
        ensures { result.held ≡ None }
    {
        Handle { at: null_mut() }
    }

    fn to(place: Place<Held>) -> Handle
        ensures { result.held ≡ Some place.value }
    {
        let Place { at } = place;
        Handle { at: at as *mut u8 }
    }

    fn place(self) -> Option<Place<Held>>
        ensures { MatchOption result (self.held ≡ None) (λ p. self.held ≡ Some p.value) }
    {
        let Handle { at } = self;
        if at.is_null() {
            return None;
        }
        Some(Place {
            at: at as *mut Held,
        })
    }

    /// What it holds, which is left empty; nothing if it is null.
    pub(crate) fn take(&mut self, alloc: Global) -> Option<Box<Held>>
        ensures told { MatchOption result (self.old.held ≡ None) (λ b. self.old.held ≡ Some b.value) }
        ensures empty { self.new.held ≡ None }
    {
        match mem::replace(self, Handle::null()).place() {
            Some(place) => Some(place.into_box(alloc)),
            None => None,
        }
    }

    /// What it held before is freed.
    pub(crate) fn put(&mut self, alloc: Global, held: Box<Held>)
        ensures { self.new.held ≡ Some held.value }
    {
        let old = mem::replace(self, Handle::to(Place::of(held)));
        if let Some(place) = old.place() {
            drop(place.into_box(alloc));
        }
    }
}
