ghost use Rattle.std.specs.Prelude.{◌≡◌, IfOk, None, Some, is_none};
ghost use Rattle.std.specs.Option.{option_copied};

use crate::copied::Copied;
use crate::memory::Memory;
use std::alloc::Global;
use std::marker::Model;

/// One value or none, which contracts see as the option. The value is behind a pointer, so that what has several of
/// them stays small.
#[derive(Debug, Drop)]
pub struct Slot<T> {
    items: Vec<T>,
}

impl<T: Copied> Copied for Slot<T> {
    fn copy(&self, alloc: Global) -> Result<Slot<T>, Memory> {
        match self.get() {
            None => Ok(Slot::empty(alloc)),
            Some(value) => {
                let copy = value.copy(alloc)?;
                Slot::new(alloc, copy)
            }
        }
    }
}

impl<T> Model for Slot<T> {
    ghost use Rattle.std.specs.Prelude.{Option, slice_get};
    ghost use Rattle.std.specs.Coded.{coded_option};

    ghost Value = { Option T };

    ghost coded = { coded_option T.code };

    ghost view = { λ slot. slice_get slot.items.items 0 };
}

impl<T> Slot<T> {
    /// No value.
    pub fn empty(alloc: Global) -> Slot<T>
        ensures { result ≡ None }
    {
        Slot {
            items: Vec::new(alloc),
        }
    }

    /// The value, if there is one.
    pub fn get(&self) -> Option<&T>
        ensures { option_copied result ≡ self.now }
    {
        self.items.get(0)
    }

    /// Whether there is no value.
    pub fn is_none(&self) -> bool
        ensures { result ≡ is_none self.now }
    {
        self.get().is_none()
    }
}

impl<T: Drop> Slot<T> {
    /// A value; for want of memory it is dropped.
    pub fn new(alloc: Global, value: T) -> Result<Slot<T>, Memory>
        ensures { IfOk result (λ slot. slot ≡ Some value) }
    {
        let mut items = Vec::new(alloc);
        match items.push(value) {
            Ok(()) => Ok(Slot { items }),
            Err(_) => Err(Memory),
        }
    }
}
