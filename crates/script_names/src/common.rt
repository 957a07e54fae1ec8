ghost use Rattle.std.specs.Prelude.{◌≡◌, IfOk};

use crate::memory::Memory;
use std::alloc::Global;
use std::marker::Model;
use std::rc::Rc;

/// One value that several may own, which contracts see as the value. It never changes, and lives as long as an owner.
#[derive(Debug, Drop)]
pub struct Common<T> {
    inner: Rc<T>,
}

impl<T> Model for Common<T> {
    ghost use Rattle.std.specs.Prelude.{◌≡◌};

    ghost Value = { T };

    ghost coded = { T.code };

    ghost view = { λ common. common.inner.value };
}

impl<T> Common<T> {
    /// The value.
    pub fn get(&self) -> &T
        ensures { result.now ≡ self.now }
    {
        &self.inner
    }
}

impl<T: Drop> Common<T> {
    /// The value, with one owner; for want of memory it is given up.
    pub fn new(alloc: Global, value: T) -> Result<Common<T>, Memory>
        ensures { IfOk result (λ common. common ≡ value) }
    {
        Ok(Common {
            inner: Rc::new(alloc, value)?,
        })
    }

    /// One more owner of the value. Where it can have no further one, that is want of memory.
    pub fn fork(&self) -> Result<Common<T>, Memory>
        ensures { IfOk result (λ fork. fork ≡ self.now) }
    {
        Ok(Common {
            inner: self.inner.clone()?,
        })
    }
}
