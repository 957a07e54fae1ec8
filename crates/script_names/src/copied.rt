ghost use Rattle.std.specs.Prelude.{◌≡◌, IfOk};

use crate::memory::Memory;
use std::alloc::Global;

/// Values of plain data that can be copied. The copy equals the value; the one fault is want of memory.
pub trait Copied: Sized + Drop {
    /// A copy, which equals the value.
    fn copy(&self, alloc: Global) -> Result<Self, Memory>
        ensures { IfOk result (λ copy. copy ≡ self.now) };
}

impl Copied for bool {
    fn copy(&self, _alloc: Global) -> Result<bool, Memory> {
        Ok(*self)
    }
}

impl Copied for u8 {
    fn copy(&self, _alloc: Global) -> Result<u8, Memory> {
        Ok(*self)
    }
}

impl Copied for u16 {
    fn copy(&self, _alloc: Global) -> Result<u16, Memory> {
        Ok(*self)
    }
}

impl Copied for u32 {
    fn copy(&self, _alloc: Global) -> Result<u32, Memory> {
        Ok(*self)
    }
}

impl Copied for u64 {
    fn copy(&self, _alloc: Global) -> Result<u64, Memory> {
        Ok(*self)
    }
}

impl Copied for u128 {
    fn copy(&self, _alloc: Global) -> Result<u128, Memory> {
        Ok(*self)
    }
}

impl Copied for usize {
    fn copy(&self, _alloc: Global) -> Result<usize, Memory> {
        Ok(*self)
    }
}

impl Copied for i8 {
    fn copy(&self, _alloc: Global) -> Result<i8, Memory> {
        Ok(*self)
    }
}

impl Copied for i16 {
    fn copy(&self, _alloc: Global) -> Result<i16, Memory> {
        Ok(*self)
    }
}

impl Copied for i32 {
    fn copy(&self, _alloc: Global) -> Result<i32, Memory> {
        Ok(*self)
    }
}

impl Copied for i64 {
    fn copy(&self, _alloc: Global) -> Result<i64, Memory> {
        Ok(*self)
    }
}

impl Copied for i128 {
    fn copy(&self, _alloc: Global) -> Result<i128, Memory> {
        Ok(*self)
    }
}

impl Copied for isize {
    fn copy(&self, _alloc: Global) -> Result<isize, Memory> {
        Ok(*self)
    }
}

impl<T: Copied> Copied for Option<T> {
    fn copy(&self, alloc: Global) -> Result<Option<T>, Memory> {
        match self {
            None => Ok(None),
            Some(value) => {
                let copy = value.copy(alloc)?;
                Ok(Some(copy))
            }
        }
    }
}
