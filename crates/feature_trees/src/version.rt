use script_names::{Copied, Memory};
use std::alloc::Global;

/// The version of a report's texts. In the first, one kind stood for the four special ones.
#[derive(Clone, Copy, Debug, PartialEq, Eq)]
pub enum Version {
    First,
    Second,
}

impl Copied for Version {
    fn copy(&self, _alloc: Global) -> Result<Version, Memory> {
        Ok(*self)
    }
}
