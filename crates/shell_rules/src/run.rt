use script_names::{Copied, Memory, Reason, Site};
use std::alloc::Global;

/// How a run of a script or a program ends.
#[derive(Clone, Copy, Debug, PartialEq, Eq)]
pub enum End {
    /// With success, or with failure.
    Status(bool),
    /// Without a result, since what it met at the site has no specification here.
    Stopped(Reason, Site),
    /// With no turn left for the loop at the site.
    Bound(Site),
}

impl Copied for End {
    fn copy(&self, _alloc: Global) -> Result<End, Memory> {
        Ok(*self)
    }
}
