use script_names::{Copied, Memory, Reason, Site};
use std::alloc::Global;

/// The greatest exit status that `exit` and `return` can be given (POSIX.1-2017, XCU 2.14 exit, return).
pub const MAX_STATUS: u32 = 255;

/// How a command leaves what stands round it.
#[derive(Clone, Copy, Debug, PartialEq, Eq)]
pub enum Leave {
    /// By `break` (POSIX.1-2017, XCU 2.14 break).
    Broke,
    /// By `continue` (XCU 2.14 continue).
    Continued,
    /// By `return` (XCU 2.14 return).
    Returned,
    /// By `exit`, or by a failure under `set -e` (XCU 2.14 exit, set).
    Exited,
    /// Without a result, since what it met at the site has no specification here.
    Stopped(Reason, Site),
    /// With no turn left for the loop at the site.
    Bound(Site),
}

impl Copied for Leave {
    fn copy(&self, _alloc: Global) -> Result<Leave, Memory> {
        Ok(*self)
    }
}
