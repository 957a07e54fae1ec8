use script_names::{Bytes, Copied, Memory, Path};
use std::alloc::Global;

/// How each call of a command ends, as it is stated.
#[derive(Debug, Drop)]
pub enum CallEnd {
    /// With success, as `true` does (POSIX.1-2017, XCU, true).
    Succeeds,
    /// With a failure, as `false` does (POSIX.1-2017, XCU, false).
    Fails,
    /// Each call succeeds exactly where something stands at the path when it is made, as `test -e` does
    /// (POSIX.1-2017, XCU, test).
    Asks(Path),
}

impl Copied for CallEnd {
    fn copy(&self, alloc: Global) -> Result<CallEnd, Memory> {
        match self {
            CallEnd::Succeeds => Ok(CallEnd::Succeeds),
            CallEnd::Fails => Ok(CallEnd::Fails),
            CallEnd::Asks(path) => Ok(CallEnd::Asks(path.copy(alloc)?)),
        }
    }
}

/// A command of which it is stated how each call of it ends, that it prints nothing and that it changes nothing.
#[derive(Debug, Drop)]
pub struct StatedCall {
    pub name: Bytes,
    pub end: CallEnd,
}

impl Copied for StatedCall {
    fn copy(&self, alloc: Global) -> Result<StatedCall, Memory> {
        let name = self.name.copy(alloc)?;
        let end = self.end.copy(alloc)?;
        Ok(StatedCall { name, end })
    }
}
