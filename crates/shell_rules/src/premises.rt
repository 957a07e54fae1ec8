ghost use Rattle.std.specs.Prelude.{◌≡◌};
ghost use Rattle.shell_rules.specs.Planned.{no_premises};

use link_walks::KnownLink;
use script_names::{Copied, List, Memory};
use std::alloc::Global;
use utility_calls::StatedCalls;

/// The premises of a run: what is stated of the system that a script runs on, beside its file tree. No command changes
/// them.
#[derive(Debug, Drop)]
pub struct Premises {
    /// Symbolic links that lead to directories, in the order in which they were stated.
    pub links: List<KnownLink>,
    /// Commands of which it is stated how each call ends.
    pub calls: StatedCalls,
    /// Whether each regular file may be executed (POSIX.1-2017, XCU test, `-x`).
    pub runs: bool,
    /// Whether `dpkg --compare-versions` answers by Debian's order of versions (deb-version(7)).
    pub versions: bool,
}

impl Premises {
    /// Nothing is stated.
    pub fn none(alloc: Global) -> Premises
        ensures { result ≡ no_premises }
    {
        Premises {
            links: List::new(alloc),
            calls: StatedCalls::new(alloc),
            runs: false,
            versions: false,
        }
    }
}

impl Copied for Premises {
    fn copy(&self, alloc: Global) -> Result<Premises, Memory> {
        let links = self.links.copy(alloc)?;
        let calls = self.calls.copy(alloc)?;
        Ok(Premises {
            links,
            calls,
            runs: self.runs,
            versions: self.versions,
        })
    }
}
