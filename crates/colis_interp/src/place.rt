ghost use Rattle.std.specs.Prelude.{◌≡◌};
ghost use Rattle.shell_rules.specs.State as st;
ghost use Rattle.colis_interp.specs.Places.{place_of, stop_at};

use crate::halt::Halt;
use colis_syntax::Def;
use script_names::{Reason, Site};
use shell_rules::Leave;

/// Where a command stands: the step of the scenario; the byte offset in the script of the command that is run; all
/// functions of the program; whether its failure is excepted from `set -e`; and whether it stands in a command
/// substitution.
#[derive(Clone, Copy)]
pub(crate) struct Place<'a> {
    pub step: u16,
    pub at: u32,
    pub functions: &'a [Def],
    pub excepted: bool,
    pub inner: bool,
}

impl<'a> Place<'a> {
    /// The site of the command.
    pub(crate) fn site(self) -> Site
        ensures { result ≡ st.site_of (place_of self.entry) }
    {
        Site {
            step: self.step,
            at: self.at,
        }
    }

    /// The stop at the command for a reason.
    pub(crate) fn stop(self, reason: Reason) -> Halt
        ensures { result ≡ stop_at reason self.entry }
    {
        Halt::Left(Leave::Stopped(reason, self.site()))
    }
}
