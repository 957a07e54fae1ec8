ghost use Rattle.std.specs.Prelude.{◌≡◌};
ghost use Rattle.std.specs.Option.{option_copied};
ghost use Rattle.dpkg_scenarios.specs.Scripts.{script_of};

use crate::scenario::ScriptKind;
use script_names::{Copied, Memory, Slot};
use std::alloc::Global;

/// The maintainer scripts of a package, those that it has, in whatever form (Debian Policy, 6.1).
#[derive(Drop)]
pub struct Scripts<T> {
    pub preinst: Slot<T>,
    pub postinst: Slot<T>,
    pub prerm: Slot<T>,
    pub postrm: Slot<T>,
}

impl<T: Copied> Copied for Scripts<T> {
    fn copy(&self, alloc: Global) -> Result<Scripts<T>, Memory> {
        let preinst = self.preinst.copy(alloc)?;
        let postinst = self.postinst.copy(alloc)?;
        let prerm = self.prerm.copy(alloc)?;
        let postrm = self.postrm.copy(alloc)?;
        Ok(Scripts {
            preinst,
            postinst,
            prerm,
            postrm,
        })
    }
}

impl<T> Scripts<T> {
    /// The script of this kind, where there is one.
    pub fn get(&self, script: ScriptKind) -> Option<&T>
        ensures { option_copied result ≡ script_of script self.now }
    {
        match script {
            ScriptKind::Preinst => self.preinst.get(),
            ScriptKind::Postinst => self.postinst.get(),
            ScriptKind::Prerm => self.prerm.get(),
            ScriptKind::Postrm => self.postrm.get(),
        }
    }
}
