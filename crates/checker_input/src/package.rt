use dpkg_scenarios::Scripts;
use package_lists::FileList;
use script_names::{Bytes, Copied, Memory};
use shell_forms::Accepted;
use std::alloc::Global;
use system_base::Base;

/// A package: its version, what it lists, and its scripts.
#[derive(Drop)]
pub struct Package {
    pub version: Bytes,
    pub entries: FileList,
    pub scripts: Scripts<Accepted>,
}

impl Copied for Package {
    fn copy(&self, alloc: Global) -> Result<Package, Memory> {
        let version = self.version.copy(alloc)?;
        let entries = self.entries.copy(alloc)?;
        let scripts = self.scripts.copy(alloc)?;
        Ok(Package {
            version,
            entries,
            scripts,
        })
    }
}

/// A package with its name.
#[derive(Drop)]
pub struct NamedPackage {
    pub name: Bytes,
    pub own: Package,
}

/// What was read of a command line's folders: the new package, the old one, where it is another, and the base; and the
/// new package's name, which is empty where no scenario asks for it.
#[derive(Drop)]
pub struct Packages {
    pub new_package: Package,
    pub old_package: Option<Package>,
    pub base: Base,
    pub name: Bytes,
}

impl Copied for Packages {
    fn copy(&self, alloc: Global) -> Result<Packages, Memory> {
        let new_package = self.new_package.copy(alloc)?;
        let old_package = self.old_package.copy(alloc)?;
        let base = self.base.copy(alloc)?;
        let name = self.name.copy(alloc)?;
        Ok(Packages {
            new_package,
            old_package,
            base,
            name,
        })
    }
}
