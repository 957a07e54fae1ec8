ghost use Rattle.std.specs.Prelude.{◌≡◌, IfOk};
ghost use Rattle.package_lists.specs.EntrySets.{kept_path};
ghost use Rattle.package_jobs.specs.Kept.{kept_of};

use crate::sides::old_package;
use checker_input::{Package, Packages};
use dpkg_scenarios::Scenario;
use package_lists::kept_path;
use script_names::{Copied, Memory, Path};
use std::alloc::Global;

/// The path of the first file of the old package that is kept where it is to disappear (Debian Policy, 6.6), so that it
/// does not; None in each other scenario, and where no file is kept.
pub fn kept_of(
    alloc: Global,
    scenario: Scenario,
    packages: &Packages,
) -> Result<Option<Path>, Memory>
    ensures { IfOk result (λ path. path ≡ kept_of scenario packages.now) }
{
    match scenario {
        Scenario::Disappear => kept_beside(alloc, &packages.new_package, old_package(packages)),
        Scenario::Install
        | Scenario::InstallAgain
        | Scenario::Upgrade
        | Scenario::Remove
        | Scenario::Purge
        | Scenario::PurgeLater
        | Scenario::InFavour
        | Scenario::Deconfigure
        | Scenario::Twice => Ok(None),
    }
}

// The path of the first file of another package that is kept beside the new one's.
fn kept_beside(alloc: Global, new: &Package, other: &Package) -> Result<Option<Path>, Memory>
    ensures { IfOk result (λ path. path ≡ kept_path new.now.entries other.now.entries) }
{
    let found = kept_path(alloc, new.entries.as_slice(), other.entries.as_slice())?;
    match found {
        None => Ok(None),
        Some(path) => {
            let path = path.copy(alloc)?;
            Ok(Some(path))
        }
    }
}
