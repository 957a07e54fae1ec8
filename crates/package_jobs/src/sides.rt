// The two packages of a scenario.
ghost use Rattle.std.specs.Prelude.{◌≡◌};
ghost use Rattle.package_jobs.specs.Sides.{old_of};

use checker_input::{Package, Packages};

// The old package; where none was named, the new one is its own old package.
pub fn old_package(packages: &Packages) -> &Package
    ensures { result.now ≡ old_of packages.now }
{
    match &packages.old_package {
        Some(package) => package,
        None => &packages.new_package,
    }
}
