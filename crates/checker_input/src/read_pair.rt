// The packages of a pair, and the package that is configured twice.
ghost use Rattle.checker_input.specs.Input.{ReadsInput, named_control_in, named_package_in, pair_in, twice_in};

use crate::control::Control;
use crate::faults::InputRefusal;
use crate::input::read_base;
use crate::names::PackageFile;
use crate::package::{NamedPackage, Packages};
use crate::read_file::{of_file, read_own};
use crate::read_kept::{read_kept_package, read_kept_with};
use crate::understand::named_control;
use checker_io::{Shelf, Stop};
use script_names::Text;
use std::alloc::Global;

// The version and the name of a package, from its control file.
fn read_named_control<S: Shelf>(
    alloc: Global,
    folder: &Text,
    shelf: &mut S,
) -> Result<Control, Stop<Text, InputRefusal>>
    ensures { ReadsInput (S.state shelf.old) (S.state shelf.new) (named_control_in folder.now) result }
{
    let found = match read_own(alloc, folder, PackageFile::Control, shelf) {
        Ok(found) => found,
        Err(stop) => return Err(stop),
    };
    let came = named_control(alloc, &found.content);
    of_file(found.name, came)
}

// The package in a folder, with its name.
fn read_named_package<S: Shelf>(
    alloc: Global,
    folder: &Text,
    shelf: &mut S,
) -> Result<NamedPackage, Stop<Text, InputRefusal>>
    ensures { ReadsInput (S.state shelf.old) (S.state shelf.new) (named_package_in folder.now) result }
{
    let control = match read_named_control(alloc, folder, shelf) {
        Ok(control) => control,
        Err(stop) => return Err(stop),
    };
    let Control { version, name } = control;
    match read_kept_with(alloc, folder, version, shelf) {
        Ok(kept) => Ok(NamedPackage {
            name,
            own: kept.own,
        }),
        Err(stop) => Err(stop),
    }
}

/// The base, the new package in a folder, and the other one in another.
pub fn read_pair<S: Shelf>(
    alloc: Global,
    dir: &Text,
    other: &Text,
    base: &Option<Text>,
    shelf: &mut S,
) -> Result<Packages, Stop<Text, InputRefusal>>
    ensures { ReadsInput (S.state shelf.old) (S.state shelf.new) (pair_in dir.now other.now base.now) result }
{
    let base = match read_base(alloc, base, shelf) {
        Ok(base) => base,
        Err(stop) => return Err(stop),
    };
    let named = match read_named_package(alloc, dir, shelf) {
        Ok(named) => named,
        Err(stop) => return Err(stop),
    };
    let before = match read_kept_package(alloc, other, shelf) {
        Ok(before) => before,
        Err(stop) => return Err(stop),
    };
    let NamedPackage { name, own } = named;
    Ok(Packages {
        new_package: own,
        old_package: Some(before.own),
        base,
        name,
    })
}

/// The base, and the package in a folder.
pub fn read_twice<S: Shelf>(
    alloc: Global,
    dir: &Text,
    base: &Option<Text>,
    shelf: &mut S,
) -> Result<Packages, Stop<Text, InputRefusal>>
    ensures { ReadsInput (S.state shelf.old) (S.state shelf.new) (twice_in dir.now base.now) result }
{
    let base = match read_base(alloc, base, shelf) {
        Ok(base) => base,
        Err(stop) => return Err(stop),
    };
    let named = match read_named_package(alloc, dir, shelf) {
        Ok(named) => named,
        Err(stop) => return Err(stop),
    };
    let NamedPackage { name, own } = named;
    Ok(Packages {
        new_package: own,
        old_package: None,
        base,
        name,
    })
}
