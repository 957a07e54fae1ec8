// The files of a package beside its scripts.
ghost use Rattle.checker_input.specs.Input.{ReadsInput, version_in, list_in, conffiles_in};

use crate::faults::InputRefusal;
use crate::names::PackageFile;
use crate::read_file::{of_file, read_own};
use crate::understand::{control_version, list_entries, marked_entries};
use checker_io::{Shelf, Stop};
use package_lists::FileList;
use script_names::{Bytes, Text};
use std::alloc::Global;

/// The version of a package, from its control file.
pub(crate) fn read_version<S: Shelf>(
    alloc: Global,
    folder: &Text,
    shelf: &mut S,
) -> Result<Bytes, Stop<Text, InputRefusal>>
    ensures { ReadsInput (S.state shelf.old) (S.state shelf.new) (version_in folder.now) result }
{
    let found = match read_own(alloc, folder, PackageFile::Control, shelf) {
        Ok(found) => found,
        Err(stop) => return Err(stop),
    };
    let came = control_version(alloc, &found.content);
    of_file(found.name, came)
}

/// The files of a package, from its list.
pub(crate) fn read_entries<S: Shelf>(
    alloc: Global,
    folder: &Text,
    shelf: &mut S,
) -> Result<FileList, Stop<Text, InputRefusal>>
    ensures { ReadsInput (S.state shelf.old) (S.state shelf.new) (list_in folder.now) result }
{
    let found = match read_own(alloc, folder, PackageFile::List, shelf) {
        Ok(found) => found,
        Err(stop) => return Err(stop),
    };
    let came = list_entries(alloc, &found.content);
    match of_file(found.name, came) {
        Ok(entries) => Ok(FileList::new(entries)),
        Err(stop) => Err(stop),
    }
}

/// The files of a package with its configuration files, from the list of these.
pub(crate) fn mark_conffiles<S: Shelf>(
    alloc: Global,
    folder: &Text,
    entries: FileList,
    shelf: &mut S,
) -> Result<FileList, Stop<Text, InputRefusal>>
    ensures { ReadsInput (S.state shelf.old) (S.state shelf.new)
        (conffiles_in folder.now entries) result }
{
    let found = match read_own(alloc, folder, PackageFile::Conffiles, shelf) {
        Ok(found) => found,
        Err(stop) => return Err(stop),
    };
    let came = marked_entries(alloc, &found.content, entries);
    of_file(found.name, came)
}
